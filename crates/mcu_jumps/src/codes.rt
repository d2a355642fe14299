//! The 3001's eleven jump codes.
ghost use Rattle.std.specs.Prelude.{◌≡◌};
ghost use Rattle.mcu_jumps.specs.CodeName.{name_of};

/// A jump code of the 3001, in the order of the AC values.
#[derive(Clone, Copy, Debug, PartialEq, Eq)]
pub enum Code {
    /// Jump in the current column.
    Jcc,
    /// Jump to row zero.
    Jzr,
    /// Jump in the current row.
    Jcr,
    /// Jump and test the F latch.
    Jfl,
    /// Jump and test the C flag.
    Jcf,
    /// Jump and test the Z flag.
    Jzf,
    /// Jump and test the PR latch.
    Jpr,
    /// Jump and test the two left bits of the PR latch.
    Jll,
    /// Jump in the current column, and enable the PR outputs.
    Jce,
    /// Jump and test the PX bus, and load the PR latch.
    Jpx,
    /// Jump and test the two right bits of the PR latch.
    Jrl,
}

impl Code {
    /// The code's name in the data sheet.
    pub fn name(self) -> &'static str
        ensures { result.now ≡ name_of self }
    {
        match self {
            Code::Jcc => "JCC",
            Code::Jzr => "JZR",
            Code::Jcr => "JCR",
            Code::Jfl => "JFL",
            Code::Jcf => "JCF",
            Code::Jzf => "JZF",
            Code::Jpr => "JPR",
            Code::Jll => "JLL",
            Code::Jce => "JCE",
            Code::Jpx => "JPX",
            Code::Jrl => "JRL",
        }
    }
}
