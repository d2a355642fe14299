//! The flag functions of a microinstruction, and the four FC bits that carry them.
ghost use Rattle.std.specs.Prelude.{◌≡◌, ◌<◌, ◌↔◌, IsNone, IfSome, Some};
ghost use Rattle.mcu_chip.specs.FlagWord.{fc_of};
ghost use Rattle.mcu_chip.specs.declared.flags.FlagCtl.{FlagCtl};

/// A flag input function of the 3001: which of C and Z take the flag input (data sheet).
#[derive(Clone, Copy, Debug, PartialEq, Eq)]
pub enum FlagIn {
    /// Set C and Z.
    Scz,
    /// Set Z.
    Stz,
    /// Set C.
    Stc,
    /// Hold C and Z.
    Hcz,
}

/// A flag output function of the 3001: what the flag output FO is (data sheet).
#[derive(Clone, Copy, Debug, PartialEq, Eq)]
pub enum FlagOut {
    /// Force FO to 0.
    Ff0,
    /// Force FO to C.
    Ffc,
    /// Force FO to Z.
    Ffz,
    /// Force FO to 1.
    Ff1,
}

/// The flag functions of one microinstruction.
#[derive(Clone, Copy, Debug, PartialEq, Eq)]
pub struct FlagCtl {
    /// Which of C and Z take the flag input.
    pub input: FlagIn,
    /// What the flag output is.
    pub output: FlagOut,
}

impl FlagCtl {
    /// The flag functions of the bits FC3..FC0; None above 15. The values are this project's own choice.
    pub fn decode(fc: u8) -> Option<FlagCtl>
        ensures none { IsNone result ↔ (15 < fc) }
        ensures some { IfSome result (λ ctl. fc_of ctl ≡ fc) }
        ensures inverse { (ctl : FlagCtl) → fc_of ctl ≡ fc → result ≡ Some ctl }
    {
        if fc > 15 {
            return None;
        }
        let input = match fc & 3 {
            0 => FlagIn::Scz,
            1 => FlagIn::Stz,
            2 => FlagIn::Stc,
            _ => FlagIn::Hcz,
        };
        let output = match fc >> 2 {
            0 => FlagOut::Ff0,
            1 => FlagOut::Ffc,
            2 => FlagOut::Ffz,
            _ => FlagOut::Ff1,
        };
        Some(FlagCtl { input, output })
    }

    /// The bits FC3..FC0, 0 to 15. The values are this project's own choice.
    pub fn encode(self) -> u8
        ensures fc { result ≡ fc_of self }
        ensures in_range { result < 16 }
    {
        let input = match self.input {
            FlagIn::Scz => 0,
            FlagIn::Stz => 1,
            FlagIn::Stc => 2,
            FlagIn::Hcz => 3,
        };
        let output = match self.output {
            FlagOut::Ff0 => 0,
            FlagOut::Ffc => 4,
            FlagOut::Ffz => 8,
            FlagOut::Ff1 => 12,
        };
        output + input
    }
}
