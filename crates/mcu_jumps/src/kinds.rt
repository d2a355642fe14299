//! The kinds of flow statements, which a source writes for jumps.

/// A kind of flow statement: what decides between its targets, and which jumps it may become.
/// The kinds are this project's own; each uses jump codes of the 3001.
#[derive(Clone, Copy, Debug, PartialEq, Eq)]
pub enum Kind {
    /// `goto`: one target, without the interrupt strobe.
    Goto,
    /// `strobe`: one target, with the interrupt strobe.
    Strobe,
    /// `enable`: one target, with the PR outputs enabled.
    Enable,
    /// `iff`: by this clock's flag input.
    IfF,
    /// `ifc`: by the C flag as the clock begins.
    IfC,
    /// `ifz`: by the Z flag as the clock begins.
    IfZ,
    /// `onpr`: by the PR latch as the clock begins.
    OnPr,
    /// `onpx`: by PX7..PX4 of this clock; the latch takes SX3..SX0 at its end.
    OnPx,
    /// `onleft`: by bits 3 and 2 of the PR latch as the clock begins.
    OnLeft,
    /// `onright`: by bits 1 and 0 of the PR latch as the clock begins.
    OnRight,
}
