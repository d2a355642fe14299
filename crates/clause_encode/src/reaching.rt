//! Which rows and columns the jumps of a flow statement reach (the 3001's jump table).
ghost use Rattle.std.specs.Prelude.{◌≡◌, ◌<◌};
ghost use Rattle.mcu_jumps.specs.Landing.{outcomes_of};
ghost use Rattle.placement_clauses.specs.Reaching.{reaches, col_of, keeps_half};

use mcu_jumps::Kind;

/// Whether a jump of the statement reaches row `to` from row `from`.
pub(crate) fn reaches(kind: Kind, from: u32, to: u32) -> bool
    ensures { result ≡ reaches kind from to }
{
    match kind {
        Kind::Goto | Kind::Strobe => false,
        Kind::IfF => to / 16 == from / 16,
        Kind::Enable | Kind::IfC | Kind::IfZ | Kind::OnPr | Kind::OnLeft => to / 8 == from / 8,
        Kind::OnPx => to / 4 == from / 4,
        Kind::OnRight => to / 8 == from / 8 && to % 8 >= 4,
    }
}

/// The column where an outcome of a test lands, from a column.
pub(crate) fn col_of(kind: Kind, outcome: u32, col: u32) -> u32
    requires outcome { outcome < outcomes_of kind }
    requires col { col < 16 }
    ensures col { result ≡ col_of kind outcome col }
    ensures in_range { result < 16 }
{
    match kind {
        Kind::Goto | Kind::Strobe | Kind::Enable => col,
        Kind::IfF | Kind::IfC | Kind::IfZ => 8 * (col / 8) + 2 + outcome,
        Kind::OnPr | Kind::OnPx => outcome,
        Kind::OnLeft => 4 + outcome,
        Kind::OnRight => 12 + outcome,
    }
}

/// Whether the test keeps its half of the columns.
pub(crate) fn keeps_half(kind: Kind) -> bool
    ensures { result ≡ keeps_half kind }
{
    matches!(kind, Kind::IfF | Kind::IfC | Kind::IfZ)
}
