//! What a flow statement does.

ghost use Rattle.std.specs.Prelude.{◌≡◌, ◌<◌};
ghost use Rattle.flow_sim.specs.Flow.{outcome_of, latch_by, is_strobe, shown_by};

use mcu_jumps::{Kind, Tests};

/// Which outcome a statement takes, from 0.
pub(crate) fn outcome_of(kind: Kind, tests: Tests) -> u8
    ensures { result ≡ outcome_of kind tests }
{
    match kind {
        Kind::Goto | Kind::Strobe | Kind::Enable => 0,
        Kind::IfF => tests.f as u8,
        Kind::IfC => tests.c as u8,
        Kind::IfZ => tests.z as u8,
        Kind::OnPr => tests.pr,
        Kind::OnPx => tests.px,
        Kind::OnLeft => tests.pr / 4,
        Kind::OnRight => tests.pr % 4,
    }
}

/// The PR latch after a statement: `onpx` loads it from SX.
pub(crate) fn latch_by(kind: Kind, pr: u8, sx: u8) -> u8
    ensures { result ≡ latch_by kind pr sx }
{
    if kind == Kind::OnPx { sx } else { pr }
}

/// Whether a statement gives the interrupt strobe.
pub(crate) fn is_strobe(kind: Kind) -> bool
    ensures { result ≡ is_strobe kind }
{
    kind == Kind::Strobe
}

/// What a statement shows on the PR outputs, where it enables them.
pub(crate) fn shown_by(kind: Kind, pr: u8) -> Option<u8>
    ensures { result ≡ shown_by kind pr }
{
    (kind == Kind::Enable).then_some(pr % 8)
}
