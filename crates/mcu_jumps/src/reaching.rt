//! Which jumps a flow statement may become, and which of them reaches given targets.
ghost use Rattle.std.specs.Prelude.{◌≡◌, ◌≤◌, ◌↔◌, IfNone, IfSome, IsTrue, length};
ghost use Rattle.mcu_jumps.specs.JumpWord.{JumpWord, ac_of};
ghost use Rattle.mcu_jumps.specs.NextAddress.{outcome_count};
ghost use Rattle.mcu_jumps.specs.Landing.{Admits, outcomes_of, LandsOnAll, Serves};
ghost use Rattle.mcu_jumps.specs.OneJump.{OneJumpToLabel};

use crate::{Cell, Code, Jump, Kind, landing};

/// How many outcomes a flow statement has, 1, 2, 4 or 16, which is how many targets it names.
pub fn outcomes(kind: Kind) -> u8
    ensures { result ≡ outcomes_of kind }
{
    match kind {
        Kind::Goto | Kind::Strobe | Kind::Enable => 1,
        Kind::IfF | Kind::IfC | Kind::IfZ => 2,
        Kind::OnPr | Kind::OnPx => 16,
        Kind::OnLeft | Kind::OnRight => 4,
    }
}

/// Whether a flow statement may become this jump (this project's own choice). `goto` never becomes
/// JZR 15, since that jump strobes for an interrupt.
pub fn admits(kind: Kind, jump: Jump) -> bool
    ensures { IsTrue result ↔ Admits kind jump }
{
    match (kind, jump.code()) {
        (Kind::Goto, Code::Jcc | Code::Jcr) => true,
        (Kind::Goto, Code::Jzr) => jump.operand() < 15,
        (Kind::Strobe, Code::Jzr) => jump.operand() == 15,
        (Kind::Enable, Code::Jce) => true,
        (Kind::IfF, Code::Jfl) => true,
        (Kind::IfC, Code::Jcf) => true,
        (Kind::IfZ, Code::Jzf) => true,
        (Kind::OnPr, Code::Jpr) => true,
        (Kind::OnPx, Code::Jpx) => true,
        (Kind::OnLeft, Code::Jll) => true,
        (Kind::OnRight, Code::Jrl) => true,
        _ => false,
    }
}

// Whether each outcome that has a target lands on it.
fn lands_on_all(from: Cell, jump: Jump, targets: &[Option<Cell>]) -> bool
    requires { length targets.now ≤ outcome_count jump.code }
    ensures { IsTrue result ↔ LandsOnAll from jump targets.now }
{
    for (outcome, target) in targets.iter().enumerate() {
        if let Some(cell) = target {
            if landing(from, jump, outcome as u8) != *cell {
                return false;
            }
        }
    }
    true
}

/// The jump of least AC value that the statement admits and whose outcomes land on all targets
/// that are given, or None where there is no such jump. Target number o is where outcome o leads;
/// a target that is None may lie anywhere.
pub fn reach(from: Cell, kind: Kind, targets: &[Option<Cell>]) -> Option<Jump>
    requires { length targets.now ≡ outcomes_of kind }
    ensures serves { IfSome result (Serves from kind targets.now) }
    ensures least { IfSome result (λ jump. (other : JumpWord)
        → Serves from kind targets.now other → ac_of jump ≤ ac_of other) }
    ensures none { IfNone result ((other : JumpWord) → Serves from kind targets.now other → ⊥) }
{
    for ac in 0..128u8 {
        if let Some(jump) = Jump::decode(ac) {
            if admits(kind, jump) && lands_on_all(from, jump, targets) {
                return Some(jump);
            }
        }
    }
    None
}

/// A law: from one cell, a statement with more than one outcome has at most one jump that takes a
/// given outcome to a given cell. So one label's cell fixes the jump, and with it every other
/// outcome's cell.
pub fn one_jump_to_a_label()
    ensures { OneJumpToLabel }
{}
