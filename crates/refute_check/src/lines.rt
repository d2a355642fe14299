//! Judges the lines of a text, one after another.

ghost use Rattle.std.specs.Prelude.{ℕ, ◌≡◌, ◌<◌, ◌-◌, ◌^◌, Bool, length, IfOk};
ghost use Rattle.clause_base.specs.TruthValues.{AllHold};
ghost use Rattle.refute_check.specs.Check.{check};
ghost use Rattle.refute_check.specs.declared.checked.Checked.TheVariants as checked;

use crate::checked::Checked;
use crate::judge::Judge;
use clause_base::ClauseList;
use clause_encode::ListSource;
use io_base::OutOfMemory;
use std::alloc::Global;

/// The answer for a text, judged against the clauses of a list. It fails only for want of memory.
pub fn check_bytes(alloc: Global, list: ClauseList, bytes: &[u8]) -> Result<Checked, OutOfMemory>
    requires { length list.clauses < 2 ^ 32 - 1 }
    ensures told { IfOk result (λ answer. answer ≡ check list bytes.now) }
    ensures refuted { IfOk result (λ answer. (k : ℕ) → answer ≡ checked.Refutes k →
        (values : ℕ → Bool) → AllHold values list.clauses → ⊥) }
{
    let mut source = ListSource::new(&list);
    let mut judge = Judge::new(alloc, &source)?;
    match judge.take(alloc, &mut source, bytes)? {
        Some(why) => Ok(Checked::Rejected(judge.lines() + 1, why)),
        None => Ok(judge.verdict()),
    }
}
