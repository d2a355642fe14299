//! Asks a source for the clauses that hints name.
ghost use Rattle.std.specs.Prelude.{ℕ, ◌≡◌, ◌<◌, ◌≤◌, ◌+◌, ◌^◌, length, All, OnOk};
ghost use Rattle.refute_check.specs.Known.{IsKnown, Agrees};
ghost use Rattle.refute_check.specs.Cost.{hint_cost, hints_cost};

use crate::known_clauses::KnownClauses;
use clause_encode::ClauseSource;
use io_base::OutOfMemory;
use std::alloc::Global;

/// Asks for each clause of the source that a hint names and that is not known yet.
pub(crate) fn ask_all<P: ClauseSource>(
    alloc: Global,
    source: &mut P,
    known: &mut KnownClauses,
    hints: &[u32],
) -> Result<(), OutOfMemory>
    requires known { IsKnown (P.list source.old) known.old (P.given source.old) }
    requires hints { All (λ hint. (0 < hint) × (hint ≤ length (P.list source.old).clauses + length known.old.derived)) hints.now }
    ensures list { P.list source.new ≡ P.list source.old }
    ensures derived { known.new.derived ≡ known.old.derived }
    ensures known { OnOk result (IsKnown (P.list source.old) known.new (P.given source.new)) }
    ensures agree { OnOk result (All (Agrees (P.list source.old) known.new) hints.now) }
    ensures given { P.given source.new ≤ P.given source.old + hints_cost (P.list source.old).clauses hints.now }
{
    for hint in hints {
        ask(alloc, source, known, *hint)?;
    }
    Ok(())
}

// Asks for the clause of a hint where it is one of the source that is not known yet.
fn ask<P: ClauseSource>(
    alloc: Global,
    source: &mut P,
    known: &mut KnownClauses,
    hint: u32,
) -> Result<(), OutOfMemory>
    requires known { IsKnown (P.list source.old) known.old (P.given source.old) }
    requires hint { (0 < hint) × (hint ≤ length (P.list source.old).clauses + length known.old.derived) }
    ensures list { P.list source.new ≡ P.list source.old }
    ensures derived { known.new.derived ≡ known.old.derived }
    ensures known { OnOk result (IsKnown (P.list source.old) known.new (P.given source.new)) }
    ensures agrees { OnOk result (Agrees (P.list source.old) known.new hint) }
    ensures keeps { OnOk result ((other : ℕ) → Agrees (P.list source.old) known.old other → Agrees (P.list source.old) known.new other) }
    ensures given { P.given source.new ≤ P.given source.old + hint_cost (P.list source.old).clauses hint }
{
    if known.lacks(hint) {
        let clause = source.clause(alloc, hint)?;
        known.keep(hint, clause.as_slice())?;
    }
    Ok(())
}
