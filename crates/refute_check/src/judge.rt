//! Judges the lines of a text that comes in pieces.
ghost use Rattle.std.specs.Prelude.{ℕ, ◌≡◌, ◌<◌, ◌≤◌, ◌-◌, ◌+◌, ◌^◌, List, [], ◌∷◌, ◌++◌, Bool, false, neg_ℤ, map, length, take, IfOk, OnOk, OnErr, None};
ghost use Rattle.clause_base.specs.declared.line.Line.{Line};
ghost use Rattle.ref_text.specs.Fits.{IsRight};
ghost use Rattle.refute_check.specs.Hints.{judged};
ghost use Rattle.refute_check.specs.Known.{IsKnown};
ghost use Rattle.refute_check.specs.Check as spec;
ghost use Rattle.refute_check.specs.Check.{has_begun};
ghost use Rattle.refute_check.specs.Cost.{hints_cost};
ghost use Rattle.refute_check.specs.Judging.{spot_of, at_start, further, Stands, Brings, StopsIn, Judges, StandsAfter, StandsOn};

use crate::asking::ask_all;
use crate::checked::Checked;
use crate::derivation::derive_line;
use crate::known_clauses::KnownClauses;
use crate::signs::Signs;
use clause_base::Lit;
use clause_encode::ClauseSource;
use io_base::OutOfMemory;
use ref_text::{Event, LineReader, Why};
use std::alloc::Global;

/// What the judging of a text keeps between its pieces: the bytes of the present line, and of the lines before it their
/// literals alone.
#[derive(Drop)]
pub(crate) struct Judge {
    /// The clauses that hints may name.
    pub known: KnownClauses,
    /// The literals that hold while a line is judged.
    pub signs: Signs,
    /// The reader of the lines.
    pub reader: LineReader,
    /// Whether the last line that was read has no literal.
    pub over: bool,
}

/// What the front of a piece brings.
#[derive(Clone, Copy)]
pub(crate) enum NextLine {
    /// The piece is used up inside a line.
    End,
    /// A line that is refused.
    Bad(Why),
    /// A derived line, for which so many bytes of the piece were used.
    Line(usize),
}

impl Judge {
    /// A judge before the first byte of a text.
    pub(crate) fn new<P: ClauseSource>(alloc: Global, source: &P) -> Result<Judge, OutOfMemory>
        requires given { P.given source.now < 2 ^ 64 }
        requires len { length (P.list source.now).clauses < 2 ^ 32 - 1 }
        requires vars { (P.list source.now).vars < 2 ^ 31 }
        ensures stands { IfOk result (λ judge. Stands (P.list source.now) judge (P.given source.now)) }
        ensures start { IfOk result (λ judge. spot_of judge ≡ at_start) }
    {
        let (vars, len) = (source.vars(), source.len());
        Ok(Judge {
            known: KnownClauses::new(alloc, vars, len)?,
            signs: Signs::new(alloc, vars)?,
            reader: LineReader::new(alloc, len + 1, vars)?,
            over: false,
        })
    }

    /// Judges the lines that a piece of the text brings to their end, up to the first that is refused.
    pub(crate) fn take<P: ClauseSource>(
        &mut self,
        alloc: Global,
        source: &mut P,
        piece: &[u8],
    ) -> Result<Option<Why>, OutOfMemory>
        requires stands { Stands (P.list source.old) self.old (P.given source.old) }
        ensures list { P.list source.new ≡ P.list source.old }
        ensures stands { IfOk result (λ bad. StandsAfter (P.list source.old) bad self.new (P.given source.new)) }
        ensures judges { IfOk result (λ bad. Judges (P.list source.old) (spot_of self.old) (P.given source.old) piece.now bad (spot_of self.new) (P.given source.new)) }
        ensures fails { OnErr result (StopsIn (P.list source.old) (spot_of self.old) (P.given source.old) piece.now (P.given source.new)) }
    {
        let mut at = 0;
        'lines: loop {
            match self.next_line(alloc, source, &piece[at..])? {
                NextLine::End => return Ok(None),
                NextLine::Bad(why) => return Ok(Some(why)),
                NextLine::Line(used) => at += used,
            }
        }
    }

    /// How many lines are derived.
    pub(crate) fn lines(&self) -> u64
        ensures count { result ≡ length self.now.known.derived }
        ensures few { result < 2 ^ 32 }
    {
        u64::from(self.known.lines())
    }

    /// The answer where the text ends here. A line that is begun is not of the form.
    pub(crate) fn verdict(self) -> Checked
        requires failed { self.reader.failed ≡ false }
        requires bad { self.reader.bad ≡ None }
        requires counted { self.reader.count ≡ length self.known.derived }
        ensures { result ≡ spec.verdict_of (length self.known.derived) self.over None (has_begun self.reader.begun) }
    {
        let count = self.lines();
        let over = self.over;
        match self.reader.finish().event {
            Event::Bad(line, why) => Checked::Rejected(line, why),
            _ => answer_after(count, over),
        }
    }

    // Reads and judges the next line.
    fn next_line<P: ClauseSource>(
        &mut self,
        alloc: Global,
        source: &mut P,
        rest: &[u8],
    ) -> Result<NextLine, OutOfMemory>
        requires stands { Stands (P.list source.old) self.old (P.given source.old) }
        ensures list { P.list source.new ≡ P.list source.old }
        ensures stands { IfOk result (λ next. StandsOn (P.list source.old) next self.new (P.given source.new)) }
        ensures brings { IfOk result (λ next. Brings (P.list source.old) (spot_of self.old) (P.given source.old) rest.now next (spot_of self.new) (P.given source.new)) }
        ensures fails { OnErr result (StopsIn (P.list source.old) (spot_of self.old) (P.given source.old) rest.now (P.given source.new)) }
    {
        let fed = self.reader.feed(rest)?;
        match fed.event {
            Event::More => Ok(NextLine::End),
            Event::End => Ok(NextLine::End),
            Event::Bad(_, why) => Ok(NextLine::Bad(why)),
            Event::Line => {
                let (clause, hints) = (self.reader.clause(), self.reader.hints());
                match judge_line(
                    alloc,
                    source,
                    &mut self.known,
                    &mut self.signs,
                    clause,
                    hints,
                )? {
                    Some(why) => Ok(NextLine::Bad(why)),
                    None => {
                        self.over = clause.is_empty();
                        Ok(NextLine::Line(fed.used))
                    }
                }
            }
        }
    }
}

// The answer at the end of a text of right lines.
fn answer_after(count: u64, over: bool) -> Checked
    ensures { result ≡ spec.ended count over }
{
    if over {
        Checked::Refutes(count)
    } else {
        Checked::Derived(count)
    }
}

// Why a line whose text is right is not derived, or None, and then its clause is known too.
fn judge_line<P: ClauseSource>(
    alloc: Global,
    source: &mut P,
    known: &mut KnownClauses,
    signs: &mut Signs,
    clause: &[Lit],
    hints: &[u32],
) -> Result<Option<Why>, OutOfMemory>
    requires known { IsKnown (P.list source.old) known.old (P.given source.old) }
    requires signs { signs.old.vars ≡ (P.list source.old).vars }
    requires few { length (P.list source.old).clauses + length known.old.derived < 2 ^ 32 - 1 }
    requires right { IsRight (length (P.list source.old).clauses + length known.old.derived + 1) (P.list source.old).vars (record { clause = clause.now; hints = hints.now }) }
    ensures list { P.list source.new ≡ P.list source.old }
    ensures known { OnOk result (IsKnown (P.list source.old) known.new (P.given source.new)) }
    ensures signs { OnOk result (signs.new.vars ≡ signs.old.vars) }
    ensures told { IfOk result (λ bad. bad ≡ judged ((P.list source.old).clauses ++ known.old.derived) (map neg_ℤ clause.now) hints.now) }
    ensures derived { IfOk result (λ bad. bad ≡ None → known.new.derived ≡ known.old.derived ++ clause.now ∷ []) }
    ensures refused { IfOk result (λ bad. (bad ≡ None → ⊥) → known.new.derived ≡ known.old.derived) }
    ensures given { P.given source.new ≤ P.given source.old + hints_cost (P.list source.old).clauses hints.now }
{
    ask_all(alloc, source, known, hints)?;
    match derive_line(known, signs, clause, hints)? {
        Some(why) => Ok(Some(why)),
        None => {
            known.add_line(clause)?;
            Ok(None)
        }
    }
}
