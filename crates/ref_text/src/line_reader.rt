//! Reads the lines of a refutation from a text that comes in pieces.

ghost use Rattle.std.specs.Prelude.{ℕ, ◌≡◌, ◌<◌, ◌≤◌, ◌-◌, ◌+◌, ◌^◌, [], map, length, take, true, false, IfOk, OnOk, OnErr, IsTrue, IsErr, All, nat_lt, MatchResult, Option, Some, None};
ghost use Rattle.std.specs.List.{list_all, position_or_len};
ghost use Rattle.ref_text.specs.Cut.{written_of};
ghost use Rattle.ref_text.specs.Fault as spec;
ghost use Rattle.ref_text.specs.Fault.{written_fault};
ghost use Rattle.ref_text.specs.Form.{form, literal_of, size_of, if_all, written_in};
ghost use Rattle.ref_text.specs.Marks.{AreClear};
ghost use Rattle.ref_text.specs.Pieces.{IsFed};
ghost use Rattle.ref_text.specs.Reading as reading;
ghost use Rattle.ref_text.specs.Reading.{first, with_bytes, at_end, told, fed_good, after_good, fed_of, after_feed, at_text_end};

use crate::forms::{CutLine, cut_line, read_values};
use crate::literals::are_literals;
use crate::words::Signed;
use crate::{Event, Fed, Why};
use clause_base::Lit;
use io_base::OutOfMemory;
use std::alloc::{AllocError, Global};
use std::marker::Model;

/// A reader of refutation lines. It keeps the bytes of the line that is begun, and the last line that it read.
#[derive(Drop)]
pub struct LineReader {
    vars: u32,
    number: u64,
    count: u64,
    over: bool,
    bad: Option<Why>,
    failed: bool,
    begun: Vec<u8>,
    values: Vec<Signed>,
    marks: Vec<bool>,
    clause: Vec<Lit>,
    hints: Vec<u32>,
}

impl Model for LineReader {
    ghost use Rattle.ref_text.specs.Reading.{Reader};

    ghost Value = { Reader };

    ghost use Rattle.ref_text.specs.Fields.{reader_of, IsReader};

    ghost view = { reader_of };

    ghost invariant = { IsReader };
}

impl LineReader {
    /// A reader before its first line, which should have the number `first_number`, over the variables 1 to `vars`.
    pub fn new(alloc: Global, first_number: u32, vars: u32) -> Result<LineReader, OutOfMemory>
        requires number { 1 ≤ first_number }
        requires vars { vars < 2 ^ 31 }
        ensures { IfOk result (λ reader. reader ≡ first first_number vars) }
    {
        let marks = vec![in alloc; false; vars as usize + 1]?;
        Ok(LineReader {
            vars,
            number: first_number as u64,
            count: 0,
            over: false,
            bad: None,
            failed: false,
            begun: Vec::new(alloc),
            values: Vec::new(alloc),
            marks,
            clause: Vec::new(alloc),
            hints: Vec::new(alloc),
        })
    }

    /// Uses the bytes of a piece up to the end of a line, or all. A line and a refusal come with the line's LF
    /// as the last byte used. A refused line is told again at every later call, with no byte used. After want of
    /// memory every later call answers the same.
    pub fn feed(&mut self, piece: &[u8]) -> Result<Fed, OutOfMemory>
        ensures fed { IfOk result (λ fed. fed ≡ fed_of self.old.bad self.old piece.now) }
        ensures reader { OnOk result (self.new ≡ after_feed self.old.bad self.old piece.now) }
        ensures pieces { IfOk result (λ fed. IsFed self.old piece.now self.new fed) }
        ensures small { OnOk result (self.new.number ≤ 2 ^ 32) }
        ensures goes_on { OnOk result (self.new.failed ≡ false) }
        ensures no_memory { OnErr result (self.new.failed ≡ true) }
        ensures for_ever { self.old.failed ≡ true → IsErr result }
    {
        if self.failed {
            return Err(OutOfMemory);
        }
        if let Some(why) = self.bad {
            return Ok(Fed {
                used: 0,
                event: Event::Bad(self.count + 1, why),
            });
        }
        match self.take(piece) {
            Ok(fed) => Ok(fed),
            Err(_) => {
                self.failed = true;
                Err(OutOfMemory)
            }
        }
    }

    /// The literals of the last line that was read.
    pub fn clause(&self) -> &[Lit]
        ensures { result.now ≡ self.now.last.clause }
    {
        &self.clause
    }

    /// The hints of the last line that was read.
    pub fn hints(&self) -> &[u32]
        ensures { result.now ≡ self.now.last.hints }
    {
        &self.hints
    }

    /// What the reader tells where the text ends here: the refused line, or that no line is begun, or that
    /// the line that is begun is not of the form.
    pub fn finish(self) -> Fed
        requires { self.failed ≡ false }
        ensures { result ≡ record { used = 0; event = at_text_end self.count self.bad self.begun } }
    {
        let event = match self.bad {
            Some(why) => Event::Bad(self.count + 1, why),
            None if self.begun.is_empty() => Event::End,
            None => Event::Bad(self.count + 1, Why::Text),
        };
        Fed { used: 0, event }
    }

    // Uses bytes, where no line was refused.
    fn take(&mut self, piece: &[u8]) -> Result<Fed, AllocError>
        requires { self.old.bad ≡ None }
        ensures fed { IfOk result (λ fed. fed ≡ fed_good self.old piece.now) }
        ensures reader { OnOk result (self.new ≡ after_good self.old piece.now) }
    {
        let end = lf_at(piece);
        self.take_front(piece, end)?;
        if end == piece.len() {
            return Ok(Fed {
                used: end,
                event: Event::More,
            });
        }
        let event = self.end_line()?;
        Ok(Fed {
            used: end + 1,
            event,
        })
    }

    // Takes bytes of the line that is begun.
    fn take_front(&mut self, piece: &[u8], end: usize) -> Result<(), AllocError>
        requires { end ≤ length piece.now }
        ensures { OnOk result (self.new ≡ with_bytes self.old (take end piece.now)) }
    {
        self.begun.extend_from_slice(&piece[..end])
    }

    // The LF of the line that is begun was read.
    #[tactic(auto, unfolding(crate::specs::Form::form))]
    fn end_line(&mut self) -> Result<Event, AllocError>
        requires { self.old.bad ≡ None }
        ensures reader { OnOk result (self.new ≡ at_end self.old) }
        ensures event { IfOk result (λ event. event ≡ told self.old.count self.new.bad) }
    {
        let all = read_values(&self.begun, &mut self.values)?;
        self.begun.clear();
        match judge(all, &self.values, self.number, self.over, &mut self.marks) {
            Ok(line) => {
                keep_literals(line.literals, &mut self.clause)?;
                keep_hints(line.hints, &mut self.hints)?;
                self.over = line.literals.is_empty();
                self.number += 1;
                self.count += 1;
                Ok(Event::Line)
            }
            Err(why) => {
                self.bad = Some(why);
                Ok(Event::Bad(self.count + 1, why))
            }
        }
    }
}

// The number of bytes before the first LF.
fn lf_at(piece: &[u8]) -> usize
    ensures place { result ≡ reading.lf_at piece.now }
    ensures within { result ≤ length piece.now }
{
    piece.iter().take_while(|byte| **byte != b'\n').count()
}

// The line that these values of its words write, or why it is refused.
fn judge<'a>(
    all: bool,
    values: &'a [Signed],
    number: u64,
    over: bool,
    marks: &mut [bool],
) -> Result<CutLine<'a>, Why>
    requires some { 0 < length marks.old }
    requires clear { AreClear marks.old }
    ensures told { MatchResult result
        (λ line. (written_in (if_all all values.now) ≡ Some (written_of line))
        × (written_fault number (length marks.old - 1) over (Some (written_of line)) ≡ None))
        (λ why. written_fault number (length marks.old - 1) over (written_in (if_all all values.now)) ≡ Some why) }
    ensures sizes { IfOk result (λ line. All (λ literal. (0 < literal.size) × (literal.size ≤ length marks.old - 1)) line.literals.now) }
    ensures small { IfOk result (λ _. number < 2 ^ 32) }
    ensures len { length marks.new ≡ length marks.old }
    ensures clear { AreClear marks.new }
{
    if !all {
        return Err(Why::Text);
    }
    match cut_line(values) {
        None => Err(Why::Text),
        Some(line) => match fault(line, number, over, marks) {
            None => Ok(line),
            Some(why) => Err(why),
        },
    }
}

// Why a line of the form is refused by its text.
fn fault(line: CutLine<'_>, number: u64, over: bool, marks: &mut [bool]) -> Option<Why>
    requires some { 0 < length marks.old }
    requires clear { AreClear marks.old }
    ensures told { result ≡ written_fault number (length marks.old - 1) over (Some (written_of line.entry)) }
    ensures sizes { result ≡ None → All (λ literal. (0 < literal.size) × (literal.size ≤ length marks.old - 1)) line.entry.literals.now }
    ensures small { result ≡ None → number < 2 ^ 32 }
    ensures len { length marks.new ≡ length marks.old }
    ensures clear { AreClear marks.new }
{
    if over {
        return Some(Why::After);
    }
    if line.number as u64 != number {
        return Some(Why::Number);
    }
    if !are_literals(line.literals, marks) {
        return Some(Why::Literal);
    }
    if are_hints(line.number, line.hints) {
        None
    } else {
        Some(Why::Hint)
    }
}

// There is a hint, and each is below the line's number.
fn are_hints(number: u32, hints: &[Signed]) -> bool
    ensures { result ≡ spec.are_hints number (map size_of hints.now) }
{
    if hints.is_empty() {
        return false;
    }
    are_below(number, hints)
}

fn are_below(number: u32, hints: &[Signed]) -> bool
    ensures { result ≡ list_all (λ hint. nat_lt (size_of hint) number) hints.now }
{
    hints.iter().all(|hint| hint.size < number)
}

// Replaces a clause by these literals.
fn keep_literals(literals: &[Signed], clause: &mut Vec<Lit>) -> Result<(), AllocError>
    requires { All (λ literal. (0 < literal.size) × (literal.size < 2 ^ 31)) literals.now }
    ensures { OnOk result (clause.new.items ≡ map literal_of literals.now) }
{
    clause.clear();
    for literal in literals {
        clause.push(lit_of(*literal))?;
    }
    Ok(())
}

fn lit_of(literal: Signed) -> Lit
    requires above { 0 < literal.size }
    requires below { literal.size < 2 ^ 31 }
    ensures { result ≡ literal_of literal }
{
    let size = literal.size as i32;
    let value = if literal.minus { -size } else { size };
    Lit::new(value).unwrap()
}

// Replaces hints by these.
fn keep_hints(numbers: &[Signed], hints: &mut Vec<u32>) -> Result<(), AllocError>
    ensures { OnOk result (hints.new.items ≡ map size_of numbers.now) }
{
    hints.clear();
    for number in numbers {
        hints.push(number.size)?;
    }
    Ok(())
}
