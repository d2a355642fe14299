//! Laws of the reader: where the pieces of a text are cut makes no difference, its whole lines decide what is told,
//! and a printed line is read as itself.

ghost use Rattle.std.specs.Prelude.{ℕ, ◌≡◌, ◌==◌, ◌++◌, List, false};
ghost use Rattle.std.specs.List.{slice_split};
ghost use Rattle.clause_base.specs.declared.line.Line.{Line};
ghost use Rattle.ref_text.specs.Text.{line_text};
ghost use Rattle.ref_text.specs.Reading.{Reader, first};
ghost use Rattle.ref_text.specs.Pieces.{after, events, lines_bring};
ghost use Rattle.ref_text.specs.Printed.{CanBeRead, SaysLine};

/// Two pieces bring what one piece of both brings, and leave the same reader.
pub fn cuts_make_no_difference()
    ensures events { (reader : Reader) (front back : List ℕ) →
        events reader (front ++ back) ≡ events reader front ++ events (after reader front) back }
    ensures reader { (reader : Reader) (front back : List ℕ) →
        after reader (front ++ back) ≡ after (after reader front) back }
{}

/// A text brings its whole lines up to the first that is refused, each judged by its number and the line before it.
pub fn whole_lines_are_told()
    ensures { (number vars : ℕ) (text : List ℕ) →
        events (first number vars) text ≡ lines_bring number vars 0 false (slice_split (λ b. b == 10) text) }
{}

/// The text of a line whose numbers a text can hold is one line, which says just that line.
pub fn printed_lines_are_read()
    ensures { (number : ℕ) (line : Line) → CanBeRead number line → SaysLine (line_text number line) number line }
{}
