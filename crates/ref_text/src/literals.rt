//! Tests the literals of a line: each is of a variable of the list, and no variable comes twice.

ghost use Rattle.std.specs.Prelude.{ℕ, ◌≡◌, ◌<◌, ◌≤◌, ◌≢◌, ◌-◌, ◌&&◌, not, map, length, All, slice_index_or, true, false};
ghost use Rattle.ref_text.specs.Fault.{is_variable, are_literals};
ghost use Rattle.ref_text.specs.Form.{literal_of};
ghost use Rattle.ref_text.specs.Marks.{AreClear, are_met};

use crate::words::Signed;

/// Whether these are literals over the variables 1 to `marks.len() - 1`, no variable twice. The marks are
/// one for each variable and one for 0; none is set before or after.
pub(crate) fn are_literals(literals: &[Signed], marks: &mut [bool]) -> bool
    requires clear { AreClear marks.old }
    ensures told { result ≡ are_literals (length marks.old - 1) (map literal_of literals.now) }
    ensures sizes { result ≡ true → All (λ literal. (0 < literal.size) × (literal.size ≤ length marks.old - 1)) literals.now }
    ensures len { length marks.new ≡ length marks.old }
    ensures clear { AreClear marks.new }
{
    let apart = mark(literals, marks);
    unmark(literals, marks);
    apart
}

// Marks the variables up to the first that is none of the list's, or is marked already.
fn mark(literals: &[Signed], marks: &mut [bool]) -> bool
    requires clear { AreClear marks.old }
    ensures told { result ≡ are_literals (length marks.old - 1) (map literal_of literals.now) }
    ensures len { length marks.new ≡ length marks.old }
    ensures met { (v : ℕ) → slice_index_or marks.new v false ≡ true → are_met literals.now v ≡ true }
{
    for literal in literals {
        let var = literal.size as usize;
        if !is_free(marks, var) {
            return false;
        }
        marks[var] = true;
    }
    true
}

// Whether this is a variable of the list that is not marked.
fn is_free(marks: &[bool], var: usize) -> bool
    ensures told { result ≡ (is_variable (length marks.now - 1) var && not (slice_index_or marks.now var false)) }
    ensures within { result ≡ true → var < length marks.now }
{
    var != 0 && var < marks.len() && !marks[var]
}

// Takes the marks of these variables away.
fn unmark(literals: &[Signed], marks: &mut [bool])
    requires met { (v : ℕ) → slice_index_or marks.old v false ≡ true → are_met literals.now v ≡ true }
    ensures len { length marks.new ≡ length marks.old }
    ensures clear { AreClear marks.new }
{
    for literal in literals {
        clear_mark(marks, literal.size as usize);
    }
}

fn clear_mark(marks: &mut [bool], var: usize)
    ensures len { length marks.new ≡ length marks.old }
    ensures clear { slice_index_or marks.new var false ≡ false }
    ensures others { (v : ℕ) → v ≢ var → slice_index_or marks.new v false ≡ slice_index_or marks.old v false }
{
    if var < marks.len() {
        marks[var] = false;
    }
}
