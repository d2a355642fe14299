//! Laws of the checker: a text that it takes for a refutation is one, the text of a refutation is taken for one, and
//! how long such a text can be.

ghost use Rattle.std.specs.Prelude.{ℕ, ◌≡◌, ◌<◌, ◌≤◌, ◌+◌, ◌*◌, ◌^◌, List, length, All};
ghost use Rattle.clause_base.specs.Clauses.{Clauses, IsClause};
ghost use Rattle.clause_base.specs.Refutation.{AreDerived, Refutes};
ghost use Rattle.clause_base.specs.declared.line.Line.{Line};
ghost use Rattle.ref_text.specs.Text.{refutation_text};
ghost use Rattle.refute_check.specs.Check.{check};
ghost use Rattle.refute_check.specs.declared.checked.Checked.TheVariants as checked;

/// Where the answer is that a text refutes a list by so many lines, so many lines are a refutation of the list.
pub fn refuting_text_is_a_refutation()
    ensures { (list : Clauses) (bytes : List ℕ) (count : ℕ) → check list bytes ≡ checked.Refutes count →
        (lines : List Line) × (length lines ≡ count) × Refutes list lines }
{}

/// The text of a refutation of a list is taken for one of so many lines, where 32 bits hold the numbers of its lines
/// and variables.
pub fn printed_refutations_are_taken()
    ensures { (list : Clauses) (lines : List Line) → list.vars < 2 ^ 32 → length list.clauses + length lines < 2 ^ 32 →
        Refutes list lines → check list (refutation_text (length list.clauses) lines) ≡ checked.Refutes (length lines) }
{}

/// A derived line has at most one literal or hint more than there are variables, so its text is short. The lines of
/// 1,000,000 conflicts and one more, for a program of 128 labels, whose clauses have 14,656 variables, have fewer than
/// 2^39 bytes.
pub fn refutation_texts_are_short()
    ensures each { (list : Clauses) (lines : List Line) → All (IsClause list.vars) list.clauses → AreDerived list lines →
        list.vars < 2 ^ 32 → length list.clauses + length lines < 2 ^ 32 →
        length (refutation_text (length list.clauses) lines) ≤ length lines * (12 * list.vars + 27) }
    ensures saved { (list : Clauses) (lines : List Line) → All (IsClause list.vars) list.clauses → AreDerived list lines →
        length list.clauses + length lines < 2 ^ 32 → list.vars ≤ 14656 → length lines ≤ 1000001 →
        length (refutation_text (length list.clauses) lines) < 2 ^ 39 }
{}
