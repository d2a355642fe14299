//! The form of a line: what its words stand for, and where its literals and its hints are among them.

ghost use Rattle.std.specs.Prelude.{◌≡◌, true, false, [], IfOk, MatchOption, Some};
ghost use Rattle.std.specs.List.{list_all, position_or_len, before_first, after_first};
ghost use Rattle.std.specs.Option.{option_map};
ghost use Rattle.ref_text.specs.Words.{words_of, values_of};
ghost use Rattle.ref_text.specs.Form.{has_zero, is_zero, is_plain, if_all, written_in};
ghost use Rattle.ref_text.specs.Cut.{written_of};

use crate::words::{Signed, value_of};
use std::alloc::AllocError;

/// A line of the form, cut out of the values of its words.
#[derive(Clone, Copy)]
pub(crate) struct CutLine<'a> {
    /// The first value.
    pub number: u32,
    /// The values between it and the first 0 behind it.
    pub literals: &'a [Signed],
    /// The values between the two zeros.
    pub hints: &'a [Signed],
}

/// Replaces `values` by what the words of a line stand for; false where a word stands for nothing.
#[tactic(auto, unfolding(crate::specs::Words::values_of))]
pub(crate) fn read_values(line: &[u8], values: &mut Vec<Signed>) -> Result<bool, AllocError>
    ensures { IfOk result (λ all. values_of (words_of line.now) ≡ if_all all values.new.items) }
{
    values.clear();
    for word in line.split(|byte| *byte == b' ') {
        match value_of(word) {
            Some(value) => values.push(value)?,
            None => return Ok(false),
        }
    }
    Ok(true)
}

/// The line whose words stand for these values, or None where they are not of the form.
pub(crate) fn cut_line(values: &[Signed]) -> Option<CutLine<'_>>
    ensures { option_map written_of result ≡ written_in (Some values.now) }
{
    let (number, rest) = values.split_first()?;
    if number.minus {
        return None;
    }
    let (literals, behind) = cut_at_zero(rest)?;
    let (hints, surplus) = cut_at_zero(behind)?;
    if !surplus.is_empty() || !are_plain(hints) {
        return None;
    }
    Some(CutLine {
        number: number.size,
        literals,
        hints,
    })
}

// What stands before the first 0, and what stands behind it.
fn cut_at_zero(values: &[Signed]) -> Option<(&[Signed], &[Signed])>
    ensures { MatchOption result (has_zero values.now ≡ false)
        (λ cut. (has_zero values.now ≡ true) × (cut.0.now ≡ before_first is_zero values.now) × (cut.1.now ≡ after_first is_zero values.now)) }
{
    let zero = zero_at(values)?;
    Some((&values[..zero], &values[zero + 1..]))
}

// The place of the first 0.
fn zero_at(values: &[Signed]) -> Option<usize>
    ensures { MatchOption result (has_zero values.now ≡ false)
        (λ zero. (has_zero values.now ≡ true) × (zero ≡ position_or_len is_zero values.now)) }
{
    values.iter().position(|value| value.size == 0)
}

fn are_plain(values: &[Signed]) -> bool
    ensures { result ≡ list_all is_plain values.now }
{
    values.iter().all(|value| !value.minus)
}
