//! The trace line of a clock.

ghost use Rattle.std.specs.Prelude.{◌≡◌, ◌+◌, ◌*◌, ◌/◌, ◌<◌, ◌≤◌, ◌++◌, length, decimal, codes};
ghost use Rattle.std.specs.List.{flat_map, join_by};
ghost use Rattle.bus_script.specs.TraceLine.{word_text, place_text, registers_text, shown_text, control_text, fields_text, fields_and_links_text, trace_line};

use crate::clock_view::ClockView;
use crate::digits::{LINE_BYTES, add_decimal, add_hex, add_links, add_text, bit_digit, hex_digit};
use arrayvec::ArrayVec;
use slice_array::Regs;

// Adds the clock's number and the place.
fn add_place(line: &mut ArrayVec<u8, LINE_BYTES>, place: &[u8], clock: u32)
    requires { length line.old.items + length place.now + 11 ≤ 2048 }
    ensures text { line.new.items ≡ line.old.items ++ place_text place.now clock }
    ensures len { length line.new.items ≤ length line.old.items + length place.now + 11 }
{
    add_decimal(line, clock);
    add_text(line, b" ");
    add_text(line, place);
}

// Adds a word of an array of two bits a slice, in hexadecimal: a digit for each two slices, rounded up.
fn add_word(line: &mut ArrayVec<u8, LINE_BYTES>, slices: u8, word: u32)
    requires most { slices ≤ 16 }
    requires room { length line.old.items + 8 ≤ 2048 }
    ensures text { line.new.items ≡ line.old.items ++ word_text slices word }
    ensures len { length line.new.items ≤ length line.old.items + 8 }
{
    add_hex(line, (slices as u32 + 1) / 2, word);
}

// Adds words of an array, each with a comma before it.
fn add_more_words(line: &mut ArrayVec<u8, LINE_BYTES>, slices: u8, words: &[u32])
    requires most { slices ≤ 16 }
    requires room { length line.old.items + 9 * length words.now ≤ 2048 }
    ensures text { line.new.items ≡ line.old.items ++ flat_map (λ word. codes "," ++ word_text slices word) words.now }
    ensures len { length line.new.items ≤ length line.old.items + 9 * length words.now }
{
    for word in words {
        add_text(line, b",");
        add_word(line, slices, *word);
    }
}

// Adds words of an array, with a comma between each two.
fn add_words(line: &mut ArrayVec<u8, LINE_BYTES>, slices: u8, words: &[u32])
    requires most { slices ≤ 16 }
    requires room { length line.old.items + 9 * length words.now ≤ 2048 }
    ensures text { line.new.items ≡ line.old.items ++ join_by (word_text slices) (codes ",") words.now }
    ensures len { length line.new.items ≤ length line.old.items + 9 * length words.now }
{
    if let [first, more @ ..] = words {
        add_word(line, slices, *first);
        add_more_words(line, slices, more);
    }
}

// Adds the registers: A is MAR, D is AC, then T and R0 to R9.
fn add_registers(line: &mut ArrayVec<u8, LINE_BYTES>, slices: u8, regs: &Regs)
    requires most { slices ≤ 16 }
    requires room { length line.old.items + 126 ≤ 2048 }
    ensures text { line.new.items ≡ line.old.items ++ registers_text slices regs.now }
    ensures len { length line.new.items ≤ length line.old.items + 126 }
{
    add_text(line, b" A=");
    add_word(line, slices, regs.mar);
    add_text(line, b" D=");
    add_word(line, slices, regs.ac);
    add_text(line, b" T=");
    add_word(line, slices, regs.t);
    add_text(line, b" R=");
    add_words(line, slices, &regs.r);
}

// Adds what the PR outputs show, or `-` where they show nothing.
fn add_shown(line: &mut ArrayVec<u8, LINE_BYTES>, shown: Option<u8>)
    requires { length line.old.items + 10 ≤ 2048 }
    ensures text { line.new.items ≡ line.old.items ++ shown_text shown }
    ensures len { length line.new.items ≤ length line.old.items + 10 }
{
    match shown {
        Some(shown) => add_decimal(line, shown as u32),
        None => add_text(line, b"-"),
    }
}

// Adds the flags, the PR latch, its outputs, and the interrupt strobe.
fn add_control(line: &mut ArrayVec<u8, LINE_BYTES>, view: &ClockView)
    requires latch { view.now.pr < 16 }
    requires room { length line.old.items + 27 ≤ 2048 }
    ensures text { line.new.items ≡ line.old.items ++ control_text view.now }
    ensures len { length line.new.items ≤ length line.old.items + 27 }
{
    add_text(line, b" C=");
    add_text(
        line,
        &[bit_digit(view.f), bit_digit(view.c), bit_digit(view.z)],
    );
    add_text(line, b" L=");
    add_text(line, &[hex_digit(view.pr)]);
    add_text(line, b" P=");
    add_shown(line, view.pr_out);
    add_text(line, b" S=");
    add_text(line, &[bit_digit(view.ise)]);
}

// Adds numbers in decimal, each with a comma before it.
fn add_more_values(line: &mut ArrayVec<u8, LINE_BYTES>, values: &[u32])
    requires { length line.old.items + 11 * length values.now ≤ 2048 }
    ensures text { line.new.items ≡ line.old.items ++ flat_map (λ value. codes "," ++ decimal value) values.now }
    ensures len { length line.new.items ≤ length line.old.items + 11 * length values.now }
{
    for value in values {
        add_text(line, b",");
        add_decimal(line, *value);
    }
}

// Adds the user fields, or `-` where there is none.
fn add_fields(line: &mut ArrayVec<u8, LINE_BYTES>, values: &[u32])
    requires few { length values.now ≤ 80 }
    requires room { length line.old.items + 880 ≤ 2048 }
    ensures text { line.new.items ≡ line.old.items ++ fields_text values.now }
    ensures len { length line.new.items ≤ length line.old.items + 880 }
{
    match values {
        [] => add_text(line, b"-"),
        [first, more @ ..] => {
            add_decimal(line, *first);
            add_more_values(line, more);
        }
    }
}

// Adds the user fields, and the links of the clock.
fn add_fields_and_links(line: &mut ArrayVec<u8, LINE_BYTES>, slices: u8, values: &[u32], links: u32)
    requires most { slices ≤ 16 }
    requires few { length values.now ≤ 80 }
    requires room { length line.old.items + 902 ≤ 2048 }
    ensures text { line.new.items ≡ line.old.items ++ fields_and_links_text slices values.now links }
    ensures len { length line.new.items ≤ length line.old.items + 902 }
{
    add_text(line, b" U=");
    add_fields(line, values);
    add_text(line, b" Y=");
    add_links(line, slices as u32, links);
}

/// Replaces the bytes of `out` by the trace line of a clock at a place, for an array of this many
/// slices.
///
/// The place is `row.column` on the chip, and a label's name or `-` in the symbolic flow. Words have
/// `(slices + 1) / 2` hexadecimal digits, the links begin with the highest slice, and the line ends with LF.
#[tactic(auto, unfolding(crate::specs::TraceLine::trace_line))]
pub fn view_line(place: &[u8], view: &ClockView, slices: u8, out: &mut ArrayVec<u8, 2048>)
    requires place { length place.now ≤ 32 }
    requires most { slices ≤ 16 }
    requires latch { view.now.pr < 16 }
    ensures { out.new.items ≡ trace_line place.now view.now slices }
{
    out.clear();
    add_place(out, place, view.clock);
    add_registers(out, slices, &view.regs);
    add_control(out, view);
    add_fields_and_links(out, slices, view.values.as_slice(), view.links);
    add_text(out, b"\n");
}
