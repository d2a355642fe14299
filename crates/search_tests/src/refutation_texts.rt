//! Printed lines, and texts that are read whole and in pieces. The expected answers were worked out on paper.

ghost use Rattle.std.specs.Prelude.{◌≡◌, false, OnOk};

use clause_base::{Clash, Entries, Entry, Line, Lit, Lits, Numbers};
use io_base::OutOfMemory;
use ref_text::{Event, LineReader, Why, print_clash, print_line};
use std::alloc::Global;
use std::test::Fail;

// The literals of these numbers.
fn lits(alloc: Global, values: &[i32]) -> Result<Lits, Fail> {
    let mut lits = Vec::new(alloc);
    for value in values {
        lits.push(Lit::new(*value).ok_or("no literal")?)?;
    }
    Ok(Lits::of(lits))
}

/// The number of a line, its literals, its hints and its text.
const LINES: [(u32, &[i32], &[u32], &[u8]); 3] = [
    (
        1434,
        &[],
        &[1286, 1319, 1367, 1146],
        b"1434 0 1286 1319 1367 1146 0\n",
    ),
    (2, &[-33, 84], &[1], b"2 -33 84 0 1 0\n"),
    (
        4294967295,
        &[2147483647],
        &[],
        b"4294967295 2147483647 0 0\n",
    ),
];

// Whether a line is printed as this text, behind what stands there.
fn is_printed(alloc: Global, number: u32, line: &Line, text: &[u8]) -> Result<bool, OutOfMemory> {
    let mut out = b"> ".to_vec(alloc)?;
    print_line(number, line, &mut out)?;
    Ok(out.strip_prefix(b"> ") == Some(text))
}

#[test]
fn lines_are_printed(rt: HostRuntime) -> Result<(), Fail> {
    for (number, values, hints, text) in &LINES {
        let line = Line {
            clause: lits(rt.alloc(), values)?,
            hints: Numbers::of(hints.to_vec(rt.alloc())?),
        };
        assert!(rt; is_printed(rt.alloc(), *number, &line, text)?);
    }
    Ok(())
}

#[test]
fn clashes_are_printed(rt: HostRuntime) -> Result<(), Fail> {
    let mut steps = Vec::new(rt.alloc());
    for (value, level, reason) in [(7, 1, 0), (-2, 1, 10), (3, 2, 0)] {
        let lit = Lit::new(value).ok_or("no literal")?;
        steps.push(Entry { lit, level, reason })?;
    }
    let clash = Clash {
        steps: Entries::of(steps),
        clause: 12,
    };
    let mut out = Vec::new(rt.alloc());
    print_clash(&clash, &mut out)?;
    assert!(rt; out.as_slice() == b"d 7\ni -2 10\nd 3\nx 12\n".as_slice());
    Ok(())
}

// How many lines are read from a text that comes in pieces of so many bytes, and what is told last. The list has
// 103 variables and 1,433 clauses.
fn reading(alloc: Global, text: &[u8], size: usize) -> Result<(u32, Event), Fail> {
    let mut reader = LineReader::new(alloc, 1434, 103)?;
    let mut lines = 0u32;
    'pieces: for piece in text.chunks(size.max(1)) {
        let mut at = 0;
        'feeds: for _ in 0..=piece.len() {
            let rest = piece.get(at..).ok_or("more bytes used than there are")?;
            let fed = reader.feed(rest)?;
            at = at.saturating_add(fed.used);
            match fed.event {
                Event::More => break,
                Event::Line => lines = lines.saturating_add(1),
                told => return Ok((lines, told)),
            }
        }
    }
    Ok((lines, reader.finish().event))
}

/// A text, how many lines are read from it, and what is told last.
const TEXTS: [(&[u8], u32, Event); 29] = [
    (b"", 0, Event::End),
    (b"1434 0 1286 1319 1367 1146 0\n", 1, Event::End),
    (b"1434 83 -1 0 1286 1319 0\n1435 0 1434 0\n", 2, Event::End),
    (b"1434 0 1286 0", 0, Event::Bad(1, Why::Text)),
    (b"1434 0 1286 0\r\n", 0, Event::Bad(1, Why::Text)),
    (b"1434  0 1286 0\n", 0, Event::Bad(1, Why::Text)),
    (b"1434 0 1286 0 \n", 0, Event::Bad(1, Why::Text)),
    (b" 1434 0 1286 0\n", 0, Event::Bad(1, Why::Text)),
    (b"1434\t0 1286 0\n", 0, Event::Bad(1, Why::Text)),
    (b"\n", 0, Event::Bad(1, Why::Text)),
    (b"1434 0 01286 0\n", 0, Event::Bad(1, Why::Text)),
    (b"1434 -0 1286 0\n", 0, Event::Bad(1, Why::Text)),
    (b"1434 --5 0 1286 0\n", 0, Event::Bad(1, Why::Text)),
    (b"1434 - 0 1286 0\n", 0, Event::Bad(1, Why::Text)),
    (b"-1434 0 1286 0\n", 0, Event::Bad(1, Why::Text)),
    (b"1434 0 -1286 0\n", 0, Event::Bad(1, Why::Text)),
    (b"1434 0 1286\n", 0, Event::Bad(1, Why::Text)),
    (b"1434 0 1286 0 0\n", 0, Event::Bad(1, Why::Text)),
    (b"# 1434 0 1286 0\n", 0, Event::Bad(1, Why::Text)),
    (b"1434 0 4294967296 0\n", 0, Event::Bad(1, Why::Text)),
    (
        b"1434 0 18446744073709552762 0\n",
        0,
        Event::Bad(1, Why::Text),
    ),
    (b"1434 0 4294967295 0\n", 0, Event::Bad(1, Why::Hint)),
    (b"0 0 1286 0\n", 0, Event::Bad(1, Why::Number)),
    (b"1433 104 0 1286 0\n", 0, Event::Bad(1, Why::Number)),
    (b"1434 104 0 0\n", 0, Event::Bad(1, Why::Literal)),
    (b"1434 5 -5 0 1286 0\n", 0, Event::Bad(1, Why::Literal)),
    (b"1434 0 0\n", 0, Event::Bad(1, Why::Hint)),
    (
        b"1434 5 0 1286 0\n1435 5 0 1435 0\n",
        1,
        Event::Bad(2, Why::Hint),
    ),
    (b"1434 0 1286 0\n7 104 0 0\n", 1, Event::Bad(2, Why::After)),
];

#[test]
fn texts_are_read_in_pieces(rt: HostRuntime) -> Result<(), Fail> {
    for (text, lines, told) in &TEXTS {
        for size in &[1, 2, 3, 7, 64] {
            let (count, last) = reading(rt.alloc(), text, *size)?;
            assert!(rt; count == *lines && last == *told);
        }
    }
    Ok(())
}

// Whether feeding this text uses so many bytes, and tells this.
fn feeds(
    reader: &mut LineReader,
    text: &[u8],
    used: usize,
    event: Event,
) -> Result<bool, OutOfMemory>
    ensures { OnOk result (reader.new.failed ≡ false) }
{
    let fed = reader.feed(text)?;
    Ok(fed.used == used && fed.event == event)
}

#[test]
fn the_line_that_was_read_is_given(rt: HostRuntime) -> Result<(), Fail> {
    let mut reader = LineReader::new(rt.alloc(), 1434, 103)?;
    let text = b"1434 83 -1 0 1286 1319 0\n1435";
    assert!(rt; feeds(&mut reader, text, 25, Event::Line)?);
    assert!(rt; reader.clause() == lits(rt.alloc(), &[83, -1])?.as_slice());
    assert!(rt; reader.hints() == [1286, 1319].as_slice());
    Ok(())
}

#[test]
fn a_refused_line_is_told_again(rt: HostRuntime) -> Result<(), Fail> {
    let mut reader = LineReader::new(rt.alloc(), 1434, 103)?;
    let refused = Event::Bad(1, Why::Number);
    let text = b"1 0 1 0\n1434 0 1286 0\n";
    assert!(rt; feeds(&mut reader, text, 8, refused)?);
    assert!(rt; feeds(&mut reader, b"1434 0 1286 0\n", 0, refused)?);
    assert!(rt; reader.finish().event == refused);
    Ok(())
}
