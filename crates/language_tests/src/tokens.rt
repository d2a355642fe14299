//! Tables of lines, each with its tokens or its first faulty place, and the lines of a text.

use micro_lex::{LexFault, LineSpan, Token, TokenKind, next_line, tokens};
use std::alloc::Global;
use std::test::Fail;

/// What a token is, where it begins and where it ends.
type Place = (TokenKind, usize, usize);

/// A line and its tokens.
const LINES: [(&[u8], &[Place]); 9] = [
    (b"", &[]),
    (b" \t# \x00\xff @ 12ab", &[]),
    (
        b"slices 1#x",
        &[(TokenKind::Name, 0, 6), (TokenKind::Number(1), 7, 8)],
    ),
    (
        b"A:x|=-",
        &[
            (TokenKind::Name, 0, 1),
            (TokenKind::Colon, 1, 2),
            (TokenKind::Name, 2, 3),
            (TokenKind::Bar, 3, 4),
            (TokenKind::Equals, 4, 5),
            (TokenKind::Minus, 5, 6),
        ],
    ),
    (
        b"0x00fF 0x9a 007",
        &[
            (TokenKind::Number(255), 0, 6),
            (TokenKind::Number(154), 7, 11),
            (TokenKind::Number(7), 12, 15),
        ],
    ),
    (
        b"0000000000000000000000000000000000000005",
        &[(TokenKind::Number(5), 0, 40)],
    ),
    (
        b"340282366920938463463374607431768211455",
        &[(TokenKind::Number(u128::MAX), 0, 39)],
    ),
    (
        b"0xFFFFFFFFFFFFFFFFFFFFFFFFFFFFFFFF",
        &[(TokenKind::Number(u128::MAX), 0, 34)],
    ),
    (
        b"abcdefghijklmnopqrstuvwxyz_01234",
        &[(TokenKind::Name, 0, 32)],
    ),
];

// Whether a token is of this kind and stands between these places.
fn is_token(token: &Token, place: &Place) -> bool {
    token.kind == place.0 && token.start == place.1 && token.end == place.2
}

// Whether the tokens are those at these places.
fn are_tokens(found: &[Token], places: &[Place]) -> bool {
    found.len() == places.len()
        && found
            .iter()
            .zip(places)
            .all(|(token, place)| is_token(token, place))
}

// Whether these are the tokens of the line.
fn is_read(alloc: Global, line: &[u8], places: &[Place]) -> bool {
    if line.len() > 100 {
        return false;
    }
    match tokens(alloc, line) {
        Ok(found) => are_tokens(&found, places),
        Err(_) => false,
    }
}

#[test]
fn lines_give_their_tokens(rt: HostRuntime) {
    for (line, places) in &LINES {
        assert!(rt; is_read(rt.alloc(), line, places));
    }
}

/// A line and its first faulty place.
const FAULTS: [(&[u8], LexFault); 13] = [
    (b"a @ 1x", LexFault::BadByte(3)),
    (b"1 x\r", LexFault::BadByte(4)),
    (b"x\xff", LexFault::BadByte(2)),
    (b"1\xff", LexFault::BadByte(2)),
    (b"1a\xff", LexFault::BadNumber(1)),
    (b"a 12ab", LexFault::BadNumber(3)),
    (b"0x", LexFault::BadNumber(1)),
    (b"0X1", LexFault::BadNumber(1)),
    (b"- 1_0", LexFault::BadNumber(3)),
    (
        b"340282366920938463463374607431768211456",
        LexFault::NumberTooWide(1),
    ),
    (
        b" 1234567890123456789012345678901234567890",
        LexFault::NumberTooWide(2),
    ),
    (
        b"0x100000000000000000000000000000000",
        LexFault::NumberTooWide(1),
    ),
    (
        b"= abcdefghijklmnopqrstuvwxyz_012345",
        LexFault::NameTooLong(3),
    ),
];

// Whether the line is refused for this fault.
fn is_refused(alloc: Global, line: &[u8], fault: LexFault) -> bool {
    line.len() < 100 && tokens(alloc, line).err() == Some(fault)
}

#[test]
fn lines_give_their_first_fault(rt: HostRuntime) {
    for (line, fault) in &FAULTS {
        assert!(rt; is_refused(rt.alloc(), line, *fault), "{fault:?}");
    }
}

/// A text of four lines: CRs stand at ends of lines and elsewhere, and the last line has no LF.
const TEXT: &[u8] = b"a\r\n\n\r\rb\r\r\nc\r";

/// The lines of TEXT: where each begins, where it ends, and where the next begins.
const SPANS: [(usize, usize, usize); 4] = [(0, 1, 3), (3, 3, 4), (4, 8, 10), (10, 11, 12)];

// The line of TEXT that begins at this place, or none at its end.
fn line_at(at: usize) -> Option<LineSpan> {
    if at > TEXT.len() {
        return None;
    }
    next_line(TEXT, at)
}

#[test]
fn texts_are_cut_into_lines(rt: HostRuntime) {
    let mut at = 0;
    for (start, end, after) in &SPANS {
        let span = LineSpan {
            start: *start,
            end: *end,
            after: *after,
        };
        assert!(rt; line_at(at) == Some(span), "line at {at}");
        at = *after;
    }
    assert!(rt; at == TEXT.len() && line_at(at).is_none());
}
