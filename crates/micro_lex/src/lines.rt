//! The lines of a text, one after the other.

ghost use Rattle.std.specs.Prelude.{◌≡◌, ◌≤◌, ◌+◌, ◌-◌, ◌↔◌, length, take, drop, IfSome, IsNone};
ghost use Rattle.std.specs.List.{prefix_len};
ghost use Rattle.micro_lex.specs.Lines.{without_cr, is_not_lf};
ghost use Rattle.micro_lex.specs.LineSpans.{IsLineAt};

/// A line of a text: its bytes from `start` up to, and not with, that at `end`.
#[derive(Clone, Copy, Debug, PartialEq, Eq)]
pub struct LineSpan {
    /// Byte place of its first byte, from 0.
    pub start: usize,
    /// Behind its last byte, without LF and a dropped CR.
    pub end: usize,
    /// Where the next line begins.
    pub after: usize,
}

/// The line that begins at this place, or None at the text's end.
///
/// `at` is a byte place where a line begins. A line ends at its LF, and the last one at the text's end
/// too. One CR at its end is dropped.
pub fn next_line(bytes: &[u8], at: usize) -> Option<LineSpan>
    requires { at ≤ length bytes.now }
    ensures none { IsNone result ↔ (at ≡ length bytes.now) }
    ensures some { IfSome result (IsLineAt bytes.now at) }
{
    if at == bytes.len() {
        return None;
    }
    let stop = piece_end(bytes, at);
    let end = kept_end(bytes, at, stop);
    let after = (stop + 1).min(bytes.len());
    Some(LineSpan {
        start: at,
        end,
        after,
    })
}

// Where the piece that begins at this place ends.
fn piece_end(bytes: &[u8], start: usize) -> usize
    requires { start ≤ length bytes.now }
    ensures end { result ≡ start + prefix_len is_not_lf (drop start bytes.now) }
    ensures within { result ≤ length bytes.now }
{
    start + piece_len(&bytes[start..])
}

// How many bytes stand before the first LF.
fn piece_len(bytes: &[u8]) -> usize
    ensures len { result ≡ prefix_len is_not_lf bytes.now }
    ensures within { result ≤ length bytes.now }
{
    bytes.iter().take_while(|byte| **byte != b'\n').count()
}

// Where the piece between these places ends without a CR at its end.
fn kept_end(bytes: &[u8], start: usize, stop: usize) -> usize
    requires ordered { start ≤ stop }
    requires within { stop ≤ length bytes.now }
    ensures kept { take (result - start) (drop start bytes.now) ≡ without_cr (take (stop - start) (drop start bytes.now)) }
    ensures from { start ≤ result }
    ensures to { result ≤ stop }
{
    if stop > start && bytes[stop - 1] == b'\r' {
        stop - 1
    } else {
        stop
    }
}
