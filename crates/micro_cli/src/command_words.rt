//! The words of the command line, read as a command.
ghost use Rattle.std.specs.Prelude.{◌≡◌, ◌≤◌, map, length, string_bytes, IsTrue, IfSome};
ghost use Rattle.micro_cli.specs.Command.{are_file_names, check_command, command_of, is_file_name, is_printable, clocks_in, conflicts_in, make_by, map_command, trace_by, trace_command};
ghost use Rattle.micro_cli.specs.Request.{request_view, IsInRange};

use crate::numbers::number_after;
use io_base::GIVEN_NAME_LIMIT;

/// The most clocks that may be asked for. This project's own choice, as the next one.
pub const CLOCK_LIMIT: u64 = 65_536;

/// The most conflicts that a search may be given.
pub const CONFLICT_LIMIT: u64 = 1_000_000;

/// What the words ask for. The names of files have 1 to 200 printable bytes; there are at most 65,536 clocks and at
/// most 1,000,000 conflicts (this project's own choice).
#[derive(Clone, Copy)]
pub enum Request<'a> {
    /// `map SRC`
    Map {
        /// The name of the source.
        src: &'a str,
    },
    /// `flow SRC SCRIPT clocks=N`
    Flow {
        /// The name of the source.
        src: &'a str,
        /// The name of the script.
        script: &'a str,
        /// How many clocks are followed.
        clocks: u32,
    },
    /// `run OUT SCRIPT clocks=N`
    Run {
        /// The name under which images are saved.
        out: &'a str,
        /// The name of the script.
        script: &'a str,
        /// How many clocks are run.
        clocks: u32,
    },
    /// `make SRC SCRIPT OUT clocks=N conflicts=B`
    Make {
        /// The name of the source.
        src: &'a str,
        /// The name of the script.
        script: &'a str,
        /// The name under which the answer is saved.
        out: &'a str,
        /// How many clocks are run.
        clocks: u32,
        /// How many conflicts the search may learn from.
        conflicts: u32,
    },
    /// `check SRC REF`
    Check {
        /// The name of the source.
        src: &'a str,
        /// The name of the refutation.
        refutation: &'a str,
    },
    /// The words are no command.
    Unknown,
}

fn is_printable(bytes: &[u8]) -> bool
    ensures { result ≡ is_printable bytes.now }
{
    bytes.iter().all(|b| matches!(b, 0x21..=0x7e))
}

// Whether a word may be the name of a file: 1 to 200 printable bytes.
fn is_file_name(word: &str) -> bool
    ensures told { result ≡ is_file_name word.now }
    ensures short { IsTrue result → length word.now ≤ GIVEN_NAME_LIMIT }
{
    let printable = is_printable(word.as_bytes());
    !word.is_empty() && word.len() <= GIVEN_NAME_LIMIT && printable
}

// The clocks of a word `clocks=N`.
fn clocks_in(word: &str) -> Option<u32>
    ensures { result ≡ clocks_in word.now }
{
    match number_after("clocks=", CLOCK_LIMIT, word) {
        Some(clocks) => Some(clocks as u32),
        None => None,
    }
}

// The request of a trace, where the number of clocks is given.
fn trace_request<'a>(word: &str, file: &'a str, script: &'a str, clocks: u32) -> Request<'a>
    requires file_short { length file.now ≤ GIVEN_NAME_LIMIT }
    requires script_short { length script.now ≤ GIVEN_NAME_LIMIT }
    ensures command { request_view result ≡ trace_command word.now file.now script.now clocks }
    ensures in_range { IsInRange result }
{
    match word {
        "flow" => Request::Flow {
            src: file,
            script,
            clocks,
        },
        "run" => Request::Run {
            out: file,
            script,
            clocks,
        },
        _ => Request::Unknown,
    }
}

// The request of four words.
fn four_words<'a>(word: &str, file: &'a str, script: &'a str, last: &str) -> Request<'a>
    ensures command { request_view result ≡ trace_by word.now file.now script.now (clocks_in last.now) }
    ensures in_range { IsInRange result }
{
    let named = is_file_name(file) && is_file_name(script);
    match clocks_in(last) {
        Some(clocks) if named => trace_request(word, file, script, clocks),
        _ => Request::Unknown,
    }
}

// The conflicts of a word `conflicts=B`.
fn conflicts_in(word: &str) -> Option<u32>
    ensures value { result ≡ conflicts_in word.now }
    ensures few { IfSome result (λ conflicts. conflicts ≤ CONFLICT_LIMIT) }
{
    match number_after("conflicts=", CONFLICT_LIMIT, word) {
        Some(conflicts) => Some(conflicts as u32),
        None => None,
    }
}

fn are_file_names(src: &str, script: &str, out: &str) -> bool
    ensures told { result ≡ are_file_names src.now script.now out.now }
    ensures short { IsTrue result → (length src.now ≤ GIVEN_NAME_LIMIT) × (length script.now ≤ GIVEN_NAME_LIMIT) × (length out.now ≤ GIVEN_NAME_LIMIT) }
{
    is_file_name(src) && is_file_name(script) && is_file_name(out)
}

// The request of a `make`, where the numbers are given.
fn make_request<'a>(
    word: &str,
    src: &'a str,
    script: &'a str,
    out: &'a str,
    clocks: Option<u32>,
    conflicts: Option<u32>,
) -> Request<'a>
    requires few { IfSome conflicts (λ some. some ≤ CONFLICT_LIMIT) }
    ensures command { request_view result ≡ make_by word.now src.now script.now out.now clocks conflicts }
    ensures in_range { IsInRange result }
{
    let Some(clocks) = clocks else {
        return Request::Unknown;
    };
    let Some(conflicts) = conflicts else {
        return Request::Unknown;
    };
    if word == "make" && are_file_names(src, script, out) {
        Request::Make {
            src,
            script,
            out,
            clocks,
            conflicts,
        }
    } else {
        Request::Unknown
    }
}

// The request of two words.
fn two_words<'a>(word: &str, src: &'a str) -> Request<'a>
    ensures command { request_view result ≡ map_command word.now src.now }
    ensures in_range { IsInRange result }
{
    if word == "map" && is_file_name(src) {
        Request::Map { src }
    } else {
        Request::Unknown
    }
}

// The request of three words.
fn three_words<'a>(word: &str, src: &'a str, refutation: &'a str) -> Request<'a>
    ensures command { request_view result ≡ check_command word.now src.now refutation.now }
    ensures in_range { IsInRange result }
{
    if word == "check" && is_file_name(src) && is_file_name(refutation) {
        Request::Check { src, refutation }
    } else {
        Request::Unknown
    }
}

/// The request of these words, of which the first is the command.
pub fn request_of(words: &[String]) -> Request<'_>
    ensures command { request_view result ≡ command_of (map string_bytes words.now) }
    ensures in_range { IsInRange result }
{
    match words.len() {
        2 => two_words(words[0].as_str(), words[1].as_str()),
        3 => three_words(words[0].as_str(), words[1].as_str(), words[2].as_str()),
        4 => four_words(
            words[0].as_str(),
            words[1].as_str(),
            words[2].as_str(),
            words[3].as_str(),
        ),
        6 => make_request(
            words[0].as_str(),
            words[1].as_str(),
            words[2].as_str(),
            words[3].as_str(),
            clocks_in(words[4].as_str()),
            conflicts_in(words[5].as_str()),
        ),
        _ => Request::Unknown,
    }
}
