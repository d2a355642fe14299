//! How the checker's answers are told.
ghost use Rattle.std.specs.Prelude.{◌≡◌, IfOk};
ghost use Rattle.micro_cli.specs.CheckerText.{why_name, counted_text, rejected_text, answer_status, answer_text};

use io_base::OutOfMemory;
use itoa::Buffer;
use ref_text::Why;
use refute_check::Checked;
use replies::Status;
use std::alloc::Global;

// The name of what is wrong with a line.
fn why_name(why: Why) -> &'static [u8]
    ensures { result.now ≡ why_name why }
{
    match why {
        Why::Text => b"Text",
        Why::After => b"After",
        Why::Number => b"Number",
        Why::Literal => b"Literal",
        Why::Hint => b"Hint",
        Why::NotUnit => b"NotUnit",
        Why::NotFalse => b"NotFalse",
    }
}

/// The status of an answer.
pub(crate) fn answer_status(answer: Checked) -> Status
    ensures { result ≡ answer_status answer }
{
    match answer {
        Checked::Refutes(_) => Status::Done,
        Checked::Rejected(_, _) => Status::CheckNo,
        Checked::Derived(_) => Status::CheckNo,
    }
}

/// The text of an answer.
pub(crate) fn answer_text(alloc: Global, answer: Checked) -> Result<Vec<u8>, OutOfMemory>
    ensures { IfOk result (λ text. text.items ≡ answer_text answer) }
{
    match answer {
        Checked::Refutes(count) => counted_text(alloc, b"refutes ", count),
        Checked::Derived(count) => counted_text(alloc, b"derived ", count),
        Checked::Rejected(line, why) => rejected_text(alloc, line, why),
    }
}

// How many lines were read.
fn counted_text(alloc: Global, word: &[u8], count: u64) -> Result<Vec<u8>, OutOfMemory>
    ensures { IfOk result (λ text. text.items ≡ counted_text word.now count) }
{
    let mut text = Vec::from_slice(alloc, word)?;
    text.extend_from_slice(Buffer::new().format(count).as_bytes())?;
    text.extend_from_slice(b"\n")?;
    Ok(text)
}

// The first line that is refused, and why.
fn rejected_text(alloc: Global, line: u64, why: Why) -> Result<Vec<u8>, OutOfMemory>
    ensures { IfOk result (λ text. text.items ≡ rejected_text line why) }
{
    let mut text = Vec::from_slice(alloc, b"rejected line ")?;
    text.extend_from_slice(Buffer::new().format(line).as_bytes())?;
    text.extend_from_slice(b" ")?;
    text.extend_from_slice(why_name(why))?;
    text.extend_from_slice(b"\n")?;
    Ok(text)
}
