//! A reply: a status with its text, made in memory before anything is written.
ghost use Rattle.std.specs.Prelude.{◌≡◌, IfOk};
ghost use Rattle.replies.specs.Texts.{refused, line_reason, cannot_read, Refuses, Unread};
ghost use Rattle.replies.specs.Ending.{StopsBy};
ghost use Rattle.replies.specs.declared.reply.Stop.TheVariants as stops;

use crate::status::Status;
use io_base::OutOfMemory;
use itoa::Buffer;
use std::alloc::Global;

/// A status with its text.
#[derive(Drop)]
pub struct Reply {
    /// How the program is to end.
    pub status: Status,
    /// The text to write.
    pub text: Vec<u8>,
}

/// Why a step gives nothing.
#[derive(Drop)]
pub enum Stop {
    /// A reply, which ends the command.
    Reply(Reply),
    /// Memory was refused.
    OutOfMemory,
}

impl From<OutOfMemory> for Stop {
    ghost from_gives = { λ _ stop. stop ≡ stops.OutOfMemory };

    fn from(_refusal: OutOfMemory) -> Stop {
        Stop::OutOfMemory
    }
}

// The text that refuses a file.
fn refused_text(alloc: Global, name: &str, why: &[u8]) -> Result<Vec<u8>, OutOfMemory>
    ensures { IfOk result (λ text. text.items ≡ refused name.now why.now) }
{
    let mut text = Vec::from_slice(alloc, b"refused ")?;
    text.extend_from_slice(name.as_bytes())?;
    text.extend_from_slice(b" ")?;
    text.extend_from_slice(why)?;
    text.extend_from_slice(b"\n")?;
    Ok(text)
}

// What is wrong in a line.
fn line_reason(alloc: Global, line: u32, kind: &[u8]) -> Result<Vec<u8>, OutOfMemory>
    ensures { IfOk result (λ why. why.items ≡ line_reason line kind.now) }
{
    let mut why = Vec::from_slice(alloc, b"line ")?;
    why.extend_from_slice(Buffer::new().format(line).as_bytes())?;
    why.extend_from_slice(b" ")?;
    why.extend_from_slice(kind)?;
    Ok(why)
}

// The text that a file was not read.
fn unread_text(alloc: Global, name: &str) -> Result<Vec<u8>, OutOfMemory>
    ensures { IfOk result (λ text. text.items ≡ cannot_read name.now) }
{
    let mut text = Vec::from_slice(alloc, b"cannot read ")?;
    text.extend_from_slice(name.as_bytes())?;
    text.extend_from_slice(b"\n")?;
    Ok(text)
}

/// Refuses a file for a reason: `refused NAME WHY`.
pub fn refuse(alloc: Global, name: &str, why: &[u8]) -> Stop
    ensures { StopsBy (Refuses name.now why.now) result }
{
    match refused_text(alloc, name, why) {
        Ok(text) => Stop::Reply(Reply {
            status: Status::Input,
            text,
        }),
        Err(OutOfMemory) => Stop::OutOfMemory,
    }
}

/// Refuses a file for what is wrong in one of its lines, told by the name of its kind: `refused NAME line LINE KIND`.
pub fn refuse_line(alloc: Global, name: &str, line: u32, kind: &[u8]) -> Stop
    ensures { StopsBy (Refuses name.now (line_reason line kind.now)) result }
{
    match line_reason(alloc, line, kind) {
        Ok(why) => refuse(alloc, name, &why),
        Err(OutOfMemory) => Stop::OutOfMemory,
    }
}

/// Tells that a file could not be read: `cannot read NAME`.
pub fn tell_unread(alloc: Global, name: &str) -> Stop
    ensures { StopsBy (Unread name.now) result }
{
    match unread_text(alloc, name) {
        Ok(text) => Stop::Reply(Reply {
            status: Status::ShelfFault,
            text,
        }),
        Err(OutOfMemory) => Stop::OutOfMemory,
    }
}
