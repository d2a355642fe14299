//! How a command ends.

use super::says;
use io_base::{MemSink, OutOfMemory};
use replies::{Reply, Status, Stop, say, say_end};
use std::test::Fail;

#[test]
fn a_text_ends_with_its_status(rt: HostRuntime) {
    let mut out = MemSink::new(rt.alloc());
    assert!(rt; say(&mut out, Status::Done, b"done\n") == Status::Done);
    assert!(rt; out.bytes() == b"done\n".as_slice());
}

#[test]
fn a_reply_ends_with_its_status(rt: HostRuntime) -> Result<(), Fail> {
    let text = Vec::from_slice(rt.alloc(), b"spent\n")?;
    let reply = Reply {
        status: Status::Undecided,
        text,
    };
    let mut out = MemSink::new(rt.alloc());
    assert!(rt; say_end(&mut out, Ok(reply)) == Status::Undecided);
    assert!(rt; out.bytes() == b"spent\n".as_slice());
    Ok(())
}

#[test]
fn want_of_memory_is_told(rt: HostRuntime) {
    let stop = Stop::from(OutOfMemory);
    assert!(rt; says(rt.alloc(), stop, Status::NoMemory, b"no memory\n"));
}

#[test]
fn a_failed_write_ends_with_the_fault_of_the_sink(rt: HostRuntime) -> Result<(), Fail> {
    let mut out = MemSink::new(rt.alloc());
    out.fail(1)?;
    assert!(rt; say(&mut out, Status::Done, b"done\n") == Status::SinkFault);
    assert!(rt; out.bytes().is_empty());
    Ok(())
}
