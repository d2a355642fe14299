//! A source at its limit of bytes, and past it.

use super::{answers, shelf_with};
use io_base::OutOfMemory;
use replies::Status;
use std::alloc::Global;
use std::test::Fail;

// A comment of so many bytes.
fn comment(alloc: Global, length: usize) -> Result<Vec<u8>, OutOfMemory> {
    let mut text = Vec::from_slice(alloc, b"#")?;
    for _ in 1..length {
        text.push(b'-')?;
    }
    Ok(text)
}

// Whether the map of a comment of so many bytes is refused with this text.
fn refuses_comment(alloc: Global, length: usize, text: &[u8]) -> Result<bool, OutOfMemory> {
    let mut shelf = shelf_with(alloc, &comment(alloc, length)?)?;
    answers(alloc, &mut shelf, &["map", "s"], Status::Input, text)
}

#[test]
fn a_source_of_one_byte_too_many_is_refused(rt: HostRuntime) -> Result<(), Fail> {
    assert!(rt; refuses_comment(rt.alloc(), 1_048_576, b"refused s line 0 Empty\n")?);
    assert!(rt; refuses_comment(rt.alloc(), 1_048_577, b"refused s TooLong\n")?);
    Ok(())
}
