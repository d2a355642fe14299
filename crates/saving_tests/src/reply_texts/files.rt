//! The step that loads a file.

use super::shelf_with;
use io_base::OutOfMemory;
use replies::load_file;
use std::alloc::Global;
use std::test::Fail;

// Whether a file of five bytes is loaded whole under this limit.
fn is_loaded(alloc: Global, limit: u64) -> Result<bool, OutOfMemory> {
    let mut shelf = shelf_with(alloc, "f", b"12345")?;
    Ok(match load_file(alloc, &mut shelf, "f", limit) {
        Ok(bytes) => bytes.as_slice() == b"12345".as_slice(),
        Err(_) => false,
    })
}

#[test]
fn a_file_has_at_most_the_limit(rt: HostRuntime) -> Result<(), Fail> {
    assert!(rt; is_loaded(rt.alloc(), 5)?);
    assert!(rt; !is_loaded(rt.alloc(), 4)?);
    Ok(())
}
