//! Real files in the folder where the test runs, and standard output.

use super::{append_answers, creates, front_answers, gives, load_answers};
use io_base::{FileShelf, LoadFault, StdSink, put_all};
use std::fs;
use std::test::Fail;

const NAME: &str = "io_base_shelf_file";

#[test]
fn files_and_output_of_the_system(rt: HostRuntime) -> Result<(), Fail> {
    let _ = fs::remove_file(&rt, NAME);
    let mut shelf = FileShelf::new(&rt);
    assert!(rt; front_answers(&mut shelf, NAME, Ok(None)));
    assert!(rt; load_answers(rt.alloc(), &mut shelf, NAME, 8, Err(LoadFault::NoFile)));
    assert!(rt; creates(&mut shelf, NAME));
    assert!(rt; append_answers(&mut shelf, NAME, b"abc", Ok(())));
    assert!(rt; append_answers(&mut shelf, NAME, b"def", Ok(())));
    assert!(rt; load_answers(rt.alloc(), &mut shelf, NAME, 6, Ok(b"abcdef")));
    assert!(rt; load_answers(rt.alloc(), &mut shelf, NAME, 5, Err(LoadFault::TooLong)));
    assert!(rt; gives(&mut shelf, NAME, 2, 3, b"cde"));
    assert!(rt; creates(&mut shelf, NAME));
    assert!(rt; load_answers(rt.alloc(), &mut shelf, NAME, 6, Ok(b"")));
    fs::remove_file(&rt, NAME)?;
    let mut out = StdSink::new(&rt);
    assert!(rt; put_all(&mut out, b"standard output\n") == Ok(()));
    Ok(())
}
