//! The step that reads a script.

use super::{says, shelf_with};
use bus_script::at;
use io_base::OutOfMemory;
use replies::{Status, load_script, script_from};
use std::alloc::Global;
use std::test::Fail;

/// A script for one slice, and the text that refuses it as `t`.
type Row = (&'static [u8], &'static [u8]);

/// One row for each reason.
const REFUSALS: [Row; 11] = [
    (b"clk\n\x80", b"refused t line 2 BadByte col 1\n"),
    (b"clk i=1x", b"refused t line 1 BadNumber col 7\n"),
    (
        b"clk i=340282366920938463463374607431768211456",
        b"refused t line 1 NumberTooWide col 7\n",
    ),
    (
        b"clk abcdefghijklmnopqrstuvwxyz_012345=1",
        b"refused t line 1 NameTooLong col 5\n",
    ),
    (b"step 1", b"refused t line 1 Word\n"),
    (b"clk i", b"refused t line 1 Shape\n"),
    (b"clk px=16", b"refused t line 1 Value\n"),
    // One slice has two bits.
    (b"clk i=4", b"refused t line 1 Value\n"),
    (b"clk i=1 i=2", b"refused t line 1 Twice\n"),
    (b"clk q=1", b"refused t line 1 Key\n"),
    (b"\nclk i=@", b"refused t line 2 BadByte col 7\n"),
];

// Whether the bytes of a script for one slice are refused with this text.
fn is_refused(alloc: Global, bytes: &[u8], text: &[u8]) -> bool {
    if bytes.len() > 100_000 {
        return false;
    }
    match script_from(alloc, "t", bytes, 1) {
        Ok(_) => false,
        Err(stop) => says(alloc, stop, Status::Input, text),
    }
}

#[test]
fn each_refusal_is_told_at_its_line(rt: HostRuntime) {
    for (bytes, text) in &REFUSALS {
        assert!(rt; is_refused(rt.alloc(), bytes, text), "{text:?}");
    }
}

#[test]
fn a_script_has_at_most_65536_lines(rt: HostRuntime) -> Result<(), Fail> {
    let lines = vec![in rt.alloc(); b'\n'; 65_537]?;
    assert!(rt; is_refused(rt.alloc(), &lines, b"refused t line 65537 Lines\n"));
    Ok(())
}

// What `sx` is in the second clock of a script that is loaded for sixteen slices.
fn second_sx(alloc: Global, bytes: &[u8]) -> Result<Option<u8>, OutOfMemory> {
    let mut shelf = shelf_with(alloc, "t", bytes)?;
    Ok(match load_script(alloc, &mut shelf, "t", 16) {
        Ok(script) => Some(at(&script, 1).sx),
        Err(_) => None,
    })
}

#[test]
fn a_script_is_loaded(rt: HostRuntime) -> Result<(), Fail> {
    assert!(rt; second_sx(rt.alloc(), b"clk\nclk sx=9\n")? == Some(9));
    Ok(())
}
