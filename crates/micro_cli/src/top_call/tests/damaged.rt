//! Saved files, scripts and refutations that were damaged, and how `run` and `check` refuse them.

use super::{answers, end_of, shelf_with_script};
use io_base::{MemShelf, MemSink, OutOfMemory};
use replies::Status;
use std::alloc::Global;
use std::test::Fail;

/// What became of a file.
enum Damage {
    /// So many bytes of it are left.
    Cut(usize),
    /// The byte at a place is another.
    Byte(usize, u8),
    /// It stands twice.
    Twice,
    /// It is this text, so many times.
    Repeated(&'static [u8], usize),
    /// It is not there.
    Lost,
}

/// A file, its damage, the status, and the text.
type Row = (&'static str, Damage, Status, &'static [u8]);

/// A loop of one instruction in PROMs of four bits: each image has 512 lines of seven bytes.
const LOOP: &[u8] = b"slices 1\nstart A\npin A 0 0\nA: NOP R0 | goto A\n";

/// What its run prints for one clock.
const RUN: &[u8] = b"0 0.0 A=0 D=0 T=0 R=0,0,0,0,0,0,0,0,0,0 C=000 L=0 P=- S=0 U=- Y=0\n";

/// A test that would have to lead to one cell from both outcomes.
const ONE_LABEL_TWICE: &[u8] = b"slices 1\nstart A\nA: NOP R0 | iff B B\nB: NOP R0 | goto B\n";

/// What `run o t clocks=1` answers.
const SAVED: [Row; 29] = [
    ("o.p0.bpnf", Damage::Cut(3583), Status::Done, RUN),
    (
        "o.p0.bpnf",
        Damage::Cut(3582),
        Status::Input,
        b"refused o.p0.bpnf byte 3577 CutWord\n",
    ),
    (
        "o.p0.bpnf",
        Damage::Cut(3581),
        Status::Input,
        b"refused o.p0.bpnf byte 3577 CutWord\n",
    ),
    (
        "o.p0.bpnf",
        Damage::Cut(3580),
        Status::Input,
        b"refused o.p0.bpnf byte 3577 CutWord\n",
    ),
    (
        "o.p0.bpnf",
        Damage::Cut(3579),
        Status::Input,
        b"refused o.p0.bpnf byte 3577 CutWord\n",
    ),
    (
        "o.p0.bpnf",
        Damage::Cut(3578),
        Status::Input,
        b"refused o.p0.bpnf byte 3577 CutWord\n",
    ),
    (
        "o.p0.bpnf",
        Damage::Cut(3577),
        Status::Input,
        b"refused o.p0.bpnf words 511 TooFew\n",
    ),
    (
        "o.p4.bpnf",
        Damage::Cut(3576),
        Status::Input,
        b"refused o.p4.bpnf words 511 TooFew\n",
    ),
    (
        "o.p0.bpnf",
        Damage::Cut(0),
        Status::Input,
        b"refused o.p0.bpnf words 0 TooFew\n",
    ),
    (
        "o.p0.bpnf",
        Damage::Byte(1, b'X'),
        Status::Input,
        b"refused o.p0.bpnf byte 1 BadLetter\n",
    ),
    ("o.p0.bpnf", Damage::Byte(6, 0), Status::Done, RUN),
    (
        "o.p0.bpnf",
        Damage::Twice,
        Status::Input,
        b"refused o.p0.bpnf byte 3584 TooMany\n",
    ),
    (
        "o.p0.bpnf",
        Damage::Repeated(b"x", 65_537),
        Status::Input,
        b"refused o.p0.bpnf TooLong\n",
    ),
    (
        "o.p4.bpnf",
        Damage::Lost,
        Status::Input,
        b"refused o.p4.bpnf NoFile\n",
    ),
    (
        "o.lay",
        Damage::Cut(0),
        Status::Input,
        b"refused o.lay line 0 Slices\n",
    ),
    (
        "o.lay",
        Damage::Twice,
        Status::Input,
        b"refused o.lay line 4 Slices\n",
    ),
    (
        "o.lay",
        Damage::Byte(0, 0),
        Status::Input,
        b"refused o.lay line 1 BadByte col 1\n",
    ),
    (
        "o.lay",
        Damage::Repeated(b"slices 17\n", 1),
        Status::Input,
        b"refused o.lay line 1 Slices\n",
    ),
    (
        "o.lay",
        Damage::Repeated(b"kbus 1\nprom 512 4\n", 1),
        Status::Input,
        b"refused o.lay line 1 Slices\n",
    ),
    (
        "o.lay",
        Damage::Repeated(b"slices 1\nprom 512 4\n", 1),
        Status::Done,
        RUN,
    ),
    (
        "o.lay",
        Damage::Repeated(b"slices 1\r\nkbus 1\n", 1),
        Status::Done,
        RUN,
    ),
    (
        "o.lay",
        Damage::Repeated(b"slices 1\nslices 1\n", 1),
        Status::Input,
        b"refused o.lay line 2 Slices\n",
    ),
    (
        "o.lay",
        Damage::Repeated(b"slices 1\nkbus 1\nkbus 1\n", 1),
        Status::Input,
        b"refused o.lay line 3 KBus\n",
    ),
    (
        "o.lay",
        Damage::Repeated(b"slices 1\nkbus 1\nprom 512 5\n", 1),
        Status::Input,
        b"refused o.lay line 3 Prom\n",
    ),
    (
        "o.lay",
        Damage::Repeated(b"slices 1\nprom 512 4\nprom 512 4\n", 1),
        Status::Input,
        b"refused o.lay line 3 Prom\n",
    ),
    (
        "o.lay",
        Damage::Repeated(b"start A\n", 1),
        Status::Input,
        b"refused o.lay line 1 UnknownDirective\n",
    ),
    (
        "t",
        Damage::Repeated(b"clk\n", 65_537),
        Status::Input,
        b"refused t line 65537 Lines\n",
    ),
    ("t", Damage::Repeated(b"clk i=1", 1), Status::Done, RUN),
    (
        "t",
        Damage::Repeated(b"clk i=\n", 1),
        Status::Input,
        b"refused t line 1 Shape\n",
    ),
];

/// What `check s o.ref` answers. The source has 1,433 clauses.
const REFUTATIONS: [Row; 14] = [
    (
        "o.ref",
        Damage::Repeated(b"1434 0 1286 1319 1367 1146 0\n", 1),
        Status::Done,
        b"refutes 1\n",
    ),
    ("o.ref", Damage::Cut(0), Status::CheckNo, b"derived 0\n"),
    (
        "o.ref",
        Damage::Repeated(b"1434 0 1286 1319 1367 1146 0", 1),
        Status::CheckNo,
        b"rejected line 1 Text\n",
    ),
    (
        "o.ref",
        Damage::Byte(0, 0),
        Status::CheckNo,
        b"rejected line 1 Text\n",
    ),
    (
        "o.ref",
        Damage::Twice,
        Status::CheckNo,
        b"rejected line 2 After\n",
    ),
    (
        "o.ref",
        Damage::Repeated(b"1434 0 1286 1319 1367 1146 0\r\n", 1),
        Status::CheckNo,
        b"rejected line 1 Text\n",
    ),
    (
        "o.ref",
        Damage::Repeated(b"1434 -0 0 1286 0\n", 1),
        Status::CheckNo,
        b"rejected line 1 Text\n",
    ),
    (
        "o.ref",
        Damage::Repeated(b"1434 0 1286 1319 1367 1146\n", 1),
        Status::CheckNo,
        b"rejected line 1 Text\n",
    ),
    (
        "o.ref",
        Damage::Repeated(b"1435 0 1286 0\n", 1),
        Status::CheckNo,
        b"rejected line 1 Number\n",
    ),
    (
        "o.ref",
        Damage::Repeated(b"1434 104 0 1286 0\n", 1),
        Status::CheckNo,
        b"rejected line 1 Literal\n",
    ),
    (
        "o.ref",
        Damage::Repeated(b"1434 0 0\n", 1),
        Status::CheckNo,
        b"rejected line 1 Hint\n",
    ),
    (
        "o.ref",
        Damage::Repeated(b"1434 0 1434 0\n", 1),
        Status::CheckNo,
        b"rejected line 1 Hint\n",
    ),
    (
        "o.ref",
        Damage::Repeated(b"1434 0 1286 1319 1367 1146 0\n1435 0 1286 0\n", 1),
        Status::CheckNo,
        b"rejected line 2 After\n",
    ),
    (
        "o.ref",
        Damage::Lost,
        Status::Input,
        b"refused o.ref NoFile\n",
    ),
];

// What a file is after its damage; nothing where it is lost.
fn damaged(alloc: Global, bytes: &[u8], damage: &Damage) -> Result<Option<Vec<u8>>, OutOfMemory> {
    let mut new = Vec::new(alloc);
    match damage {
        Damage::Cut(length) => new.extend_from_slice(&bytes[..(*length).min(bytes.len())])?,
        Damage::Byte(place, byte) => {
            new.extend_from_slice(bytes)?;
            if *place < new.len() {
                new[*place] = *byte;
            }
        }
        Damage::Twice => {
            new.extend_from_slice(bytes)?;
            new.extend_from_slice(bytes)?;
        }
        Damage::Repeated(text, times) => {
            for _ in 0..*times {
                new.extend_from_slice(text)?;
            }
        }
        Damage::Lost => return Ok(None),
    }
    Ok(Some(new))
}

// The files of a shelf, with one of them damaged.
fn with_damage(
    alloc: Global,
    whole: &MemShelf,
    names: &[&str],
    row: &Row,
) -> Result<MemShelf, OutOfMemory> {
    let mut shelf = MemShelf::new(alloc);
    for name in names {
        let Some(bytes) = whole.file(name) else {
            continue;
        };
        if *name != row.0 {
            shelf.put_file(name, bytes)?;
        } else if let Some(new) = damaged(alloc, bytes, &row.1)? {
            shelf.put_file(name, &new)?;
        }
    }
    Ok(shelf)
}

// A shelf with what `make` saves of a source.
fn made(alloc: Global, source: &[u8]) -> Result<MemShelf, OutOfMemory> {
    let mut shelf = shelf_with_script(alloc, source, b"clk i=1\n")?;
    let mut out = MemSink::new(alloc);
    let words = ["make", "s", "t", "o", "clocks=0", "conflicts=10"];
    let _ = end_of(alloc, &mut shelf, &mut out, &words)?;
    Ok(shelf)
}

/// The files of a placement in PROMs of four bits, and what they came of.
const PLACED: [&str; 8] = [
    "s",
    "t",
    "o.lay",
    "o.p0.bpnf",
    "o.p1.bpnf",
    "o.p2.bpnf",
    "o.p3.bpnf",
    "o.p4.bpnf",
];

#[test]
fn damaged_images_layouts_and_scripts_are_told(rt: HostRuntime) -> Result<(), Fail> {
    let whole = made(rt.alloc(), LOOP)?;
    let words = ["run", "o", "t", "clocks=1"];
    for row in &SAVED {
        let mut shelf = with_damage(rt.alloc(), &whole, &PLACED, row)?;
        assert!(rt; answers(rt.alloc(), &mut shelf, &words, row.2, row.3)?);
    }
    Ok(())
}

#[test]
fn damaged_refutations_are_told(rt: HostRuntime) -> Result<(), Fail> {
    let whole = made(rt.alloc(), ONE_LABEL_TWICE)?;
    let words = ["check", "s", "o.ref"];
    for row in &REFUTATIONS {
        let mut shelf = with_damage(rt.alloc(), &whole, &["s", "o.ref"], row)?;
        assert!(rt; answers(rt.alloc(), &mut shelf, &words, row.2, row.3)?);
    }
    Ok(())
}
