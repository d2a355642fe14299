//! Small programs, what the search answers of them, and what stands after a fault.
ghost use Rattle.std.specs.Prelude.{◌≤◌, ◌<◌, ◌^◌, length};

mod examples;

use crate::check_command::check_command;
use crate::searches::place_and_save;
use bench_answers::PlacedRun;
use flow_graph::Program;
use io_base::{CallKind, MemShelf, MemSink};
use micro_asm::assemble;
use replies::Status;
use std::alloc::Global;
use std::test::Fail;

/// One instruction, without a pin.
const LOOP: &[u8] = b"slices 1\nstart A\nA: NOP R0 | goto A\n";

/// What its run of one clock prints.
const LOOP_RUN: &[u8] =
    b"placed\n0 0.0 A=0 D=0 T=0 R=0,0,0,0,0,0,0,0,0,0 C=000 L=0 P=- S=0 U=- Y=0\n";

/// A `goto` that would have to reach row 0, column 15, from another row and column.
const FAR_GOTO: &[u8] = b"slices 1
start S
pin A 5 3
pin B 0 15
S: NOP R0 | goto S
A: NOP R0 | goto B
B: NOP R0 | goto B
";

/// The same with a strobe, which goes there from everywhere.
const FAR_STROBE: &[u8] = b"slices 1
start S
pin A 5 3
pin B 0 15
S: NOP R0 | goto S
A: NOP R0 | strobe B
B: NOP R0 | goto B
";

/// A dispatch whose outcomes from the third on lead to the trap, and a label elsewhere.
const DISPATCH: &[u8] = b"slices 1
start A
A: NOP R0 | onpx A B - - - - - - - - - - - - - -
B: NOP R0 | goto B
Z: NOP R0 | goto Z
";

/// The same, with that label in a cell of the trap.
const PINNED_DISPATCH: &[u8] = b"slices 1
start A
pin Z 0 5
A: NOP R0 | onpx A B - - - - - - - - - - - - - -
B: NOP R0 | goto B
Z: NOP R0 | goto Z
";

/// What the dispatch prints for three clocks, where the first has 5 on PX and 9 on SX.
const DISPATCH_RUN: &[u8] = b"placed
0 0.0 A=0 D=0 T=0 R=0,0,0,0,0,0,0,0,0,0 C=000 L=0 P=- S=0 U=- Y=0
1 0.5 A=0 D=0 T=0 R=0,0,0,0,0,0,0,0,0,0 C=000 L=9 P=- S=0 U=- Y=0
2 0.5 A=0 D=0 T=0 R=0,0,0,0,0,0,0,0,0,0 C=000 L=9 P=- S=0 U=- Y=0
";

/// A test that would have to lead to one cell from both outcomes.
const ONE_LABEL_TWICE: &[u8] = b"slices 1
start A
A: NOP R0 | iff B B
B: NOP R0 | goto B
";

/// Seventeen labels in the sixteen cells of one row.
pub(crate) const PIGEONHOLE: &[u8] = b"slices 1
rows 1
start A
pin P1 0 1
pin P2 0 2
pin P3 0 3
pin P4 0 4
pin P5 0 5
pin P6 0 6
pin P7 0 7
pin P8 0 8
pin P9 0 9
pin P10 0 10
pin P11 0 11
pin P12 0 12
pin P13 0 13
A: NOP R0 | goto A
P1: NOP R0 | goto P1
P2: NOP R0 | goto P2
P3: NOP R0 | goto P3
P4: NOP R0 | goto P4
P5: NOP R0 | goto P5
P6: NOP R0 | goto P6
P7: NOP R0 | goto P7
P8: NOP R0 | goto P8
P9: NOP R0 | goto P9
P10: NOP R0 | goto P10
P11: NOP R0 | goto P11
P12: NOP R0 | goto P12
P13: NOP R0 | goto P13
X: NOP R0 | goto X
Y: NOP R0 | goto Y
Z: NOP R0 | goto Z
";

// The program of a short source.
fn program_of(alloc: Global, source: &[u8]) -> Option<Program> {
    if source.len() > 100_000 {
        return None;
    }
    assemble(alloc, source).ok()
}

// Whether a search for a placement, saved as `o` and run under a script for so many clocks, ends with this status and
// text.
fn ends(
    alloc: Global,
    shelf: &mut MemShelf,
    source: &[u8],
    run: (&[u8], u32),
    conflicts: u32,
    status: Status,
    text: &[u8],
) -> bool
    requires small { length run.0.now < 2 ^ 32 }
    requires few { conflicts ≤ 1000000 }
{
    let Some(program) = program_of(alloc, source) else {
        return false;
    };
    let (script, clocks) = run;
    let asked = PlacedRun {
        out: "o",
        script: "t",
        clocks,
    };
    let mut out = MemSink::new(alloc);
    let ended = place_and_save(alloc, shelf, &mut out, asked, &program, script, conflicts);
    ended == status && out.bytes() == text
}

// The bytes of a file, none where it is not there.
fn file_of<'a>(shelf: &'a MemShelf, name: &str) -> &'a [u8] {
    shelf.file(name).unwrap_or(&[])
}

// How often a byte stands in a text.
fn count_of(text: &[u8], byte: u8) -> usize {
    text.iter().filter(|&&b| b == byte).count()
}

// Whether a text has just this line.
fn has_line(text: &[u8], line: &[u8]) -> bool {
    text.split(|&b| b == b'\n').any(|other| other == line)
}

#[test]
fn a_placement_is_found(rt: HostRuntime) -> Result<(), Fail> {
    let mut shelf = MemShelf::new(rt.alloc());
    shelf.put_file("o.ref", b"older")?;
    assert!(rt;
        ends(
            rt.alloc(),
            &mut shelf,
            LOOP,
            (b"", 1),
            0,
            Status::Done,
            LOOP_RUN
        )
    );
    assert!(rt; file_of(&shelf, "o.map") == b"A 0.0 00 JCC 0\n".as_slice());
    assert!(rt; file_of(&shelf, "o.ref") == b"older".as_slice());
    Ok(())
}

#[test]
fn a_strobe_reaches_its_cell(rt: HostRuntime) -> Result<(), Fail> {
    let mut shelf = MemShelf::new(rt.alloc());
    assert!(rt;
        ends(
            rt.alloc(),
            &mut shelf,
            FAR_STROBE,
            (b"", 0),
            0,
            Status::Done,
            b"placed\n"
        )
    );
    assert!(rt; has_line(file_of(&shelf, "o.map"), b"A 5.3 2f JZR 15"));
    Ok(())
}

#[test]
fn a_dispatch_is_placed_and_latches(rt: HostRuntime) -> Result<(), Fail> {
    let mut shelf = MemShelf::new(rt.alloc());
    let run = (b"clk px=5 sx=9\n".as_slice(), 3);
    assert!(rt;
        ends(
            rt.alloc(),
            &mut shelf,
            DISPATCH,
            run,
            1000,
            Status::Done,
            DISPATCH_RUN
        )
    );
    Ok(())
}

#[test]
fn a_label_in_the_trap_is_refuted(rt: HostRuntime) -> Result<(), Fail> {
    let mut shelf = MemShelf::new(rt.alloc());
    let text = b"refuted 1\n";
    assert!(rt;
        ends(
            rt.alloc(),
            &mut shelf,
            PINNED_DISPATCH,
            (b"", 0),
            0,
            Status::Refuted,
            text
        )
    );
    Ok(())
}

#[test]
fn a_refutation_is_saved(rt: HostRuntime) -> Result<(), Fail> {
    let mut shelf = MemShelf::new(rt.alloc());
    let text = b"refuted 1\n";
    assert!(rt;
        ends(
            rt.alloc(),
            &mut shelf,
            FAR_GOTO,
            (b"", 0),
            0,
            Status::Refuted,
            text
        )
    );
    assert!(rt; count_of(file_of(&shelf, "o.ref"), b'\n') == 1);
    assert!(rt; shelf.file("o.part").is_none());
    Ok(())
}

// The source has 1433 clauses.
#[test]
fn lines_are_numbered_after_the_clauses(rt: HostRuntime) -> Result<(), Fail> {
    let mut shelf = MemShelf::new(rt.alloc());
    let text = b"refuted 1\n";
    assert!(rt;
        ends(
            rt.alloc(),
            &mut shelf,
            ONE_LABEL_TWICE,
            (b"", 0),
            0,
            Status::Refuted,
            text
        )
    );
    assert!(rt; file_of(&shelf, "o.ref").starts_with(b"1434 0 "));
    Ok(())
}

// Whether each line of a text is one of a clash, which each has one letter, with one `x` and some decision.
fn is_clash(text: &[u8]) -> bool {
    let letters = text.iter().filter(|&&b| b.is_ascii_lowercase()).count();
    letters == count_of(text, b'\n') && count_of(text, b'x') == 1 && count_of(text, b'd') > 0
}

#[test]
fn a_spent_budget_is_saved(rt: HostRuntime) -> Result<(), Fail> {
    let mut shelf = MemShelf::new(rt.alloc());
    let text = b"undecided 0\n";
    assert!(rt;
        ends(
            rt.alloc(),
            &mut shelf,
            PIGEONHOLE,
            (b"", 0),
            0,
            Status::Undecided,
            text
        )
    );
    assert!(rt; is_clash(file_of(&shelf, "o.part")));
    Ok(())
}

// Whether the checker accepts the refutation that is saved of a source with this text.
fn is_accepted(alloc: Global, source: &[u8], conflicts: u32, text: &[u8]) -> Option<bool>
    requires { conflicts ≤ 1000000 }
{
    let mut shelf = MemShelf::new(alloc);
    let refuted = ends(
        alloc,
        &mut shelf,
        source,
        (b"", 0),
        conflicts,
        Status::Refuted,
        text,
    );
    shelf.put_file("s", source).ok()?;
    let mut out = MemSink::new(alloc);
    let checked = check_command(alloc, &mut shelf, &mut out, "s", "o.ref");
    Some(refuted && checked == Status::Done)
}

#[test]
fn a_larger_budget_decides_and_the_checker_accepts(rt: HostRuntime) -> Result<(), Fail> {
    let accepted = is_accepted(rt.alloc(), PIGEONHOLE, 1000, b"refuted 2\n");
    assert!(rt; accepted.unwrap_or(false));
    Ok(())
}

// Whether a failing call on the one file of an answer is told.
fn tells_unsaved(
    alloc: Global,
    kind: CallKind,
    source: &[u8],
    name: &str,
    text: &[u8],
) -> Option<bool> {
    let mut shelf = MemShelf::new(alloc);
    shelf.fail(kind, 1).ok()?;
    let told = ends(
        alloc,
        &mut shelf,
        source,
        (b"", 0),
        0,
        Status::ShelfFault,
        text,
    );
    let is_there = shelf.file(name).is_some();
    Some(told && is_there == (kind == CallKind::Append))
}

#[test]
fn a_refutation_that_is_not_saved_is_told(rt: HostRuntime) -> Result<(), Fail> {
    for kind in [CallKind::Create, CallKind::Append] {
        let told = tells_unsaved(rt.alloc(), kind, FAR_GOTO, "o.ref", b"cannot save o.ref\n");
        assert!(rt; told.unwrap_or(false));
    }
    Ok(())
}

#[test]
fn a_spent_budget_that_is_not_saved_is_told(rt: HostRuntime) -> Result<(), Fail> {
    for kind in [CallKind::Create, CallKind::Append] {
        let text = b"cannot save o.part\n";
        let told = tells_unsaved(rt.alloc(), kind, PIGEONHOLE, "o.part", text);
        assert!(rt; told.unwrap_or(false));
    }
    Ok(())
}
