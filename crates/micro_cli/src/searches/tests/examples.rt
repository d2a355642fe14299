//! Copies of the guide's examples for each of the three answers, without comments; a change in `examples/` is made here
//! too.

use super::{ends, file_of, is_accepted};
use crate::check_command::check_command;
use io_base::{MemShelf, MemSink, OutOfMemory};
use replies::Status;
use std::alloc::Global;
use std::test::Fail;

/// `count_down.src`.
const COUNT_DOWN: &[u8] = b"slices 2
field done 1 0
start LOAD
LOAD: LDI AC FF1 | goto TAKE
TAKE: SDR R1 FF1 | goto COUNT
COUNT: DSM R1 | iff DONE COUNT
DONE: NOP R0 done=1 | strobe REST
REST: NOP R0 | goto LOAD
";

/// What its `make` prints for four clocks.
const COUNT_DOWN_RUN: &[u8] = b"placed
0 0.0 A=0 D=0 T=0 R=0,0,0,0,0,0,0,0,0,0 C=000 L=0 P=- S=0 U=0 Y=11
1 31.0 A=0 D=2 T=0 R=0,0,0,0,0,0,0,0,0,0 C=100 L=0 P=- S=0 U=0 Y=11
2 31.11 A=0 D=2 T=0 R=0,2,0,0,0,0,0,0,0,0 C=100 L=0 P=- S=0 U=0 Y=11
3 31.11 A=f D=2 T=0 R=0,1,0,0,0,0,0,0,0,0 C=100 L=0 P=- S=0 U=0 Y=11
";

/// `count_ones.src`.
const COUNT_ONES: &[u8] = b"slices 1
rows 1
start START
START: LDI AC FF1 | goto BIT0
BIT0: SRA AC | iff BIT1 ONE0
ONE0: INR R1 FF1 | goto BIT1
BIT1: SRA AC | iff END ONE1
ONE1: INR R1 FF1 | goto END
END: NOP R0 | goto START
";

/// `two_strobes.src`.
const TWO_STROBES: &[u8] = b"slices 2
start START
START: NOP R0 | goto WAIT
WAIT: NOP R0 | onpx WAIT READY FAULT - - - - - - - - - - - - -
READY: NOP R0 | strobe DONE
FAULT: NOP R0 | strobe ALARM
DONE: NOP R0 | goto START
ALARM: NOP R0 | goto START
";

/// `two_strobes.ref`, a refutation made by hand.
const TWO_STROBES_REFUTED: &[u8] = b"4752 0 4581 4582 4583 4584 4381 4428 0\n";

#[test]
fn count_down_is_placed(rt: HostRuntime) -> Result<(), Fail> {
    let mut shelf = MemShelf::new(rt.alloc());
    let run = (b"clk i=2\n".as_slice(), 4);
    assert!(rt;
        ends(
            rt.alloc(),
            &mut shelf,
            COUNT_DOWN,
            run,
            1000,
            Status::Done,
            COUNT_DOWN_RUN
        )
    );
    Ok(())
}

#[test]
fn count_ones_spends_a_small_budget(rt: HostRuntime) -> Result<(), Fail> {
    let mut shelf = MemShelf::new(rt.alloc());
    let text = b"undecided 1\n";
    assert!(rt;
        ends(
            rt.alloc(),
            &mut shelf,
            COUNT_ONES,
            (b"", 0),
            1,
            Status::Undecided,
            text
        )
    );
    assert!(rt; !file_of(&shelf, "o.part").is_empty());
    Ok(())
}

#[test]
fn count_ones_is_refuted_by_a_larger_one(rt: HostRuntime) -> Result<(), Fail> {
    let accepted = is_accepted(rt.alloc(), COUNT_ONES, 100, b"refuted 3\n");
    assert!(rt; accepted.unwrap_or(false));
    Ok(())
}

#[test]
fn two_strobes_are_refuted(rt: HostRuntime) -> Result<(), Fail> {
    let accepted = is_accepted(rt.alloc(), TWO_STROBES, 1000, b"refuted 1\n");
    assert!(rt; accepted.unwrap_or(false));
    Ok(())
}

// What the checker ends with for a source and a refutation.
fn checked(alloc: Global, source: &[u8], refutation: &[u8]) -> Result<Status, OutOfMemory> {
    let mut shelf = MemShelf::new(alloc);
    shelf.put_file("s", source)?;
    shelf.put_file("r", refutation)?;
    let mut out = MemSink::new(alloc);
    Ok(check_command(alloc, &mut shelf, &mut out, "s", "r"))
}

#[test]
fn a_refutation_made_by_hand_is_accepted(rt: HostRuntime) -> Result<(), Fail> {
    let status = checked(rt.alloc(), TWO_STROBES, TWO_STROBES_REFUTED)?;
    assert!(rt; status == Status::Done);
    Ok(())
}
