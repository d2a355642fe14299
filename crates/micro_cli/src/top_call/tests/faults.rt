//! Each call of each command fails once, and each command reads in small pieces.

use super::outcomes::{Case, Failing, Run, is_as, may_come, run_case, shelf_of};
use crate::searches::tests::PIGEONHOLE;
use io_base::{CallKind, MemShelf, OutOfMemory};
use std::alloc::Global;
use std::test::Fail;

/// One instruction, in its cell.
const LOOP: &[u8] = b"slices 1\nstart A\npin A 0 0\nA: NOP R0 | goto A\n";

/// A test that would have to lead to one cell from both outcomes.
const ONE_LABEL_TWICE: &[u8] = b"slices 1\nstart A\nA: NOP R0 | iff B B\nB: NOP R0 | goto B\n";

/// More bytes than any file of a case has.
const WHOLE_FILES: usize = 65_536;

/// The files of a placement in PROMs of four bits.
const PLACED: [&str; 7] = [
    "o.map",
    "o.lay",
    "o.p0.bpnf",
    "o.p1.bpnf",
    "o.p2.bpnf",
    "o.p3.bpnf",
    "o.p4.bpnf",
];

const MAKE: [&str; 6] = ["make", "s", "t", "o", "clocks=2", "conflicts=1000"];

const SPEND: [&str; 6] = ["make", "s", "t", "o", "clocks=0", "conflicts=0"];

const CASES: [Case; 8] = [
    Case {
        words: &MAKE,
        source: LOOP,
        script: b"clk i=1\n",
        before: &[],
        left: &[],
        saves: &PLACED,
    },
    Case {
        words: &MAKE,
        source: ONE_LABEL_TWICE,
        script: b"",
        before: &[],
        left: &[],
        saves: &["o.ref"],
    },
    Case {
        words: &MAKE,
        source: PIGEONHOLE,
        script: b"",
        before: &[],
        left: &[],
        saves: &["o.ref"],
    },
    Case {
        words: &SPEND,
        source: PIGEONHOLE,
        script: b"",
        before: &[],
        left: &[],
        saves: &["o.part"],
    },
    Case {
        words: &["run", "o", "t", "clocks=2"],
        source: LOOP,
        script: b"clk i=1\n",
        before: &MAKE,
        left: &PLACED,
        saves: &[],
    },
    Case {
        words: &["flow", "s", "t", "clocks=2"],
        source: LOOP,
        script: b"clk i=1\n",
        before: &[],
        left: &[],
        saves: &[],
    },
    Case {
        words: &["check", "s", "o.ref"],
        source: ONE_LABEL_TWICE,
        script: b"",
        before: &MAKE,
        left: &["o.ref"],
        saves: &[],
    },
    Case {
        words: &["map", "s"],
        source: LOOP,
        script: b"",
        before: &[],
        left: &[],
        saves: &[],
    },
];

/// More calls than any case makes.
const MANY: u32 = 1000;

// The call of this number that is to fail.
fn failing(kind: Option<CallKind>, number: u32) -> Failing {
    match kind {
        Some(kind) => Failing::Call(kind, number),
        None => Failing::Write(number),
    }
}

// How many calls of a kind, or writes, a case makes, where each may fail; none where an outcome may not come.
fn calls_that_may_fail(
    alloc: Global,
    case: &Case,
    whole: &Run,
    kind: Option<CallKind>,
) -> Result<Option<u32>, OutOfMemory> {
    let old = shelf_of(alloc, case)?;
    for number in 1..MANY {
        let now = run_case(alloc, case, failing(kind, number), WHOLE_FILES)?;
        if is_as(case, whole, &old, &now) {
            return Ok(Some(number - 1));
        }
        if !may_come(case, whole, &old, &now) {
            return Ok(None);
        }
    }
    Ok(None)
}

#[test]
fn each_call_fails_once(rt: HostRuntime) -> Result<(), Fail> {
    let kinds = [
        Some(CallKind::Read),
        Some(CallKind::Create),
        Some(CallKind::Append),
        None,
    ];
    for case in &CASES {
        let whole = run_case(rt.alloc(), case, Failing::Nothing, WHOLE_FILES)?;
        for kind in &kinds {
            let calls = calls_that_may_fail(rt.alloc(), case, &whole, *kind)?;
            assert!(rt; calls.is_some());
        }
    }
    Ok(())
}

#[test]
fn small_reads_give_the_same(rt: HostRuntime) -> Result<(), Fail> {
    for case in &CASES {
        let whole = run_case(rt.alloc(), case, Failing::Nothing, WHOLE_FILES)?;
        let old = shelf_of(rt.alloc(), case)?;
        for piece in [1, 7] {
            let now = run_case(rt.alloc(), case, Failing::Nothing, piece)?;
            assert!(rt; is_as(case, &whole, &old, &now));
        }
    }
    Ok(())
}

// A shelf with the inputs and the placed files of another, but for one, and with this text in another.
fn altered(
    alloc: Global,
    shelf: &MemShelf,
    lost: &str,
    grown: &str,
    text: &[u8],
) -> Result<MemShelf, OutOfMemory> {
    let mut new = MemShelf::new(alloc);
    for name in ["s", "t"].iter().chain(&PLACED) {
        if *name == grown {
            new.put_file(name, text)?;
        } else if *name != lost {
            if let Some(bytes) = shelf.file(name) {
                new.put_file(name, bytes)?;
            }
        }
    }
    Ok(new)
}

/// A file that is lost, one that is changed, and what it holds then: after a fault at the third append, at which the first
/// image has half of its text.
const WRONG_OUTCOMES: [(&str, &str, &[u8]); 5] = [
    ("o.map", "", b""),
    ("o.lay", "", b""),
    ("s", "", b""),
    ("", "o.p0.bpnf", b"BNNNNF\nBNNNNP"),
    ("", "o.p1.bpnf", b"B"),
];

#[test]
fn a_wrong_outcome_is_told_from_a_right_one(rt: HostRuntime) -> Result<(), Fail> {
    let case = &CASES[0];
    let alloc = rt.alloc();
    let whole = run_case(alloc, case, Failing::Nothing, WHOLE_FILES)?;
    let old = shelf_of(alloc, case)?;
    let failed = run_case(alloc, case, Failing::Call(CallKind::Append, 3), WHOLE_FILES)?;
    assert!(rt; may_come(case, &whole, &old, &failed));
    for (lost, grown, text) in &WRONG_OUTCOMES {
        let shelf = altered(alloc, &failed.shelf, lost, grown, text)?;
        let wrong = Run {
            status: failed.status,
            text: failed.text.clone()?,
            shelf,
        };
        assert!(rt; !may_come(case, &whole, &old, &wrong));
    }
    Ok(())
}

#[test]
fn a_byte_more_is_told_from_a_prefix(rt: HostRuntime) -> Result<(), Fail> {
    let case = &CASES[0];
    let alloc = rt.alloc();
    let whole = run_case(alloc, case, Failing::Nothing, WHOLE_FILES)?;
    let old = shelf_of(alloc, case)?;
    let mut failed = run_case(alloc, case, Failing::Write(2), WHOLE_FILES)?;
    assert!(rt; may_come(case, &whole, &old, &failed));
    failed.text.push(b'x')?;
    assert!(rt; !may_come(case, &whole, &old, &failed));
    Ok(())
}
