//! Tables of sources, each with its program or its refusal.

use field_decl::{AsmKind, gather};
use flow_graph::{Instr, Pin, Program};
use mcu_jumps::Kind;
use micro_asm::{AsmFault, assemble};
use std::alloc::{AllocError, Global};
use std::test::Fail;

/// A source, and the line and the kind of its refusal.
type Refusal = (&'static [u8], u32, AsmKind);

// Whether the source is refused at this line for this reason.
fn is_refused(alloc: Global, text: &[u8], line: u32, kind: AsmKind) -> bool {
    text.len() < 1000 && assemble(alloc, text).err() == Some(AsmFault::At { line, kind })
}

/// Tokens and lines that are none.
const FORMS: [Refusal; 21] = [
    (b"slices 1\nstart @ 1x", 2, AsmKind::BadByte(7)),
    (
        b"slices 1\nA: NOP R0 1x | goto A",
        2,
        AsmKind::BadNumber(11),
    ),
    (
        b"field x 340282366920938463463374607431768211456 0",
        1,
        AsmKind::NumberTooWide(9),
    ),
    (
        b"start abcdefghijklmnopqrstuvwxyz_012345",
        1,
        AsmKind::NameTooLong(7),
    ),
    (b"step @", 1, AsmKind::BadByte(6)),
    (b"\nstep 1", 2, AsmKind::UnknownDirective),
    (b"5: NOP R0 | goto A", 1, AsmKind::UnknownDirective),
    (b": NOP R0 | goto A", 1, AsmKind::UnknownDirective),
    (b"start 1", 1, AsmKind::Shape),
    (b"pin A 0", 1, AsmKind::Shape),
    (b"rows", 1, AsmKind::Shape),
    (b"slices : 1", 1, AsmKind::Shape),
    (b"A: NOP | goto A", 1, AsmKind::Shape),
    (b"A: NOP R0 goto A", 1, AsmKind::Shape),
    (b"A: NOP R0 x= | goto A", 1, AsmKind::Shape),
    (b"A: NOP R0 | goto 1", 1, AsmKind::Shape),
    (b"A: NOP R0 | goto A | goto A", 1, AsmKind::Shape),
    (b"A: NOP R0 |", 1, AsmKind::Shape),
    (b"A: fn 6 1 R0 | goto A", 1, AsmKind::Shape),
    (b"A: code 6 1 R0 0 | goto A", 1, AsmKind::Shape),
    (b"A: | goto A", 1, AsmKind::Shape),
];

#[test]
fn tokens_and_forms_are_refused(rt: HostRuntime) {
    for (text, line, kind) in &FORMS {
        assert!(rt;
            is_refused(rt.alloc(), text, *line, *kind),
            "{kind:?} in line {line}"
        );
    }
}

/// Directives that say too much, too little, or too late.
const DIRECTIVES: [Refusal; 27] = [
    (b"slices 1\nA: NOP R0 | goto A\nslices", 3, AsmKind::Shape),
    (b"slices 1\nA: NOP R0 | goto A\nslices 0", 3, AsmKind::Late),
    (
        b"slices 1\nA: NOP R0 | goto A\nfield f 0 0",
        3,
        AsmKind::Late,
    ),
    (b"slices 1\nA: NOP R0 | goto A\nrows 0", 3, AsmKind::Late),
    (b"slices 1\nA: NOP R0 | goto A\nrows 33", 3, AsmKind::Late),
    (b"slices 17", 1, AsmKind::Slices),
    (b"slices 1\nslices 1", 2, AsmKind::Slices),
    (b"kbus 0", 1, AsmKind::Slices),
    (b"A: BAD R0 | goto A", 1, AsmKind::Slices),
    (b"slices 2\nkbus 3", 2, AsmKind::KBus),
    (
        b"field a 32 0\nfield b 32 0\nfield c 14 0",
        3,
        AsmKind::WordTooWide,
    ),
    (b"field f 1 0\nfield f 0 0", 2, AsmKind::FieldTwice),
    (b"field f 33 0", 1, AsmKind::FieldWidth),
    (b"field f 3 8", 1, AsmKind::DefaultTooWide),
    (b"prom 512 16", 1, AsmKind::Prom),
    (b"field f 2 0\nwrite f", 2, AsmKind::WriteField),
    (b"rows 0", 1, AsmKind::Rows),
    (b"rows 33", 1, AsmKind::Rows),
    (b"rows 1\nrows 2", 2, AsmKind::Rows),
    (b"start A\nstart A", 2, AsmKind::StartTwice),
    (b"pin A 32 0", 1, AsmKind::PinRange),
    (b"pin A 0 16", 1, AsmKind::PinRange),
    (b"pin A 0 0\npin A 0 16", 2, AsmKind::PinRange),
    (b"pin A 0 0\npin A 0 1", 2, AsmKind::PinTwice),
    (
        b"slices 1\nA: NOP R0 | goto A\nA: BAD R0 | goto A",
        3,
        AsmKind::LabelTwice,
    ),
    (
        b"slices 1\nstart B\nA: NOP R0 | goto C\npin A 99 0",
        4,
        AsmKind::PinRange,
    ),
    (b"slices 1\nA: NOP R0 | goto A\nkbus 1", 3, AsmKind::Late),
];

#[test]
fn directives_are_refused(rt: HostRuntime) {
    for (text, line, kind) in &DIRECTIVES {
        assert!(rt;
            is_refused(rt.alloc(), text, *line, *kind),
            "{kind:?} in line {line}"
        );
    }
}

/// Operations, settings and flow statements that are none.
const OPERATIONS: [Refusal; 24] = [
    (b"slices 1\nA: fn 8 1 BAD 9 | goto A", 2, AsmKind::Function),
    (b"slices 1\nA: fn 6 0 R0 0 | goto A", 2, AsmKind::Function),
    (b"slices 1\nA: fn 6 4 T 0 | goto A", 2, AsmKind::Function),
    (b"slices 1\nA: nop R10 | goto A", 2, AsmKind::Mnemonic),
    (b"slices 1\nA: fn R0 | goto A", 2, AsmKind::Mnemonic),
    (b"slices 1\nA: NOP R10 | goto A", 2, AsmKind::Register),
    (b"slices 1\nA: ACM R0 | goto A", 2, AsmKind::Register),
    (b"slices 1\nA: fn 6 2 R0 9 | goto A", 2, AsmKind::Register),
    (b"slices 1\nA: fn 0 3 AC 4 | goto A", 2, AsmKind::MaskShape),
    (b"slices 1\nA: fn 6 1 R0 1 | goto A", 2, AsmKind::MaskShape),
    (
        b"slices 8\nkbus 2\nA: fn 3 1 R2 0x0FF0 | goto A",
        3,
        AsmKind::MaskShape,
    ),
    (
        b"slices 1\nA: fn 0 3 AC 3 ABC | goto A",
        2,
        AsmKind::ShiftMask,
    ),
    (b"slices 1\nA: NOP R0 ABC | jump A", 2, AsmKind::FlagName),
    (
        b"slices 1\nA: NOP R0 SCZ HCZ | goto A",
        2,
        AsmKind::SettingTwice,
    ),
    (
        b"slices 1\nA: NOP R0 FF0 SCZ FF0 | goto A",
        2,
        AsmKind::SettingTwice,
    ),
    (
        b"slices 1\nfield x 1 0\nA: NOP R0 x=1 x=2 | goto A",
        3,
        AsmKind::SettingTwice,
    ),
    (
        b"slices 1\nA: NOP R0 SCZ=1 | goto A",
        2,
        AsmKind::UnknownField,
    ),
    (
        b"slices 1\nA: NOP R0 y=1 ABC | goto A",
        2,
        AsmKind::UnknownField,
    ),
    (
        b"slices 1\nfield x 1 0\nA: NOP R0 x=2 | goto A",
        3,
        AsmKind::FieldValue,
    ),
    (b"slices 1\nA: NOP R0 | jump -", 2, AsmKind::UnknownFlow),
    (b"slices 1\nA: NOP R0 | goto", 2, AsmKind::TargetCount),
    (b"slices 1\nA: NOP R0 | onleft - -", 2, AsmKind::TargetCount),
    (b"slices 1\nA: NOP R0 | strobe -", 2, AsmKind::NoTarget),
    (b"slices 1\nA: NOP R0 | ifz - -", 2, AsmKind::NoTarget),
];

#[test]
fn operations_and_settings_are_refused(rt: HostRuntime) {
    for (text, line, kind) in &OPERATIONS {
        assert!(rt;
            is_refused(rt.alloc(), text, *line, *kind),
            "{kind:?} in line {line}"
        );
    }
}

/// Sources that are refused only when all of them is read.
const WHOLE_SOURCES: [Refusal; 7] = [
    (b"", 0, AsmKind::Empty),
    (b"slices 1\nstart A\npin B 0 0\n", 0, AsmKind::Empty),
    (
        b"slices 1\npin B 0 0\nA: NOP R0 | goto C\n",
        0,
        AsmKind::NoStart,
    ),
    (
        b"slices 1\nstart B\npin C 0 0\nA: NOP R0 | goto D",
        2,
        AsmKind::UnknownLabel,
    ),
    (
        b"slices 1\npin C 0 0\nA: NOP R0 | goto D\nstart B",
        2,
        AsmKind::UnknownLabel,
    ),
    (
        b"slices 1\nA: NOP R0 | iff A D\nB: NOP R0 | goto D\npin D 0 0\nstart D",
        2,
        AsmKind::UnknownLabel,
    ),
    (
        b"slices 1\nstart A\nA: NOP R0 | goto A\npin A 0 0\npin D 0 1\npin E 0 2",
        5,
        AsmKind::UnknownLabel,
    ),
];

#[test]
fn whole_sources_are_refused(rt: HostRuntime) {
    for (text, line, kind) in &WHOLE_SOURCES {
        assert!(rt;
            is_refused(rt.alloc(), text, *line, *kind),
            "{kind:?} in line {line}"
        );
    }
}

const TWO_INSTRUCTIONS: &[u8] = b"slices 8
kbus 2
field wr 1 0
field io 3 5
write wr
rows 4 # of 32
start B
pin A 3 15

A: fn 3 1 R2 0x00FF STC FF1 wr=1 | iff B -\r
B: SRA T | goto A";

// Whether the declaration and what stands beside it are those of TWO_INSTRUCTIONS.
fn is_declared(program: &Program) -> bool {
    let decl = program.decl();
    program.rows() == 4
        && program.start() == 1
        && decl.slices == 8
        && decl.write == Some(0)
        && gather(decl, 0x00ff) == Some(1)
}

// Whether the one pin is that of A.
fn is_pinned(pins: &[Pin]) -> bool {
    match pins {
        [pin] => pin.label == 0 && pin.cell.row() == 3 && pin.cell.col() == 15,
        _ => false,
    }
}

// Whether this is the operation of A.
fn is_masked_add(instr: &Instr) -> bool {
    instr.line == 10
        && instr.func.code() == 0x32
        && instr.mask == 0x00ff
        && instr.ctl.encode() == 14
}

// Whether this is A.
fn is_first(instr: &Instr) -> bool {
    instr.name.is(b"A")
        && is_masked_add(instr)
        && instr.kind == Kind::IfF
        && instr.values.as_slice() == [1, 5].as_slice()
        && instr.targets.as_slice() == [Some(1), None].as_slice()
}

// Whether this is the operation of B.
fn is_shift(instr: &Instr) -> bool {
    instr.line == 11 && instr.func.code() == 0x0e && instr.mask == 0 && instr.ctl.encode() == 3
}

// Whether this is B.
fn is_second(instr: &Instr) -> bool {
    instr.name.is(b"B")
        && is_shift(instr)
        && instr.kind == Kind::Goto
        && instr.values.as_slice() == [0, 5].as_slice()
        && instr.targets.as_slice() == [Some(0)].as_slice()
}

#[test]
fn a_program_is_read(rt: HostRuntime) -> Result<(), Fail> {
    let program = assemble(rt.alloc(), TWO_INSTRUCTIONS)?;
    assert!(rt; is_declared(&program));
    assert!(rt; is_pinned(program.pins().as_slice()));
    assert_eq!(rt; program.len(), 2);
    assert!(rt; is_first(program.instr(0)));
    assert!(rt; is_second(program.instr(1)));
    Ok(())
}

// A source of so many instructions and one more line.
fn instructions(alloc: Global, count: u32, last: &str) -> Result<Vec<u8>, AllocError> {
    let mut text = b"slices 1\nstart L0\n".to_vec(alloc)?;
    for number in 0..count {
        let line = format!(in alloc; "L{number}: NOP R0 | goto L0\n")?;
        text.extend_from_slice(line.as_bytes())?;
    }
    text.extend_from_slice(last.as_bytes())?;
    Ok(text)
}

// What is read of a source of so many instructions and one more line: its count of instructions, or its fault.
fn count_read(alloc: Global, count: u32, last: &str) -> Result<u16, AsmFault> {
    let Ok(text) = instructions(alloc, count, last) else {
        return Err(AsmFault::OutOfMemory);
    };
    if text.len() > 10_000 {
        return Err(AsmFault::OutOfMemory);
    }
    let program = assemble(alloc, &text)?;
    Ok(program.len())
}

/// So many instructions, one more line, and why that is refused in line 131.
const FULL_SOURCES: [(u32, &str, AsmKind); 4] = [
    (128, "rows 4", AsmKind::Late),
    (128, "M: NOP R0 | goto L0", AsmKind::TooMany),
    (128, "M: BAD R0 | goto L0", AsmKind::TooMany),
    (128, "L7: BAD R0 | goto L0", AsmKind::LabelTwice),
];

#[test]
fn a_source_has_at_most_128_instructions(rt: HostRuntime) {
    assert!(rt; count_read(rt.alloc(), 127, "M: NOP R0 | goto L0") == Ok(128));
    for (count, last, kind) in &FULL_SOURCES {
        let refused = AsmFault::At {
            line: 131,
            kind: *kind,
        };
        assert!(rt;
            count_read(rt.alloc(), *count, last) == Err(refused),
            "{kind:?}"
        );
    }
}
