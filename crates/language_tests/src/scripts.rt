//! Tables of scripts, each with what it says or its refusal, and of trace lines.

ghost use Rattle.std.specs.Prelude.{◌≡◌, []};

use arrayvec::ArrayVec;
use bus_script::{
    Buses, ClockView, Script, ScriptFault, ScriptKind, at, initial, read_script, view_line,
};
use field_decl::FieldValues;
use slice_array::Regs;
use std::alloc::{AllocError, Global};
use std::test::Fail;

const IDLE: Buses = Buses {
    m: None,
    i: 0,
    px: 0,
    sx: 0,
};

/// Three clocks and three words of memory.
const SCRIPT: &[u8] =
    b"clk px=1 m = 0xff # a comment\n\nmem 0x10 0xf0\r\nclk\nmem 4095 255\nclk sx=15 i=0";

/// Clocks and their buses.
const CLOCKS: [(u32, Buses); 5] = [
    (
        0,
        Buses {
            m: Some(255),
            px: 1,
            ..IDLE
        },
    ),
    (1, IDLE),
    (2, Buses { sx: 15, ..IDLE }),
    (3, IDLE),
    (u32::MAX, IDLE),
];

/// Addresses and their words.
const WORDS: [(u16, u32); 4] = [(0, 0), (16, 240), (17, 0), (4095, 255)];

// Whether the memory starts with this word.
fn starts_with(script: &Script, address: u16, value: u32) -> bool {
    address < 4096 && initial(script, address) == value
}

#[test]
fn scripts_give_buses_and_memory(rt: HostRuntime) -> Result<(), Fail> {
    let script = read_script(rt.alloc(), SCRIPT, 4)?;
    for (clock, buses) in &CLOCKS {
        assert!(rt; at(&script, *clock) == *buses, "clock {clock}");
    }
    for (address, value) in &WORDS {
        assert!(rt; starts_with(&script, *address, *value), "address {address}");
    }
    Ok(())
}

/// A script for one slice, whose words have 2 bits, with the line and the reason of its refusal.
const REFUSALS: [(&[u8], u32, ScriptKind); 29] = [
    (b"clk @", 1, ScriptKind::BadByte(5)),
    (b"\nmem 0 1a", 2, ScriptKind::BadNumber(7)),
    (
        b"mem 340282366920938463463374607431768211456 0",
        1,
        ScriptKind::NumberTooWide(5),
    ),
    (
        b"abcdefghijklmnopqrstuvwxyz_012345",
        1,
        ScriptKind::NameTooLong(1),
    ),
    (b"5", 1, ScriptKind::Word),
    (b"=", 1, ScriptKind::Word),
    (b"clock i=1", 1, ScriptKind::Word),
    (b"mem", 1, ScriptKind::Shape),
    (b"mem 9999 9 9", 1, ScriptKind::Shape),
    (b"mem 0 = 1", 1, ScriptKind::Shape),
    (b"clk q=1 i=", 1, ScriptKind::Shape),
    (b"clk q=1 i", 1, ScriptKind::Shape),
    (b"clk q=1 5", 1, ScriptKind::Shape),
    (b"clk i:1", 1, ScriptKind::Shape),
    (b"mem 4096 0", 1, ScriptKind::Value),
    (b"mem 0 4", 1, ScriptKind::Value),
    (b"mem 0 1\nmem 0 4", 2, ScriptKind::Value),
    (b"mem 16 1\nclk\nmem 0x10 1", 3, ScriptKind::Twice),
    (b"clk q=1", 1, ScriptKind::Key),
    (b"clk I=1", 1, ScriptKind::Key),
    (b"clk m=3\nclk m=3\nclk i=4 q=1", 3, ScriptKind::Value),
    (b"clk m=4", 1, ScriptKind::Value),
    (b"clk i=4", 1, ScriptKind::Value),
    (b"clk px=16", 1, ScriptKind::Value),
    (b"clk sx=16", 1, ScriptKind::Value),
    (b"clk i=1 i=2", 1, ScriptKind::Twice),
    (b"clk m=0 m=9", 1, ScriptKind::Twice),
    (b"clk px=0 m=1 px=16", 1, ScriptKind::Twice),
    (b"clk sx=0 sx=0 q=1", 1, ScriptKind::Twice),
];

// Whether the script is refused at this line for this reason.
fn is_refused(alloc: Global, text: &[u8], slices: u8, line: u32, kind: ScriptKind) -> bool {
    text.len() < 1_000_000
        && 1 <= slices
        && slices <= 16
        && read_script(alloc, text, slices).err() == Some(ScriptFault::At { line, kind })
}

#[test]
fn scripts_are_refused(rt: HostRuntime) {
    for (text, line, kind) in &REFUSALS {
        assert!(rt;
            is_refused(rt.alloc(), text, 1, *line, *kind),
            "{kind:?} in line {line}"
        );
    }
}

// As many lines as a script may have.
fn full_script(alloc: Global) -> Result<Vec<u8>, AllocError> {
    let mut text = Vec::new(alloc);
    for _ in 0..65_536u32 {
        text.push(b'\n')?;
    }
    Ok(text)
}

// Whether the script can be read for sixteen slices.
fn is_script(alloc: Global, text: &[u8]) -> bool {
    text.len() < 1_000_000 && read_script(alloc, text, 16).is_ok()
}

#[test]
fn scripts_have_65536_lines(rt: HostRuntime) -> Result<(), Fail> {
    let mut text = full_script(rt.alloc())?;
    assert!(rt; is_script(rt.alloc(), &text));
    text.push(b'@')?;
    assert!(rt; is_refused(rt.alloc(), &text, 16, 65_537, ScriptKind::Lines));
    Ok(())
}

// A clock in which all is 0.
fn zero_view(clock: u32) -> ClockView
    ensures { result.values ≡ [] }
{
    ClockView {
        clock,
        regs: Regs {
            r: [0; 10],
            t: 0,
            ac: 0,
            mar: 0,
        },
        f: false,
        c: false,
        z: false,
        pr: 0,
        pr_out: None,
        ise: false,
        values: FieldValues::new(),
        links: 0,
    }
}

// Whether the line of a clock is this one, and nothing is left of an earlier line.
fn shows(place: &[u8], view: &ClockView, slices: u8, line: &[u8]) -> bool {
    if place.len() > 32 || slices > 16 || view.pr >= 16 {
        return false;
    }
    let mut out = ArrayVec::new();
    out.push(b'?');
    view_line(place, view, slices, &mut out);
    out.as_slice() == line
}

#[test]
fn clocks_of_the_smallest_array(rt: HostRuntime) {
    let first = b"0 0.0 A=0 D=0 T=0 R=0,0,0,0,0,0,0,0,0,0 C=000 L=0 P=- S=0 U=- Y=0\n";
    assert!(rt; shows(b"0.0", &zero_view(0), 1, first));
    let enabled = ClockView {
        pr: 3,
        pr_out: Some(3),
        ..zero_view(2)
    };
    let third = b"2 C A=0 D=0 T=0 R=0,0,0,0,0,0,0,0,0,0 C=000 L=3 P=3 S=0 U=- Y=0\n";
    assert!(rt; shows(b"C", &enabled, 1, third));
}

#[test]
fn clocks_of_a_write_read_back(rt: HostRuntime) {
    let mut start = zero_view(0);
    start.values.push(0);
    start.links = 15;
    let first =
        b"0 A A=00 D=00 T=00 R=00,00,00,00,00,00,00,00,00,00 C=000 L=0 P=- S=0 U=0 Y=1111\n";
    assert!(rt; shows(b"A", &start, 4, first));
    let mut write = zero_view(1);
    write.regs.ac = 0x5a;
    write.f = true;
    write.values.push(1);
    let second =
        b"1 B A=00 D=5a T=00 R=00,00,00,00,00,00,00,00,00,00 C=100 L=0 P=- S=0 U=1 Y=0000\n";
    assert!(rt; shows(b"B", &write, 4, second));
}

#[test]
fn clocks_show_each_part_in_its_place(rt: HostRuntime) {
    let mut view = zero_view(4_294_967_295);
    view.regs = Regs {
        r: [1, 2, 3, 4, 5, 6, 7, 8, 9, 0x3fe],
        t: 0x0ab,
        ac: 0x3cd,
        mar: 0x0ef,
    };
    view.c = true;
    view.pr = 13;
    view.pr_out = Some(5);
    view.ise = true;
    view.values.push(4_294_967_295);
    view.values.push(7);
    view.links = 0b10110;
    let line =
        b"4294967295 - A=0ef D=3cd T=0ab R=001,002,003,004,005,006,007,008,009,3fe C=010 L=d P=5 S=1 U=4294967295,7 Y=10110\n";
    assert!(rt; shows(b"-", &view, 5, line));
}
