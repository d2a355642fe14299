//! Worked examples of one clock of the 3001, taken from the data sheet's tables by hand.
use mcu_chip::{FlagCtl, Mcu, McuOut, fo, step};
use mcu_jumps::{Cell, Jump};
use std::test::Fail;

/// C and Z.
type Flags = (bool, bool);

/// FC3..FC0; C and Z; the flag input; FO; C and Z after the clock.
const FLAG_CLOCKS: [(u8, Flags, bool, bool, Flags); 9] = [
    (0x0, (false, false), true, false, (true, true)),
    (0x4, (true, true), false, true, (false, false)),
    (0x8, (true, false), true, false, (true, true)),
    (0x5, (false, false), true, false, (false, true)),
    (0x9, (true, true), false, true, (true, false)),
    (0x2, (false, false), true, false, (true, false)),
    (0x6, (true, false), false, true, (false, false)),
    (0xb, (false, true), false, true, (false, true)),
    (0xf, (false, false), true, true, (false, false)),
];

// The chip at the first cell with these C and Z, all else being 0.
fn chip_with(flags: Flags) -> Mcu {
    Mcu {
        cell: Cell::at(0, 0),
        f: false,
        c: flags.0,
        z: flags.1,
        pr: 0,
    }
}

// Whether a clock of this jump leaves the flag input in F, and these C and Z.
fn leaves(chip: &Mcu, jump: Jump, ctl: FlagCtl, fi: bool, flags: Flags) -> bool {
    let mcu = step(chip, jump, ctl, fi, 0, 0).mcu;
    (mcu.f, mcu.c, mcu.z) == (fi, flags.0, flags.1)
}

// Each flag input and output function, from given C and Z.
#[test]
fn flags_of_one_clock(rt: HostRuntime) -> Result<(), Fail> {
    let jump = Jump::decode(0x00).ok_or("JCC 0")?;
    for (fc, flags, fi, out, after) in &FLAG_CLOCKS {
        let ctl = FlagCtl::decode(*fc).ok_or("a value of four bits")?;
        let chip = chip_with(*flags);
        assert!(rt; ctl.encode() == *fc && fo(&chip, ctl) == *out, "FO of {fc}");
        assert!(rt; leaves(&chip, jump, ctl, *fi, *after), "flags of {fc}");
    }
    Ok(())
}

#[test]
fn flag_functions_have_four_bits(rt: HostRuntime) {
    assert_eq!(rt; FlagCtl::decode(16), None);
}

/// Row and column.
type Place = (u8, u8);

/// AC value; a place; the next place; the latch after the clock; the strobe; the PR outputs.
const JUMP_CLOCKS: [(u8, Place, Place, u8, bool, Option<u8>); 12] = [
    (0x1f, (20, 9), (31, 9), 13, false, None),
    (0x24, (20, 9), (0, 4), 13, false, None),
    (0x2f, (31, 7), (0, 15), 13, true, None),
    (0x3f, (5, 3), (5, 15), 13, false, None),
    (0x46, (20, 9), (22, 10), 13, false, None),
    (0x55, (29, 3), (29, 3), 13, false, None),
    (0x5a, (17, 12), (18, 11), 13, false, None),
    (0x67, (10, 2), (15, 13), 13, false, None),
    (0x6b, (18, 1), (19, 7), 13, false, None),
    (0x70, (23, 11), (16, 11), 13, false, Some(5)),
    (0x7b, (22, 6), (23, 11), 6, false, None),
    (0x7d, (8, 3), (13, 13), 13, false, None),
];

// A clock in which F, C and Z were 1 and take 0, the latch was 13, PX is 11 and SX is 6.
fn clock_at(cell: Cell, jump: Jump, set_all: FlagCtl) -> McuOut {
    let chip = Mcu {
        cell,
        f: true,
        c: true,
        z: true,
        pr: 13,
    };
    step(&chip, jump, set_all, false, 11, 6)
}

// Whether a clock leads to this place.
fn leads(out: &McuOut, landing: Place) -> bool {
    let cell = out.mcu.cell;
    (cell.row(), cell.col()) == landing
}

#[test]
fn jumps_of_one_clock(rt: HostRuntime) -> Result<(), Fail> {
    let set_all = FlagCtl::decode(0).ok_or("SCZ, FF0")?;
    for (ac, (row, col), landing, latch, strobe, shown) in &JUMP_CLOCKS {
        let cell = Cell::new(*row, *col).ok_or("a cell")?;
        let jump = Jump::decode(*ac).ok_or("an AC value of seven bits")?;
        let out = clock_at(cell, jump, set_all);
        assert!(rt; leads(&out, *landing), "cell after {ac}");
        assert!(rt; out.mcu.pr == *latch, "latch after {ac}");
        assert!(rt;
            (out.ise, out.pr_out) == (*strobe, *shown),
            "outputs of {ac}"
        );
    }
    Ok(())
}
