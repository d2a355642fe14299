//! Worked examples: next addresses and reaching jumps, taken from the data sheet's table by hand
//! and by a program that is no part of this repository.
ghost use Rattle.std.specs.Prelude.{◌<◌, IfSome};

use mcu_jumps::{Cell, Jump, Kind, Tests, next, outcomes, reach};
use std::test::Fail;

/// Row and column.
type Place = (u8, u8);

/// The name of a code and an AC value; a place; F, C, Z; PR latch and PX; the next place.
type Landing = (&'static str, u8, Place, (u8, u8, u8), (u8, u8), Place);

/// The next address of each code, with both values of each flag, and other flags that differ.
const LANDINGS: [Landing; 25] = [
    ("JCC", 0x1f, (20, 9), (0, 1, 1), (3, 5), (31, 9)),
    ("JCC", 0x00, (0, 15), (1, 0, 0), (12, 9), (0, 15)),
    ("JZR", 0x2f, (31, 7), (0, 1, 1), (3, 5), (0, 15)),
    ("JZR", 0x24, (20, 9), (1, 0, 0), (12, 9), (0, 4)),
    ("JCR", 0x30, (20, 9), (0, 1, 1), (3, 5), (20, 0)),
    ("JCR", 0x3f, (5, 3), (1, 0, 0), (12, 9), (5, 15)),
    ("JFL", 0x46, (20, 9), (0, 1, 1), (3, 5), (22, 10)),
    ("JFL", 0x46, (20, 9), (1, 0, 0), (3, 5), (22, 11)),
    ("JFL", 0x4f, (13, 7), (1, 0, 0), (3, 5), (15, 3)),
    ("JCF", 0x55, (29, 3), (1, 0, 1), (3, 5), (29, 2)),
    ("JCF", 0x55, (29, 3), (0, 1, 0), (3, 5), (29, 3)),
    ("JCF", 0x57, (11, 8), (0, 1, 0), (3, 5), (15, 11)),
    ("JZF", 0x5a, (17, 12), (1, 1, 0), (3, 5), (18, 10)),
    ("JZF", 0x5a, (17, 12), (0, 0, 1), (3, 5), (18, 11)),
    ("JZF", 0x58, (8, 6), (0, 0, 1), (3, 5), (8, 3)),
    ("JPR", 0x67, (10, 2), (0, 1, 1), (13, 2), (15, 13)),
    ("JPR", 0x61, (25, 14), (1, 0, 0), (0, 15), (25, 0)),
    ("JLL", 0x6b, (18, 1), (0, 1, 1), (6, 12), (19, 5)),
    ("JLL", 0x6f, (7, 15), (1, 0, 0), (15, 0), (7, 7)),
    ("JCE", 0x70, (23, 11), (0, 1, 1), (3, 5), (16, 11)),
    ("JCE", 0x77, (8, 4), (1, 0, 0), (12, 9), (15, 4)),
    ("JPX", 0x7b, (22, 6), (0, 1, 1), (4, 11), (23, 11)),
    ("JPX", 0x78, (9, 0), (1, 0, 0), (15, 0), (8, 0)),
    ("JRL", 0x7d, (8, 3), (0, 1, 1), (6, 9), (13, 14)),
    ("JRL", 0x7f, (31, 8), (1, 0, 0), (15, 0), (31, 15)),
];

// Whether this AC value has a code of this name, and is that of its jump.
fn is_code(jump: Jump, name: &str, ac: u8) -> bool {
    jump.code().name() == name && jump.encode() == ac
}

// Whether the jump leads from a cell to this place.
fn leads(from: Cell, jump: Jump, tests: Tests, landing: Place) -> bool
    requires { (tests.pr < 16) × (tests.px < 16) }
{
    let to = next(from, jump, tests);
    (to.row(), to.col()) == landing
}

// What is tested: F, C, Z; PR latch and PX.
fn tests_of(flags: (u8, u8, u8), pr: u8, px: u8) -> Option<Tests>
    ensures { IfSome result (λ tests. (tests.pr < 16) × (tests.px < 16)) }
{
    if pr >= 16 || px >= 16 {
        return None;
    }
    Some(Tests {
        f: flags.0 == 1,
        c: flags.1 == 1,
        z: flags.2 == 1,
        pr,
        px,
    })
}

#[test]
fn next_addresses(rt: HostRuntime) -> Result<(), Fail> {
    for (name, ac, (row, col), flags, (pr, px), landing) in &LANDINGS {
        let jump = Jump::decode(*ac).ok_or("an AC value of seven bits")?;
        assert!(rt; is_code(jump, name, *ac));
        let from = Cell::new(*row, *col).ok_or("a cell")?;
        let tests = tests_of(*flags, *pr, *px).ok_or("four bits")?;
        assert!(rt;
            leads(from, jump, tests, *landing),
            "from {row}.{col} by {ac}"
        );
    }
    Ok(())
}

/// A kind, a place, the place of the first target, and the AC value of the least jump to it, the others being free.
const REACHES: [(Kind, Place, Place, Option<u8>); 9] = [
    (Kind::OnRight, (8, 3), (13, 12), Some(0x7d)),
    (Kind::OnRight, (8, 3), (9, 12), None),
    (Kind::Goto, (5, 3), (0, 15), None),
    (Kind::Strobe, (5, 3), (0, 15), Some(0x2f)),
    (Kind::Goto, (0, 0), (0, 15), Some(0x3f)),
    (Kind::Goto, (0, 0), (0, 0), Some(0x00)),
    (Kind::Goto, (7, 3), (0, 9), Some(0x29)),
    (Kind::IfF, (20, 9), (22, 10), Some(0x46)),
    (Kind::Enable, (20, 9), (22, 9), Some(0x76)),
];

// The AC value of the least jump from a cell to the first target, the others being free.
fn reached(from: Cell, kind: Kind, to: Cell) -> Option<u8> {
    let mut targets = [None; 16];
    targets[0] = Some(to);
    reach(from, kind, &targets[..outcomes(kind) as usize]).map(Jump::encode)
}

#[test]
fn least_jumps_that_reach(rt: HostRuntime) -> Result<(), Fail> {
    for (kind, (row, col), (to_row, to_col), ac) in &REACHES {
        let from = Cell::new(*row, *col).ok_or("a cell")?;
        let to = Cell::new(*to_row, *to_col).ok_or("a cell")?;
        assert!(rt;
            reached(from, *kind, to) == *ac,
            "from {row}.{col} to {to_row}.{to_col}"
        );
    }
    Ok(())
}

// The ends of the ranges of rows, columns, addresses and AC values.
#[test]
fn ranges_end_where_the_matrix_ends(rt: HostRuntime) -> Result<(), Fail> {
    assert_eq!(rt; Cell::new(32, 0), None);
    assert_eq!(rt; Cell::new(0, 16), None);
    let last = Cell::new(31, 15).ok_or("the last cell")?;
    assert_eq!(rt; last.address(), 511);
    assert_eq!(rt; Cell::from_address(511), Some(last));
    assert_eq!(rt; Cell::from_address(512), None);
    assert_eq!(rt; Jump::decode(128), None);
    Ok(())
}
