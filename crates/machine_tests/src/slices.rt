//! Clocks of one slice whose outcomes were worked out apart from this program, from the data sheet's table, and codes
//! taken from the data sheet.
ghost use Rattle.std.specs.Prelude.{◌<◌};
ghost use Rattle.cpe_slice.specs.FunctionCode.{IsRegister};

use cpe_slice::{Fn7, Reg, Slice, SliceOut};
use std::test::Fail;

/// Function, group and register; their code; whether it is the right shift.
const CODES: [(u8, u8, Reg, u8, bool); 8] = [
    (0, 1, Reg::R(0), 0x00, false),
    (1, 1, Reg::R(9), 0x19, false),
    (2, 2, Reg::T, 0x2a, false),
    (3, 2, Reg::Ac, 0x3b, false),
    (4, 1, Reg::T, 0x4c, false),
    (5, 1, Reg::Ac, 0x5d, false),
    (0, 3, Reg::T, 0x0e, true),
    (7, 3, Reg::Ac, 0x7f, false),
];

// Whether a function of a register in a group has this code, or none.
fn has_code(function: u8, group: u8, reg: Reg, code: Option<Fn7>) -> bool {
    Fn7::of(function, group, reg) == code
}

// Whether a code has this number, and these parts.
fn has_parts(f: Fn7, code: u8, function: u8, group: u8, reg: Reg) -> bool {
    (f.code(), f.function(), f.group()) == (code, function, group) && f.register() == reg
}

#[test]
fn codes_and_their_parts(rt: HostRuntime) -> Result<(), Fail> {
    for (function, group, reg, code, is_shift) in &CODES {
        let f = Fn7::new(*code).ok_or("a code")?;
        assert!(rt; has_code(*function, *group, *reg, Some(f)), "code {code}");
        assert!(rt;
            has_parts(f, *code, *function, *group, *reg),
            "parts of {code}"
        );
        assert!(rt; f.is_shift() == *is_shift, "shift of {code}");
    }
    Ok(())
}

/// Function, group and register that have no code.
const NO_CODES: [(u8, u8, Reg); 6] = [
    (8, 1, Reg::T),
    (0, 0, Reg::T),
    (0, 4, Reg::Ac),
    (0, 1, Reg::R(10)),
    (0, 2, Reg::R(0)),
    (0, 3, Reg::R(9)),
];

#[test]
fn parts_without_a_code(rt: HostRuntime) {
    for (function, group, reg) in &NO_CODES {
        assert!(rt;
            has_code(*function, *group, *reg, None),
            "{function} in {group}"
        );
    }
    assert_eq!(rt; Fn7::new(128), None);
}

/// The register among R0 to R9 that a code names (R0 where it names none), T, AC and MAR.
type Named = [u8; 4];

/// A function code; the buses K, M and I; CI and LI; the registers before the clock, and after it; CO and RO.
const CLOCKS: [(u8, [u8; 3], (u8, u8), Named, Named, (u8, u8)); 24] = [
    (0x02, [3, 3, 1], (1, 0), [3, 2, 2, 2], [2, 2, 2, 2], (1, 0)),
    (0x0b, [3, 3, 2], (0, 0), [3, 0, 0, 3], [3, 0, 3, 3], (0, 0)),
    (0x0e, [0, 1, 2], (1, 1), [3, 3, 0, 2], [3, 3, 0, 2], (0, 1)),
    (0x1c, [2, 2, 2], (1, 0), [0, 2, 3, 0], [0, 1, 3, 2], (1, 0)),
    (0x1a, [3, 3, 2], (0, 1), [1, 2, 1, 2], [1, 2, 1, 3], (1, 0)),
    (0x1f, [3, 0, 1], (1, 0), [1, 0, 1, 2], [1, 0, 1, 2], (1, 0)),
    (0x29, [2, 0, 2], (1, 0), [3, 3, 1, 2], [0, 3, 1, 2], (1, 0)),
    (0x2b, [3, 3, 1], (1, 1), [2, 1, 3, 2], [2, 1, 3, 2], (1, 0)),
    (0x2e, [3, 1, 1], (1, 1), [3, 2, 1, 3], [3, 1, 1, 3], (1, 0)),
    (0x3d, [3, 1, 2], (0, 0), [1, 0, 3, 2], [1, 0, 2, 2], (1, 0)),
    (0x3a, [1, 2, 1], (1, 1), [1, 3, 0, 1], [1, 3, 0, 1], (0, 0)),
    (0x3f, [1, 0, 0], (0, 0), [0, 1, 1, 0], [0, 1, 1, 0], (0, 0)),
    (0x42, [3, 1, 2], (0, 0), [0, 2, 2, 1], [0, 2, 2, 1], (0, 0)),
    (0x4b, [2, 0, 2], (0, 0), [3, 2, 1, 1], [3, 2, 0, 1], (0, 0)),
    (0x4e, [1, 3, 3], (1, 1), [0, 1, 0, 2], [0, 1, 0, 2], (1, 0)),
    (0x5c, [2, 1, 0], (0, 0), [0, 0, 0, 0], [0, 0, 0, 0], (0, 0)),
    (0x5a, [1, 2, 3], (1, 0), [3, 3, 1, 1], [3, 0, 1, 1], (1, 0)),
    (0x5f, [3, 1, 3], (1, 0), [3, 0, 0, 1], [3, 0, 0, 1], (1, 0)),
    (0x69, [1, 2, 0], (0, 1), [1, 0, 1, 2], [1, 0, 1, 2], (1, 0)),
    (0x6b, [1, 1, 0], (1, 0), [3, 0, 0, 1], [3, 0, 1, 1], (1, 0)),
    (0x6e, [3, 2, 0], (1, 1), [3, 3, 1, 3], [3, 3, 1, 3], (1, 0)),
    (0x7d, [3, 3, 2], (0, 0), [3, 0, 3, 0], [3, 0, 3, 0], (1, 0)),
    (0x7a, [2, 1, 3], (1, 0), [0, 0, 3, 0], [0, 0, 3, 0], (1, 0)),
    (0x7f, [2, 0, 3], (0, 1), [2, 2, 0, 1], [2, 2, 1, 1], (0, 0)),
];

// The register among R0 to R9 that a code names, R0 where it names none.
fn numbered(f: Fn7) -> Reg
    ensures { IsRegister result }
{
    match f.register() {
        Reg::R(number) => Reg::R(number),
        _ => Reg::R(0),
    }
}

// The slice with these registers of two bits, the others being 0.
fn slice_of(f: Fn7, named: Named) -> Option<Slice> {
    let [r, t, ac, mar] = named;
    if r > 3 || t > 3 || ac > 3 || mar > 3 {
        return None;
    }
    let mut slice = Slice::zero();
    slice.set(numbered(f), r);
    slice.set(Reg::T, t);
    slice.set(Reg::Ac, ac);
    slice.set_mar(mar);
    Some(slice)
}

// A clock with CI and LI, on buses of two bits that do not mask the right shift.
fn clocked(slice: &Slice, f: Fn7, buses: [u8; 3], lines: (u8, u8)) -> Option<SliceOut> {
    let [k, m, i] = buses;
    if k > 3 || m > 3 || i > 3 || f.is_shift() && k != 0 {
        return None;
    }
    Some(slice.step(f, k, m, i, lines.0 == 1, lines.1 == 1))
}

// Whether a slice has this AC and this MAR.
fn has_ac_and_mar(slice: &Slice, ac: u8, mar: u8) -> bool {
    slice.get(Reg::Ac) == ac && slice.mar() == mar
}

#[test]
fn every_function_and_group(rt: HostRuntime) -> Result<(), Fail> {
    for (code, buses, lines, before, after, (co, ro)) in &CLOCKS {
        let f = Fn7::new(*code).ok_or("a code")?;
        let slice = slice_of(f, *before).ok_or("registers of two bits")?;
        let out = clocked(&slice, f, *buses, *lines).ok_or("buses")?;
        assert!(rt;
            Some(out.slice) == slice_of(f, *after),
            "registers after {code}"
        );
        assert!(rt;
            has_ac_and_mar(&out.slice, after[2], after[3]),
            "AC and MAR after {code}"
        );
        assert!(rt;
            (out.co, out.ro) == (*co == 1, *ro == 1),
            "outputs of {code}"
        );
    }
    Ok(())
}
