//! Clocks of arrays whose outcomes were worked out apart from this program, from the data sheet's table on whole words.
mod clock_rows;

ghost use Rattle.std.specs.Prelude.{◌≡◌, ℕ, ◌<◌, ◌≤◌, ◌^◌, IfSome};
ghost use Rattle.cpe_slice.specs.Registers.{AllBelow};
ghost use Rattle.slice_array.specs.Regs.{registers_of};

use clock_rows::{CLOCKS, Given, Named};
use cpe_slice::{Fn7, Reg};
use slice_array::{Array, ArrayOut, Regs, with_slices};
use std::test::Fail;

const ZERO: Regs = Regs {
    r: [0; 10],
    t: 0,
    ac: 0,
    mar: 0,
};

#[test]
fn carry_through_sixteen_slices(rt: HostRuntime) -> Result<(), Fail> {
    let mut regs = Array::<16>::zero().regs();
    assert_eq!(rt; regs, ZERO);
    regs.r[0] = 0xffff_ffff;
    let mut array = Array::<16>::of(&regs);
    let f = Fn7::new(0x00).ok_or("code")?;
    let out = array.step(f, 0, 0, 0, true);
    assert_eq!(rt; array.regs(), ZERO);
    assert_eq!(rt;
        out,
        ArrayOut {
            fi: true,
            links: 0xffff
        }
    );
    Ok(())
}

#[test]
fn right_shift_of_three_slices(rt: HostRuntime) -> Result<(), Fail> {
    let mut regs = ZERO;
    regs.ac = 0x21;
    let mut array = Array::<3>::of(&regs);
    let f = Fn7::new(0x0f).ok_or("code")?;
    let out = array.step(f, 0, 0, 0, true);
    regs.ac = 0x30;
    assert_eq!(rt; array.regs(), regs);
    assert_eq!(rt;
        out,
        ArrayOut {
            fi: true,
            links: 0b001
        }
    );
    Ok(())
}

/// 4^16, which no word of sixteen slices reaches.
const WORD_LIMIT: u64 = 1 << 32;

// The number of the register among R0 to R9 that a code names, 0 where it names none.
fn r_number(f: Fn7) -> usize
    ensures { result < 10 }
{
    match f.register() {
        Reg::R(number) => number as usize,
        _ => 0,
    }
}

// The registers of an array whose words are below the limit.
fn registers(limit: u64, number: usize, named: &Named) -> Option<Regs>
    requires { number < 10 }
    ensures { IfSome result (λ regs. AllBelow limit (registers_of regs)) }
{
    let [r, t, ac, mar] = *named;
    let greatest = r.max(t).max(ac).max(mar);
    if u64::from(greatest) >= limit {
        return None;
    }
    let mut regs = Regs { t, ac, mar, ..ZERO };
    regs.r[number] = r;
    Some(regs)
}

// A clock of `N` slices, where the words fit and the right shift is not masked.
fn clock_of<const N: usize>(f: Fn7, given: &Given, before: &Named) -> Option<(Regs, ArrayOut)>
    requires { (0 < N) × (N ≤ 16) }
{
    let [_, _, k, m, i, fo] = *given;
    let limit = 4u64.checked_pow(N as u32)?;
    if u64::from(k) >= limit || u64::from(m) >= limit || u64::from(i) >= limit {
        return None;
    }
    if f.is_shift() && k != 0 {
        return None;
    }
    let mut array = Array::<N>::of(&registers(limit, r_number(f), before)?);
    let out = array.step(f, k, m, i, fo == 1);
    Some((array.regs(), out))
}

// A clock of the slices that are given.
fn clocked(f: Fn7, given: &Given, before: &Named) -> Option<(Regs, ArrayOut)> {
    let slices = given[0];
    if slices < 1 || slices > 16 {
        return None;
    }
    with_slices!(slices, clock_of(f, given, before))
}

// The code of a number, where it has one.
fn code_of(number: u32) -> Option<Fn7> {
    Fn7::new(u8::try_from(number).ok()?)
}

#[test]
fn every_function_and_group(rt: HostRuntime) -> Result<(), Fail> {
    for (given, before, after, [links, fi]) in &CLOCKS {
        let f = code_of(given[1]).ok_or("a code")?;
        let (regs, out) = clocked(f, given, before).ok_or("words that fit")?;
        let code = f.code();
        assert!(rt;
            Some(regs) == registers(WORD_LIMIT, r_number(f), after),
            "registers after {code}"
        );
        assert!(rt;
            (out.links, out.fi) == (*links, *fi == 1),
            "outputs of {code}"
        );
    }
    Ok(())
}
