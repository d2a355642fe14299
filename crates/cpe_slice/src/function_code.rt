//! The function code F6..F0: the function in its upper three bits, a register and its group in the lower four.

ghost use Rattle.std.specs.Prelude.{◌≡◌, ℕ, ◌+◌, ◌*◌, ◌<◌, ◌≤◌, ◌↔◌, IsSome, IfSome, IsSomeAnd};
ghost use Rattle.cpe_slice.specs.FunctionCode.{function_of, group_of, register_of, is_shift, selector_of, HasRegister, IsRegister};

use crate::register::Reg;
use std::marker::Model;

/// A function code F6..F0 of the 3002 (data sheet). Contracts see it as its number, 0 to 127.
#[derive(Clone, Copy, PartialEq, Eq, Debug)]
pub struct Fn7 {
    code: u8,
}

impl Model for Fn7 {
    ghost use Rattle.std.specs.Prelude.{ℕ, ◌<◌};

    ghost Value = { ℕ };

    ghost view = { λ f. f.code };

    ghost invariant = { λ f. f.code < 128 };

    ghost inverse = { λ n. record { code = n } };
}

impl Fn7 {
    /// The code of that number; None above 127.
    pub fn new(code: u8) -> Option<Fn7>
        ensures some { IsSome result ↔ (code < 128) }
        ensures value { IfSome result (λ f. f ≡ code) }
        ensures below { IfSome result (λ f. f < 128) }
    {
        if code < 128 { Some(Fn7 { code }) } else { None }
    }

    /// The code of a function of a register in a group; None where the function is above 7 or the group has no such
    /// register. R0 to R9 are in group 1 alone; T and AC are in all three.
    pub fn of(function: u8, group: u8, reg: Reg) -> Option<Fn7>
        ensures some { IsSome result ↔ ((function < 8) × HasRegister group reg) }
        ensures value { IfSome result (λ f. f ≡ 16 * function + selector_of group reg) }
        ensures below { IfSome result (λ f. f < 128) }
        ensures function { IfSome result (λ f. function_of f ≡ function) }
        ensures group { IfSome result (λ f. group_of f ≡ group) }
        ensures register { IfSome result (λ f. register_of f ≡ reg) }
    {
        if function > 7 {
            return None;
        }
        let selector = selector(group, reg)?;
        Some(Fn7 {
            code: 16 * function + selector,
        })
    }

    /// The number F6..F0, 0 to 127.
    pub fn code(self) -> u8
        ensures value { result ≡ self }
        ensures below { result < 128 }
    {
        self.code
    }

    /// F6..F4: the function, 0 to 7.
    pub fn function(self) -> u8
        ensures value { result ≡ function_of self }
        ensures below { result < 8 }
    {
        self.code / 16
    }

    /// The register group, 1 to 3.
    pub fn group(self) -> u8
        ensures value { result ≡ group_of self }
        ensures range { (1 ≤ result) × (result ≤ 3) }
    {
        match self.code % 16 {
            0..=9 | 12 | 13 => 1,
            10 | 11 => 2,
            _ => 3,
        }
    }

    /// The register. In group 2 it is where the result goes, and the operand comes from the M bus.
    pub fn register(self) -> Reg
        ensures value { result ≡ register_of self }
        ensures in_group { HasRegister (group_of self) result }
    {
        match self.code % 16 {
            10 | 12 | 14 => Reg::T,
            11 | 13 | 15 => Reg::Ac,
            number => Reg::R(number),
        }
    }

    /// Whether this is the right shift: function 0 of group 3.
    #[tactic(auto, unfolding(crate::specs::FunctionCode::is_shift))]
    pub fn is_shift(self) -> bool
        ensures { result ≡ is_shift self }
    {
        self.code == 14 || self.code == 15
    }
}

// F3..F0.
fn selector(group: u8, reg: Reg) -> Option<u8>
    ensures some { IsSome result ↔ HasRegister group reg }
    ensures value { IfSome result (λ selector. selector ≡ selector_of group reg) }
    ensures below { IfSome result (λ selector. selector < 16) }
    ensures group { IfSome result (λ selector. group_of selector ≡ group) }
    ensures register { IfSome result (λ selector. register_of selector ≡ reg) }
{
    match (group, reg) {
        (1, Reg::R(number)) if number < 10 => Some(number),
        (1, Reg::T) => Some(12),
        (1, Reg::Ac) => Some(13),
        (2, Reg::T) => Some(10),
        (2, Reg::Ac) => Some(11),
        (3, Reg::T) => Some(14),
        (3, Reg::Ac) => Some(15),
        _ => None,
    }
}
