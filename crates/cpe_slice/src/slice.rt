//! The state of a slice: thirteen registers of two bits.

ghost use Rattle.std.specs.Prelude.{◌≡◌, ℕ, ◌<◌, List, replicate};

use crate::register::Reg;
use std::marker::Model;

/// The registers of a slice, each two bits wide, so 0 to 3.
#[derive(Clone, Copy, PartialEq, Eq, Debug)]
pub struct Slice {
    r: [u8; 10],
    t: u8,
    ac: u8,
    mar: u8,
}

impl Model for Slice {
    ghost use Rattle.cpe_slice.specs.Registers.{Registers, AllBelow};

    ghost Value = { Registers };

    ghost view = { λ s. record { r = s.r; t = s.t; ac = s.ac; mar = s.mar } };

    ghost invariant = { λ s. AllBelow 4 (record { r = s.r; t = s.t; ac = s.ac; mar = s.mar }) };

    ghost inverse = { λ w. record { r = w.r; t = w.t; ac = w.ac; mar = w.mar } };
}

impl Slice {
    ghost use Rattle.cpe_slice.specs.Registers.{AllBelow, get, set};
    ghost use Rattle.cpe_slice.specs.FunctionCode.{IsRegister};

    /// A slice whose registers all hold 0, as at the start (this project's own choice).
    pub fn zero() -> Slice
        ensures value { result ≡ record { r = replicate 10 0; t = 0; ac = 0; mar = 0 } }
        ensures below { AllBelow 4 result }
    {
        Slice {
            r: [0; 10],
            t: 0,
            ac: 0,
            mar: 0,
        }
    }

    /// What a register holds.
    pub fn get(&self, reg: Reg) -> u8
        requires { IsRegister reg }
        ensures value { result ≡ get self.now reg }
        ensures below { result < 4 }
    {
        match reg {
            Reg::R(number) => self.r[number as usize],
            Reg::T => self.t,
            Reg::Ac => self.ac,
        }
    }

    /// What the memory address register holds.
    pub fn mar(&self) -> u8
        ensures value { result ≡ self.now.mar }
        ensures below { result < 4 }
    {
        self.mar
    }

    /// Puts a value into a register.
    pub fn set(&mut self, reg: Reg, value: u8)
        requires register { IsRegister reg }
        requires below { value < 4 }
        ensures value { self.new ≡ set self.old reg value }
        ensures below { AllBelow 4 self.new }
    {
        match reg {
            Reg::R(number) => self.r[number as usize] = value,
            Reg::T => self.t = value,
            Reg::Ac => self.ac = value,
        }
    }

    /// Puts a value into the memory address register.
    pub fn set_mar(&mut self, value: u8)
        requires { value < 4 }
        ensures value { self.new ≡ record self.old { mar = value } }
        ensures below { AllBelow 4 self.new }
    {
        self.mar = value;
    }
}
