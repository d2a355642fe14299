//! A jump: a code with its operand, and the seven AC bits that carry both.
ghost use Rattle.std.specs.Prelude.{◌≡◌, ◌<◌, ◌↔◌, IsNone, IfSome, Some};
ghost use Rattle.mcu_jumps.specs.JumpWord.{JumpWord, IsJump, ac_of};

use crate::Code;
use std::marker::Model;

/// A jump code with an operand in the code's range (data sheet).
#[derive(Clone, Copy, Debug, PartialEq, Eq)]
pub struct Jump {
    code: Code,
    operand: u8,
}

impl Model for Jump {
    ghost use Rattle.std.specs.Prelude.{◌<◌};
    ghost use Rattle.mcu_jumps.specs.JumpWord.{JumpWord, operand_count};

    ghost Value = { JumpWord };

    ghost view = { λ j. record { code = j.code; operand = j.operand } };

    ghost invariant = { λ j. j.operand < operand_count j.code };

    ghost inverse = { λ w. record { code = w.code; operand = w.operand } };
}

impl Jump {
    /// The jump of an AC value; None above 127.
    pub fn decode(ac: u8) -> Option<Jump>
        ensures none { IsNone result ↔ (127 < ac) }
        ensures some { IfSome result (λ jump. (ac_of jump ≡ ac) × IsJump jump) }
        ensures inverse { (j : JumpWord) → IsJump j → ac_of j ≡ ac → result ≡ Some j }
    {
        let (code, operand) = match ac {
            0x00..=0x1f => (Code::Jcc, ac & 0x1f),
            0x20..=0x2f => (Code::Jzr, ac & 0x0f),
            0x30..=0x3f => (Code::Jcr, ac & 0x0f),
            0x40..=0x4f => (Code::Jfl, ac & 0x0f),
            0x50..=0x57 => (Code::Jcf, ac & 0x07),
            0x58..=0x5f => (Code::Jzf, ac & 0x07),
            0x60..=0x67 => (Code::Jpr, ac & 0x07),
            0x68..=0x6f => (Code::Jll, ac & 0x07),
            0x70..=0x77 => (Code::Jce, ac & 0x07),
            0x78..=0x7b => (Code::Jpx, ac & 0x03),
            0x7c..=0x7f => (Code::Jrl, ac & 0x03),
            _ => return None,
        };
        Some(Jump { code, operand })
    }

    /// The jump code.
    pub fn code(self) -> Code
        ensures { result ≡ self.code }
    {
        self.code
    }

    /// The operand, below the code's number of operands.
    pub fn operand(self) -> u8
        ensures operand { result ≡ self.operand }
        ensures in_range { IsJump self }
    {
        self.operand
    }

    /// The AC value, AC6..AC0, 0 to 127.
    pub fn encode(self) -> u8
        ensures ac { result ≡ ac_of self }
        ensures in_range { result < 128 }
    {
        let first = match self.code {
            Code::Jcc => 0x00,
            Code::Jzr => 0x20,
            Code::Jcr => 0x30,
            Code::Jfl => 0x40,
            Code::Jcf => 0x50,
            Code::Jzf => 0x58,
            Code::Jpr => 0x60,
            Code::Jll => 0x68,
            Code::Jce => 0x70,
            Code::Jpx => 0x78,
            Code::Jrl => 0x7c,
        };
        first + self.operand
    }
}
