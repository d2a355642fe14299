//! Where a jump leads. The definition and docs/machine.md tell it by whole division; here, as in the data sheet's
//! table, the address bits that stay are masked out of the row and the column.
ghost use Rattle.std.specs.Prelude.{◌≡◌, ◌<◌};
ghost use Rattle.mcu_jumps.specs.Position.{IsCell};
ghost use Rattle.mcu_jumps.specs.NextAddress.{next_of, lands, tested, outcome_count};

use crate::{Cell, Code, Jump, Tests};

/// The cell that a jump leads to, by the data sheet. The row group of JCE is this project's own choice.
pub fn next(from: Cell, jump: Jump, tests: Tests) -> Cell
    ensures next { result ≡ next_of from jump tests }
    ensures in_matrix { IsCell result }
{
    landing(from, jump, tested_value(jump.code(), tests))
}

// The value that a code tests.
fn tested_value(code: Code, tests: Tests) -> u8
    ensures value { result ≡ tested code tests }
    ensures in_range { result < outcome_count code }
{
    match code {
        Code::Jcc | Code::Jzr | Code::Jcr | Code::Jce => 0,
        Code::Jfl => u8::from(tests.f),
        Code::Jcf => u8::from(tests.c),
        Code::Jzf => u8::from(tests.z),
        Code::Jpr => tests.pr,
        Code::Jll => tests.pr >> 2,
        Code::Jpx => tests.px,
        Code::Jrl => tests.pr & 3,
    }
}

/// The cell that a jump leads to where the tested value is `outcome`, which is 0 for a code that tests nothing.
pub fn landing(from: Cell, jump: Jump, outcome: u8) -> Cell
    requires { outcome < outcome_count jump.code }
    ensures landing { result ≡ lands from jump outcome }
    ensures in_matrix { IsCell result }
{
    let row = from.row();
    let col = from.col();
    let operand = jump.operand();
    match jump.code() {
        Code::Jcc => Cell::at(operand, col),
        Code::Jzr => Cell::at(0, operand),
        Code::Jcr => Cell::at(row, operand),
        Code::Jfl => Cell::at((row & 0x10) + operand, (col & 8) + 2 + outcome),
        Code::Jcf | Code::Jzf => Cell::at((row & 0x18) + operand, (col & 8) + 2 + outcome),
        Code::Jpr => Cell::at((row & 0x18) + operand, outcome),
        Code::Jll => Cell::at((row & 0x18) + operand, 4 + outcome),
        Code::Jce => Cell::at((row & 0x18) + operand, col),
        Code::Jpx => Cell::at((row & 0x1c) + operand, outcome),
        Code::Jrl => Cell::at((row & 0x18) + 4 + operand, 12 + outcome),
    }
}
