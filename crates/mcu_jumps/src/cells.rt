//! A cell of the address matrix.
ghost use Rattle.std.specs.Prelude.{◌≡◌, ◌<◌, ◌⊎◌, ◌↔◌, IsNone, IfSome, Some};
ghost use Rattle.mcu_jumps.specs.Position.{Position, IsCell, address_of};

use std::marker::Model;

/// A cell of the 3001's address matrix: row 0 to 31, column 0 to 15 (data sheet).
#[derive(Clone, Copy, Debug, PartialEq, Eq)]
pub struct Cell {
    row: u8,
    col: u8,
}

impl Model for Cell {
    ghost use Rattle.std.specs.Prelude.{◌<◌};
    ghost use Rattle.mcu_jumps.specs.Position.{Position};

    ghost Value = { Position };

    ghost view = { λ c. record { row = c.row; col = c.col } };

    ghost invariant = { λ c. (c.row < 32) × (c.col < 16) };

    ghost inverse = { λ p. record { row = p.row; col = p.col } };
}

impl Cell {
    /// The cell of a row and a column; None where the matrix has none.
    pub fn new(row: u8, col: u8) -> Option<Cell>
        ensures none { IsNone result ↔ ((31 < row) ⊎ (15 < col)) }
        ensures some { IfSome result (λ cell. cell ≡ record { row = row; col = col }) }
    {
        if row > 31 || col > 15 {
            return None;
        }
        Some(Cell { row, col })
    }

    /// The cell of a row and a column that are known to be in range.
    pub fn at(row: u8, col: u8) -> Cell
        requires row_in_range { row < 32 }
        requires col_in_range { col < 16 }
        ensures { result ≡ record { row = row; col = col } }
    {
        Cell { row, col }
    }

    /// The row, 0 to 31.
    pub fn row(self) -> u8
        ensures row { result ≡ self.row }
        ensures in_range { result < 32 }
    {
        self.row
    }

    /// The column, 0 to 15.
    pub fn col(self) -> u8
        ensures col { result ≡ self.col }
        ensures in_range { result < 16 }
    {
        self.col
    }

    /// The microprogram address, 0 to 511: the row on MA8..MA4, the column on MA3..MA0 (data sheet).
    pub fn address(self) -> u16
        ensures address { result ≡ address_of self }
        ensures in_range { result < 512 }
    {
        16 * u16::from(self.row) + u16::from(self.col)
    }

    /// The cell of a microprogram address; None above 511.
    pub fn from_address(address: u16) -> Option<Cell>
        ensures none { IsNone result ↔ (511 < address) }
        ensures some { IfSome result (λ cell. (address_of cell ≡ address) × IsCell cell) }
        ensures inverse { (p : Position) → IsCell p → address_of p ≡ address → result ≡ Some p }
    {
        if address > 511 {
            return None;
        }
        Some(Cell {
            row: (address >> 4) as u8,
            col: (address & 15) as u8,
        })
    }
}
