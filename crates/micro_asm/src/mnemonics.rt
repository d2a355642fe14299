//! The mnemonics of the operations.

ghost use Rattle.std.specs.Prelude.{◌≡◌, find, IfSome, IsTrue};
ghost use Rattle.std.specs.List.{list_all};
ghost use Rattle.std.specs.Str.{bytes_eq};
ghost use Rattle.micro_asm.specs.Mnemonics.{mnemonic_table, is_sized, IsSized};

use field_decl::Name;

/// A mnemonic, which names an operation. The names are Intel's; which code has which is this project's own
/// table.
#[derive(Clone, Copy)]
pub struct Mnemonic {
    /// Three capital letters.
    pub name: [u8; 3],
    /// The function, 0 to 7.
    pub function: u8,
    /// The register group, 1 to 3.
    pub group: u8,
    /// Whether the mask is all ones; else it is 0.
    pub ones: bool,
}

static MNEMONICS: [Mnemonic; 39] = [
    Mnemonic {
        name: *b"ILR",
        function: 0,
        group: 1,
        ones: false,
    },
    Mnemonic {
        name: *b"ALR",
        function: 0,
        group: 1,
        ones: true,
    },
    Mnemonic {
        name: *b"ACM",
        function: 0,
        group: 2,
        ones: false,
    },
    Mnemonic {
        name: *b"AMA",
        function: 0,
        group: 2,
        ones: true,
    },
    Mnemonic {
        name: *b"SRA",
        function: 0,
        group: 3,
        ones: false,
    },
    Mnemonic {
        name: *b"LMI",
        function: 1,
        group: 1,
        ones: false,
    },
    Mnemonic {
        name: *b"DSM",
        function: 1,
        group: 1,
        ones: true,
    },
    Mnemonic {
        name: *b"LMM",
        function: 1,
        group: 2,
        ones: false,
    },
    Mnemonic {
        name: *b"LDM",
        function: 1,
        group: 2,
        ones: true,
    },
    Mnemonic {
        name: *b"CIA",
        function: 1,
        group: 3,
        ones: false,
    },
    Mnemonic {
        name: *b"DCA",
        function: 1,
        group: 3,
        ones: true,
    },
    Mnemonic {
        name: *b"CSR",
        function: 2,
        group: 1,
        ones: false,
    },
    Mnemonic {
        name: *b"SDR",
        function: 2,
        group: 1,
        ones: true,
    },
    Mnemonic {
        name: *b"CSA",
        function: 2,
        group: 2,
        ones: false,
    },
    Mnemonic {
        name: *b"SDA",
        function: 2,
        group: 2,
        ones: true,
    },
    Mnemonic {
        name: *b"LDI",
        function: 2,
        group: 3,
        ones: true,
    },
    Mnemonic {
        name: *b"INR",
        function: 3,
        group: 1,
        ones: false,
    },
    Mnemonic {
        name: *b"ADR",
        function: 3,
        group: 1,
        ones: true,
    },
    Mnemonic {
        name: *b"INA",
        function: 3,
        group: 3,
        ones: false,
    },
    Mnemonic {
        name: *b"AIA",
        function: 3,
        group: 3,
        ones: true,
    },
    Mnemonic {
        name: *b"CLR",
        function: 4,
        group: 1,
        ones: false,
    },
    Mnemonic {
        name: *b"ANR",
        function: 4,
        group: 1,
        ones: true,
    },
    Mnemonic {
        name: *b"CLA",
        function: 4,
        group: 2,
        ones: false,
    },
    Mnemonic {
        name: *b"ANM",
        function: 4,
        group: 2,
        ones: true,
    },
    Mnemonic {
        name: *b"ANI",
        function: 4,
        group: 3,
        ones: true,
    },
    Mnemonic {
        name: *b"TZR",
        function: 5,
        group: 1,
        ones: true,
    },
    Mnemonic {
        name: *b"LTM",
        function: 5,
        group: 2,
        ones: true,
    },
    Mnemonic {
        name: *b"TZA",
        function: 5,
        group: 3,
        ones: true,
    },
    Mnemonic {
        name: *b"NOP",
        function: 6,
        group: 1,
        ones: false,
    },
    Mnemonic {
        name: *b"ORR",
        function: 6,
        group: 1,
        ones: true,
    },
    Mnemonic {
        name: *b"LMF",
        function: 6,
        group: 2,
        ones: false,
    },
    Mnemonic {
        name: *b"ORM",
        function: 6,
        group: 2,
        ones: true,
    },
    Mnemonic {
        name: *b"ORI",
        function: 6,
        group: 3,
        ones: true,
    },
    Mnemonic {
        name: *b"CMR",
        function: 7,
        group: 1,
        ones: false,
    },
    Mnemonic {
        name: *b"XNR",
        function: 7,
        group: 1,
        ones: true,
    },
    Mnemonic {
        name: *b"LCM",
        function: 7,
        group: 2,
        ones: false,
    },
    Mnemonic {
        name: *b"XNM",
        function: 7,
        group: 2,
        ones: true,
    },
    Mnemonic {
        name: *b"CMA",
        function: 7,
        group: 3,
        ones: false,
    },
    Mnemonic {
        name: *b"XNI",
        function: 7,
        group: 3,
        ones: true,
    },
];

// The first row of this name.
fn find_row(rows: &[Mnemonic], name: &Name) -> Option<Mnemonic>
    requires { IsTrue (list_all is_sized rows.now) }
    ensures row { result ≡ find (λ row. bytes_eq name.now row.name) rows.now }
    ensures sized { IfSome result (λ row. IsSized row) }
{
    for row in rows {
        if name.is(&row.name) {
            return Some(*row);
        }
    }
    None
}

/// The operation of this name, or None where the table has no such name.
pub fn find_mnemonic(name: &Name) -> Option<Mnemonic>
    ensures row { result ≡ find (λ row. bytes_eq name.now row.name) mnemonic_table }
    ensures sized { IfSome result (λ row. IsSized row) }
{
    find_row(&MNEMONICS, name)
}
