//! Why a source gives no program.

use field_decl::{AsmKind, Refusal};

/// Why a source gives no program.
pub type AsmFault = Refusal<AsmKind>;
