//! Programs of sources, and the sources that several tests share.

use flow_graph::Program;
use micro_asm::assemble;
use std::alloc::Global;

/// One instruction that goes to itself.
pub const ONE_INSTRUCTION: &[u8] = b"slices 1
start A
A: NOP R0 | goto A
";

/// A test whose two outcomes are one label: no placement is legal, since that label has two columns.
pub const ONE_LABEL_TWICE: &[u8] = b"slices 1
start A
A: NOP R0 | iff B B
B: NOP R0 | goto B
";

/// The program of a source of at most 100,000 bytes, where it has one.
pub fn program_of(alloc: Global, source: &[u8]) -> Option<Program> {
    if source.len() > 100_000 {
        return None;
    }
    assemble(alloc, source).ok()
}
