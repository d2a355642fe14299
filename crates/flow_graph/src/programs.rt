//! A program: declaration, instructions, pins, the row bound and the start, which fit together.
ghost use Rattle.std.specs.Prelude.{◌≡◌, ◌<◌, length, slice_get, Some, IfSome, IfNone};
ghost use Rattle.field_decl.specs.Decls.{declaration_of};
ghost use Rattle.flow_graph.specs.Valid.{IsProgram};
ghost use Rattle.flow_graph.specs.Microwords.{AllFitDeclaration};
ghost use Rattle.flow_graph.specs.Labels.{HasName, HasNoName};

use crate::{Instr, Instrs, Pins};
use field_decl::Decl;

/// A program whose parts fit together. `rows` is the row bound, 1 to 32: a legal placement keeps all
/// rows below it. `start` is the label where the flow begins.
#[derive(Drop)]
pub struct Program {
    decl: Decl,
    rows: u8,
    start: u16,
    pins: Pins,
    instrs: Instrs,
    pub ghost valid: { IsProgram rows start pins instrs },
    pub ghost fits: { AllFitDeclaration (declaration_of decl) instrs },
}

impl Program {
    ghost use Rattle.flow_graph.specs.Graph.{graph_of};

    /// The program of these parts.
    pub fn new(decl: Decl, rows: u8, start: u16, pins: Pins, instrs: Instrs) -> Program
        requires valid { IsProgram rows start pins instrs }
        requires fits { AllFitDeclaration (declaration_of decl) instrs }
        ensures { graph_of result ≡ record { decl = declaration_of decl; rows = rows; start = start; pins = pins; instrs = instrs } }
    {
        Program {
            decl,
            rows,
            start,
            pins,
            instrs,
        }
    }

    /// The chips and the fields of the microword.
    pub fn decl(&self) -> &Decl
        ensures { declaration_of result.now ≡ (graph_of self.now).decl }
    {
        &self.decl
    }

    /// The row bound, 1 to 32.
    pub fn rows(&self) -> u8
        ensures { result ≡ (graph_of self.now).rows }
    {
        self.rows
    }

    /// The label where the flow begins.
    pub fn start(&self) -> u16
        ensures { result ≡ (graph_of self.now).start }
    {
        self.start
    }

    /// The pins.
    pub fn pins(&self) -> &Pins
        ensures { result.now ≡ (graph_of self.now).pins }
    {
        &self.pins
    }

    /// The instructions.
    pub fn instrs(&self) -> &Instrs
        ensures { result.now ≡ (graph_of self.now).instrs }
    {
        &self.instrs
    }

    /// The number of instructions, 1 to 512.
    pub fn len(&self) -> u16
        ensures { result ≡ length (graph_of self.now).instrs }
    {
        self.instrs.as_slice().len() as u16
    }

    /// The instruction at a label.
    pub fn instr(&self, label: u16) -> &Instr
        requires { label < length (graph_of self.now).instrs }
        ensures { slice_get (graph_of self.now).instrs label ≡ Some result.now }
    {
        &self.instrs.as_slice()[label as usize]
    }

    /// The label of a name; None where no instruction has it.
    pub fn find(&self, name: &[u8]) -> Option<u16>
        ensures found { IfSome result (HasName (graph_of self.now).instrs name.now) }
        ensures missing { IfNone result (HasNoName (graph_of self.now).instrs name.now) }
    {
        for label in 0..self.len() {
            if self.instr(label).name.as_slice() == name {
                return Some(label);
            }
        }
        None
    }
}
