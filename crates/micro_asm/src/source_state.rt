//! What the earlier lines of a source say, in tables.

ghost use Rattle.std.specs.Prelude.{◌≡◌, []};
ghost use Rattle.field_decl.specs.Results.{Gives};
ghost use Rattle.micro_asm.specs.declared.source_line.SourceLine.TheVariants as source_lines;
ghost use Rattle.micro_asm.specs.Earlier.{facts_of};
ghost use Rattle.micro_asm.specs.Judging.{is_late};
ghost use Rattle.micro_asm.specs.SourceSteps.{after_source_line};

use crate::accepted_lines::{InstrTable, PinLine, PinTable, StartLine, has_label};
use crate::instruction::read_instruction;
use crate::source_line::SourceLine;
use crate::written_instruction::WrittenInstr;
use field_decl::{AsmKind, DeclState, Directive, LineFault, Name};
use mcu_jumps::Cell;
use std::alloc::Global;
use std::marker::Model;

/// The most instructions of a source.
const INSTRUCTION_LIMIT: usize = 128;

/// What was said so far. Source lines come in one by one, each judged after those before it.
#[derive(Drop)]
pub struct SourceState {
    /// What was declared.
    pub(crate) decl: DeclState,
    /// The row bound, 1 to 32, where it is given.
    pub(crate) rows: Option<u8>,
    /// The start, where it is given.
    pub(crate) start: Option<StartLine>,
    /// The pins.
    pub(crate) pins: PinTable,
    /// The instructions.
    pub(crate) instrs: InstrTable,
}

impl Model for SourceState {
    ghost use Rattle.micro_asm.specs.Earlier.{Facts, IsSound};
    ghost use Rattle.micro_asm.specs.SourceStateView.{facts_in};

    ghost Value = { Facts };

    ghost view = { facts_in };

    ghost invariant = { λ state. IsSound (facts_in state) };
}

impl SourceState {
    /// Nothing is said.
    pub fn new(alloc: Global) -> SourceState
        ensures { result ≡ facts_of [] }
    {
        SourceState {
            decl: DeclState::new(alloc),
            rows: None,
            start: None,
            pins: PinTable::new(alloc),
            instrs: InstrTable::new(alloc),
        }
    }

    // Whether an instruction line came before.
    fn is_late(&self) -> bool
        ensures { result ≡ is_late self.now }
    {
        !self.instrs.as_slice().is_empty()
    }

    #[tactic(auto, unfolding(crate::specs::Judging::judged))]
    fn take_directive(&mut self, line: u32, directive: Directive) -> Result<(), LineFault>
        ensures { Gives (λ _. self.new) result (after_source_line self.old line (source_lines.Declares directive)) }
    {
        if !self.is_late() {
            self.decl.take(directive)
        } else {
            Err(LineFault::Kind(AsmKind::Late))
        }
    }

    #[tactic(auto, unfolding(crate::specs::Judging::judged))]
    fn take_rows(&mut self, line: u32, rows: u128) -> Result<(), LineFault>
        ensures { Gives (λ _. self.new) result (after_source_line self.old line (source_lines.Rows rows)) }
    {
        if self.is_late() {
            return Err(LineFault::Kind(AsmKind::Late));
        }
        if self.rows.is_some() || rows < 1 || rows > 32 {
            return Err(LineFault::Kind(AsmKind::Rows));
        }
        self.rows = Some(rows as u8);
        Ok(())
    }

    #[tactic(auto, unfolding(crate::specs::Judging::judged))]
    fn take_start(&mut self, line: u32, label: Name) -> Result<(), LineFault>
        ensures { Gives (λ _. self.new) result (after_source_line self.old line (source_lines.Start label)) }
    {
        if self.start.is_some() {
            return Err(LineFault::Kind(AsmKind::StartTwice));
        }
        self.start = Some(StartLine { line, label });
        Ok(())
    }

    #[tactic(auto, unfolding(crate::specs::Judging::judged))]
    fn take_pin(&mut self, line: u32, label: Name, row: u128, col: u128) -> Result<(), LineFault>
        ensures { Gives (λ _. self.new) result (after_source_line self.old line (source_lines.Pin label row col)) }
    {
        if row > 31 || col > 15 {
            return Err(LineFault::Kind(AsmKind::PinRange));
        }
        if self.pins.has(&label) {
            return Err(LineFault::Kind(AsmKind::PinTwice));
        }
        let cell = Cell::at(row as u8, col as u8);
        self.pins.push(PinLine { line, label, cell })?;
        Ok(())
    }

    #[tactic(auto, unfolding(crate::specs::Judging::judged))]
    fn take_instruction(&mut self, line: u32, instruction: WrittenInstr) -> Result<(), LineFault>
        ensures { Gives (λ _. self.new) result (after_source_line self.old line (source_lines.Instruct instruction)) }
    {
        let Some(slices) = self.decl.slices() else {
            return Err(LineFault::Kind(AsmKind::Slices));
        };
        if has_label(&self.instrs, &instruction.label) {
            return Err(LineFault::Kind(AsmKind::LabelTwice));
        }
        if self.instrs.as_slice().len() >= INSTRUCTION_LIMIT {
            return Err(LineFault::Kind(AsmKind::TooMany));
        }
        match read_instruction(slices, &self.decl, line, instruction) {
            Ok(instr) => {
                self.instrs.push(instr)?;
                Ok(())
            }
            Err(kind) => Err(LineFault::Kind(kind)),
        }
    }

    /// Takes one line more, or says why it is refused. After a refusal nothing is known of the state.
    #[tactic(auto, unfolding(crate::specs::Judging::judged))]
    pub fn take(&mut self, line: u32, source_line: SourceLine) -> Result<(), LineFault>
        ensures { Gives (λ _. self.new) result (after_source_line self.old line source_line) }
    {
        match source_line {
            SourceLine::Nothing => Ok(()),
            SourceLine::Declares(directive) => self.take_directive(line, directive),
            SourceLine::Rows(rows) => self.take_rows(line, rows),
            SourceLine::Start(label) => self.take_start(line, label),
            SourceLine::Pin(label, row, col) => self.take_pin(line, label, row, col),
            SourceLine::Instruct(instruction) => self.take_instruction(line, instruction),
        }
    }
}
