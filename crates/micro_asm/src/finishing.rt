//! The program that accepted lines give.

ghost use Rattle.std.specs.Prelude.{◌≡◌, ◌≤◌, None, map, length, unwrap_or, IfErr, IfOk};
ghost use Rattle.field_decl.specs.Decls.{declaration_of};
ghost use Rattle.field_decl.specs.Layout.{completed};
ghost use Rattle.field_decl.specs.Results.{GivesKind, GivesText, RefusesAt};
ghost use Rattle.flow_graph.specs.Graph.{graph_of};
ghost use Rattle.micro_asm.specs.Source.{label_place, pin_of, instr_of, target_place, unknown_line, built, program_of};

use crate::accepted_lines::{InstrTable, NamedInstr, PinLine, StartLine};
use crate::fault::AsmFault;
use crate::source_state::SourceState;
use crate::unknown_labels::{first_line, unknown_pin, unknown_start, unknown_target};
use field_decl::{AsmKind, Decl, FieldValues, Name};
use flow_graph::{Instr, Instrs, Pin, Pins, Program, Targets};
use std::alloc::{AllocError, Global};

// The label of a name that an instruction has.
fn label_of(instrs: &InstrTable, name: &Name) -> Option<u16>
    requires { length instrs.now ≤ 128 }
    ensures { result ≡ label_place instrs.now name.now }
{
    match instrs.place(name) {
        Some(place) => Some(place as u16),
        None => None,
    }
}

fn target_place(instrs: &InstrTable, target: &Option<Name>) -> Option<u16>
    requires { length instrs.now ≤ 128 }
    ensures { result ≡ target_place instrs.now target.now }
{
    match target {
        Some(name) => label_of(instrs, name),
        None => None,
    }
}

fn targets_of(
    alloc: Global,
    instrs: &InstrTable,
    targets: &[Option<Name>],
) -> Result<Targets, AllocError>
    requires { length instrs.now ≤ 128 }
    ensures { IfOk result (λ labels. labels ≡ map (target_place instrs.now) targets.now) }
{
    let mut labels = Vec::new(alloc);
    for target in targets {
        labels.push(target_place(instrs, target))?;
    }
    Ok(Targets::of(labels))
}

fn pin_of(instrs: &InstrTable, pin: &PinLine) -> Pin
    requires { length instrs.now ≤ 128 }
    ensures { result ≡ pin_of instrs.now pin.now }
{
    Pin {
        label: label_of(instrs, &pin.label).unwrap_or(0),
        cell: pin.cell,
    }
}

fn pins_of(alloc: Global, instrs: &InstrTable, lines: &[PinLine]) -> Result<Pins, AllocError>
    requires { length instrs.now ≤ 128 }
    ensures { IfOk result (λ pins. pins ≡ map (pin_of instrs.now) lines.now) }
{
    let mut pins = Vec::new(alloc);
    for pin in lines {
        pins.push(pin_of(instrs, pin))?;
    }
    Ok(Pins::of(pins))
}

fn copy_values(values: &[u32]) -> FieldValues
    requires { length values.now ≤ 80 }
    ensures { result ≡ values.now }
{
    let mut copied = FieldValues::new();
    for value in values {
        copied.push(*value);
    }
    copied
}

fn instr_of(alloc: Global, table: &InstrTable, named: &NamedInstr) -> Result<Instr, AllocError>
    requires { length table.now ≤ 128 }
    ensures { IfOk result (λ instr. instr ≡ instr_of table.now named.now) }
{
    let targets = targets_of(alloc, table, named.targets.as_slice())?;
    Ok(Instr {
        name: named.label,
        line: named.line,
        func: named.func,
        mask: named.mask,
        ctl: named.ctl,
        values: copy_values(named.values.as_slice()),
        kind: named.kind,
        targets,
    })
}

fn instrs_of(alloc: Global, table: &InstrTable) -> Result<Instrs, AllocError>
    requires { length table.now ≤ 128 }
    ensures { IfOk result (λ instrs. instrs ≡ map (instr_of table.now) table.now) }
{
    let mut instrs = Vec::new(alloc);
    for instr in table.as_slice() {
        instrs.push(instr_of(alloc, table, instr)?)?;
    }
    Ok(Instrs::of(instrs))
}

impl SourceState {
    // The first line that names an unknown label.
    fn unknown_line(&self, start: &StartLine) -> Option<u32>
        ensures { result ≡ unknown_line self.now start.now }
    {
        first_line(
            unknown_start(&self.instrs, start),
            first_line(
                unknown_pin(&self.instrs, self.pins.as_slice()),
                unknown_target(&self.instrs),
            ),
        )
    }

    // The start's label, the pins and the instructions of lines that name known labels alone.
    fn labelled(&self, alloc: Global, start: &StartLine) -> Result<(u16, Pins, Instrs), AllocError>
        requires { unknown_line self.now start.now ≡ None }
        ensures first { IfOk result (λ parts. parts.0 ≡ unwrap_or (label_place self.now.instrs start.now.label) 0) }
        ensures pins { IfOk result (λ parts. parts.1 ≡ map (pin_of self.now.instrs) self.now.pins) }
        ensures instrs { IfOk result (λ parts. parts.2 ≡ map (instr_of self.now.instrs) self.now.instrs) }
    {
        let Some(first) = label_of(&self.instrs, &start.label) else {
            unreachable!()
        };
        let pins = pins_of(alloc, &self.instrs, self.pins.as_slice())?;
        let instrs = instrs_of(alloc, &self.instrs)?;
        Ok((first, pins, instrs))
    }

    // What the lines declare, with the defaults for what they do not give.
    fn declaration(self) -> Result<Decl, AsmKind>
        ensures { GivesKind declaration_of result (completed self.declared) }
    {
        self.decl.finish()
    }

    // The program of lines that name known labels alone.
    fn built(self, alloc: Global, start: &StartLine) -> Result<Program, AsmFault>
        requires { unknown_line self start.now ≡ None }
        ensures { GivesText graph_of result (built self start.now) }
    {
        let (first, pins, instrs) = self.labelled(alloc, start)?;
        let rows = self.rows.unwrap_or(32);
        match self.declaration() {
            Ok(decl) => Ok(Program::new(decl, rows, first, pins, instrs)),
            Err(kind) => Err(AsmFault::At { line: 0, kind }),
        }
    }

    // The start where every line names known labels, or what the whole source lacks, or the first line that names an
    // unknown label.
    #[tactic(auto, unfolding(crate::specs::Source::program_of))]
    fn known_start(&self) -> Result<StartLine, AsmFault>
        ensures known { IfOk result (λ start. unknown_line self.now start ≡ None) }
        ensures given { IfOk result (λ start. program_of self.now ≡ built self.now start) }
        ensures refused { IfErr result (λ fault. RefusesAt fault (program_of self.now)) }
    {
        if self.instrs.as_slice().is_empty() {
            return Err(AsmFault::At {
                line: 0,
                kind: AsmKind::Empty,
            });
        }
        let Some(start) = self.start else {
            return Err(AsmFault::At {
                line: 0,
                kind: AsmKind::NoStart,
            });
        };
        match self.unknown_line(&start) {
            Some(line) => Err(AsmFault::At {
                line,
                kind: AsmKind::UnknownLabel,
            }),
            None => Ok(start),
        }
    }

    /// The program, or what the whole source lacks, or the first line that names an unknown label.
    pub fn finish(self, alloc: Global) -> Result<Program, AsmFault>
        ensures { GivesText graph_of result (program_of self) }
    {
        let start = self.known_start()?;
        self.built(alloc, &start)
    }
}
