//! What is kept from clock to clock, but for the place: registers, flags and memory.

ghost use Rattle.std.specs.Prelude.{◌≡◌, ℕ, ◌+◌, ◌%◌, ◌^◌, ◌<◌, List, length, map, All, Option, IfOk, IfSome, OnOk, slice_set, if◌then◌else◌};
ghost use Rattle.mcu_chip.specs.FlagStep.{flag_out, next_c, next_z};
ghost use Rattle.cpe_slice.specs.Registers.{AllBelow};
ghost use Rattle.slice_array.specs.Regs.{registers_of};
ghost use Rattle.bus_script.specs.ScriptFits.{IsScriptFor};
ghost use Rattle.flow_sim.specs.Machine.{IsMachineFor, first_words, start_machine, m_bus, fo_of, readings_of, changed, seen};

use crate::answering::ArrayAnswer;
use crate::order::Order;
use bus_script::{ClockView, Script, initial};
use field_decl::FieldValues;
use io_base::OutOfMemory;
use mcu_chip::{flag_out, next_c, next_z};
use mcu_jumps::Tests;
use slice_array::Regs;
use std::alloc::Global;
use std::marker::Model;

/// What one clock leaves to the next, but for the place: the array, the flags and the memory of 4,096 words. Memory
/// and start are this project's own choice.
#[derive(Drop)]
pub struct Machine {
    /// The number of the clock that begins, from 0.
    pub clock: u32,
    /// The registers of the array.
    pub regs: Regs,
    /// The F latch: the last clock's flag input.
    pub f: bool,
    /// The C flag.
    pub c: bool,
    /// The Z flag.
    pub z: bool,
    /// The PR latch, 0 to 15.
    pub pr: u8,
    memory: Vec<u32>,
}

impl Model for Machine {
    ghost use Rattle.slice_array.specs.Regs.{registers_of};
    ghost use Rattle.flow_sim.specs.Machine.{Machine};

    ghost Value = { Machine };

    ghost view = { λ machine. record {
      clock = machine.clock;
      registers = registers_of machine.regs;
      f = machine.f;
      c = machine.c;
      z = machine.z;
      pr = machine.pr;
      memory = machine.memory.items;
    } };
}

impl Machine {
    /// The machine before the first clock: the memory holds what the script names, and all else is 0.
    #[tactic(auto, unfolding(crate::specs::Machine::start_machine))]
    pub fn start(alloc: Global, script: &Script) -> Result<Machine, OutOfMemory>
        ensures start { IfOk result (λ machine. machine ≡ start_machine script.now) }
        ensures fits { (slices : ℕ) → IsScriptFor slices script.now → IfOk result (IsMachineFor slices) }
    {
        let memory = start_memory(alloc, script)?;
        Ok(Machine {
            clock: 0,
            regs: Regs {
                r: [0; 10],
                t: 0,
                ac: 0,
                mar: 0,
            },
            f: false,
            c: false,
            z: false,
            pr: 0,
            memory,
        })
    }

    /// What stands on the M bus: what the script drives, else the word of the memory that MAR addresses. MAR counts
    /// modulo 4,096.
    pub(crate) fn m_bus(&self, m: Option<u32>) -> u32
        requires { length self.now.memory ≡ 4096 }
        ensures value { result ≡ m_bus m self.now }
        ensures fits { (slices : ℕ) → IsMachineFor slices self.now → IfSome m (λ word. word < 4 ^ slices) → result < 4 ^ slices }
    {
        match m {
            Some(word) => word,
            None => self.memory[(self.regs.mar % 4096) as usize],
        }
    }

    /// The flag output FO, from C and Z as the clock begins.
    pub(crate) fn fo(&self, order: &Order) -> bool
        ensures { result ≡ fo_of order.now self.now }
    {
        flag_out(order.ctl.output, self.c, self.z)
    }

    /// What decides where the flow goes on, in a clock whose flag input is `fi`, where PX7..PX4 is `px`.
    pub fn tests(&self, fi: bool, px: u8) -> Tests
        requires latch { self.now.pr < 16 }
        requires px { px < 16 }
        ensures { result ≡ readings_of self.now fi px }
    {
        Tests {
            f: fi,
            c: self.c,
            z: self.z,
            pr: self.pr,
            px,
        }
    }

    /// What is seen of a clock as it begins, with this interrupt strobe, these PR outputs, these user fields and
    /// these links.
    pub fn view(&self, ise: bool, pr_out: Option<u8>, values: FieldValues, links: u32) -> ClockView
        ensures { result ≡ seen self.now ise pr_out values links }
    {
        ClockView {
            clock: self.clock,
            regs: self.regs,
            f: self.f,
            c: self.c,
            z: self.z,
            pr: self.pr,
            pr_out,
            ise,
            values,
            links,
        }
    }

    /// Ends a clock in which the array gave this answer. The PR latch is then `pr`. Where the order writes, the memory
    /// takes the old AC at the old MAR, which counts modulo 4,096.
    pub fn end_clock(&mut self, order: &Order, answer: &ArrayAnswer, pr: u8)
        requires words { length self.old.memory ≡ 4096 }
        requires early { self.old.clock + 1 < 2 ^ 32 }
        ensures after { self.new ≡ changed order.now (registers_of answer.now.regs) answer.now.fi pr self.old }
        ensures fits { (slices : ℕ) → IsMachineFor slices self.old → AllBelow (4 ^ slices) (registers_of answer.now.regs) → pr < 16 → IsMachineFor slices self.new }
    {
        store(&mut self.memory, self.regs.mar, self.regs.ac, order.write);
        self.clock += 1;
        self.regs = answer.regs;
        self.c = next_c(order.ctl.input, self.c, answer.fi);
        self.z = next_z(order.ctl.input, self.z, answer.fi);
        self.f = answer.fi;
        self.pr = pr;
    }
}

// The 4,096 words of the memory before the first clock.
fn start_memory(alloc: Global, script: &Script) -> Result<Vec<u32>, OutOfMemory>
    ensures words { IfOk result (λ memory. memory.items ≡ first_words script.now 4096) }
    ensures fits { (slices : ℕ) → IsScriptFor slices script.now → IfOk result (λ memory. All (λ word. word < 4 ^ slices) memory.items) }
{
    let mut memory = Vec::with_capacity(alloc, 4096)?;
    for address in 0..4096u16 {
        memory.push(initial(script, address))?;
    }
    Ok(memory)
}

// Writes a word where the memory is written.
fn store(memory: &mut Vec<u32>, mar: u32, word: u32, write: bool)
    requires { length memory.old.items ≡ 4096 }
    ensures words { memory.new.items ≡ if write then slice_set memory.old.items (mar % 4096) word else memory.old.items }
    ensures fits { (limit : ℕ) → word < limit → All (λ w. w < limit) memory.old.items → All (λ w. w < limit) memory.new.items }
{
    if write {
        memory[(mar % 4096) as usize] = word;
    }
}
