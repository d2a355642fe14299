//! The bench between two clocks, and one clock of it.
ghost use Rattle.std.specs.Prelude.{◌≡◌, ℕ, ◌+◌, ◌^◌, ◌<◌, IfOk, IsTrue};
ghost use Rattle.field_decl.specs.Decls.{declaration_of};
ghost use Rattle.bus_script.specs.ScriptFits.{AreBusesFor, IsScriptFor};
ghost use Rattle.flow_sim.specs.Machine.{IsMachineFor, IsOrderFor};
ghost use Rattle.bus_bench.specs.BadShift.{ShiftsUnmasked};
ghost use Rattle.bus_bench.specs.Chip.{bench_start, order_by, parts_at, step_by, view_by, chip_step, chip_view};

use crate::word_at::word_at;
use bus_script::{Buses, ClockView, Script};
use field_decl::{Decl, spread};
use flow_sim::{Machine, Order, array_answer, writes};
use io_base::OutOfMemory;
use mcu_chip::{Mcu, McuOut, step};
use mcu_jumps::Cell;
use prom_split::{WordParts, Words, parts};
use std::alloc::Global;
use std::marker::Model;

/// The 3001 at its present cell, and the machine with its memory.
#[derive(Drop)]
pub(crate) struct Bench {
    /// The present cell.
    pub cell: Cell,
    /// Registers, flags and memory.
    pub machine: Machine,
}

impl Model for Bench {
    ghost use Rattle.bus_bench.specs.Chip.{BenchState};

    ghost Value = { BenchState };

    ghost view = { λ bench. record { cell = bench.cell; machine = bench.machine } };
}

// What the parts of a word order.
#[tactic(auto, unfolding(crate::specs::Chip::order_by))]
fn order_by(decl: &Decl, parts: &WordParts) -> Order
    requires kbits { parts.now.kbits < 2 ^ decl.now.kbus }
    ensures order { result ≡ order_by (declaration_of decl.now) parts.now }
    ensures fits { ShiftsUnmasked parts.now → IsOrderFor decl.now.slices result }
{
    Order {
        func: parts.func,
        mask: spread(decl, parts.kbits),
        ctl: parts.ctl,
        write: writes(decl.write, parts.values.as_slice()),
    }
}

// One clock on these parts at a cell: the next cell, and what is seen.
#[tactic(auto, unfolding(crate::specs::Chip::step_by, crate::specs::Chip::view_by))]
fn clock_on(
    decl: &Decl,
    parts: WordParts,
    cell: Cell,
    machine: &mut Machine,
    buses: &Buses,
) -> (Cell, ClockView)
    requires kbits { parts.kbits < 2 ^ decl.now.kbus }
    requires shift { ShiftsUnmasked parts }
    requires machine { IsMachineFor decl.now.slices machine.old }
    requires early { machine.old.clock + 1 < 2 ^ 32 }
    requires buses { AreBusesFor decl.now.slices buses.now }
    ensures cell { result.0 ≡ (step_by (declaration_of decl.now) parts (record { cell = cell; machine = machine.old }) buses.now).cell }
    ensures machine { machine.new ≡ (step_by (declaration_of decl.now) parts (record { cell = cell; machine = machine.old }) buses.now).machine }
    ensures view { result.1 ≡ view_by (declaration_of decl.now) parts (record { cell = cell; machine = machine.old }) buses.now }
    ensures fits { IsMachineFor decl.now.slices machine.new }
{
    let order = order_by(decl, &parts);
    let answer = array_answer(decl.slices, machine, &order, buses);
    let mcu = Mcu {
        cell,
        f: machine.f,
        c: machine.c,
        z: machine.z,
        pr: machine.pr,
    };
    let out = step(&mcu, parts.jump, parts.ctl, answer.fi, buses.px, buses.sx);
    let view = machine.view(out.ise, out.pr_out, parts.values, answer.links);
    machine.end_clock(&order, &answer, out.mcu.pr);
    (out.mcu.cell, view)
}

impl Bench {
    /// The bench before the first clock: at row 0, column 0, with the memory that the script names, and all else 0.
    #[tactic(auto, unfolding(crate::specs::Chip::bench_start))]
    pub fn start(alloc: Global, script: &Script) -> Result<Bench, OutOfMemory>
        ensures start { IfOk result (λ bench. bench ≡ bench_start script.now) }
        ensures fits { (slices : ℕ) → IsScriptFor slices script.now → IfOk result (λ bench. IsMachineFor slices bench.machine) }
    {
        let machine = Machine::start(alloc, script)?;
        Ok(Bench {
            cell: Cell::at(0, 0),
            machine,
        })
    }

    /// One clock on the word of the present cell, and what is seen of it.
    #[tactic(auto, unfolding(crate::specs::Chip::chip_step, crate::specs::Chip::chip_view))]
    pub fn step(&mut self, words: &Words, decl: &Decl, buses: &Buses) -> ClockView
        requires shift { ShiftsUnmasked (parts_at words.now (declaration_of decl.now) self.old.cell) }
        requires machine { IsMachineFor decl.now.slices self.old.machine }
        requires early { self.old.machine.clock + 1 < 2 ^ 32 }
        requires buses { AreBusesFor decl.now.slices buses.now }
        ensures state { self.new ≡ chip_step words.now (declaration_of decl.now) self.old buses.now }
        ensures view { result ≡ chip_view words.now (declaration_of decl.now) self.old buses.now }
        ensures fits { IsMachineFor decl.now.slices self.new.machine }
    {
        let parts = parts(word_at(words, self.cell), decl);
        let (cell, view) = clock_on(decl, parts, self.cell, &mut self.machine, buses);
        self.cell = cell;
        view
    }
}
