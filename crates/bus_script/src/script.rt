//! A bus script: the memory before the first clock, and the buses of each clock.

ghost use Rattle.std.specs.Prelude.{◌≡◌, ℕ, ◌<◌, ◌^◌, [], None, OnOk};
ghost use Rattle.bus_script.specs.Script.{MemoryWord, Clock, script_by, value_at, initial_at, buses_at};
ghost use Rattle.bus_script.specs.ScriptFits.{AreBusesFor, IsScriptFor};
ghost use Rattle.bus_script.specs.ScriptSteps.{with_line};

use crate::buses::Buses;
use indexmap::IndexMap;
use std::alloc::{AllocError, Global};
use std::marker::Model;

/// What the outside gives to a run: words of the memory before the first clock, and the buses of each clock.
#[derive(Drop)]
pub struct Script {
    memory: IndexMap<u16, u32>,
    clocks: Vec<Buses>,
}

impl Model for Script {
    ghost use Rattle.bus_script.specs.Script.{BusScript};
    ghost use Rattle.bus_script.specs.ScriptView.{script_in};

    ghost Value = { BusScript };

    ghost view = { script_in };
}

impl Script {
    /// A script that says nothing.
    pub(crate) fn new(alloc: Global) -> Script
        ensures { result ≡ script_by [] }
    {
        Script {
            memory: IndexMap::new(alloc),
            clocks: Vec::new(alloc),
        }
    }

    /// The value that is named for an address.
    pub(crate) fn value_at(&self, address: u16) -> Option<u32>
        ensures { result ≡ value_at self.now.memory address }
    {
        self.memory.get(&address).copied()
    }

    /// Names an address, with its value.
    pub(crate) fn add_memory_word(&mut self, address: u16, value: u32) -> Result<(), AllocError>
        requires { value_at self.old.memory address ≡ None }
        ensures { OnOk result (self.new ≡ with_line self.old (MemoryWord address value)) }
    {
        self.memory.insert(address, value)?;
        Ok(())
    }

    /// Adds the buses of the next clock.
    pub(crate) fn add_clock(&mut self, buses: Buses) -> Result<(), AllocError>
        ensures { OnOk result (self.new ≡ with_line self.old (Clock buses)) }
    {
        self.clocks.push(buses)?;
        Ok(())
    }
}

/// The buses of a clock, from 0. After the last clock that the script gives I, PX and SX are 0, and the memory drives the
/// M bus.
pub fn at(script: &Script, clock: u32) -> Buses
    ensures exact { result ≡ buses_at script.now clock }
    ensures fits { (slices : ℕ) → IsScriptFor slices script.now → AreBusesFor slices result }
{
    match script.clocks.get(clock as usize) {
        Some(buses) => *buses,
        None => Buses {
            m: None,
            i: 0,
            px: 0,
            sx: 0,
        },
    }
}

/// The memory's word at an address, 0 to 4,095, before the first clock: 0 where the script names none.
pub fn initial(script: &Script, address: u16) -> u32
    requires { address < 4096 }
    ensures exact { result ≡ initial_at script.now address }
    ensures fits { (slices : ℕ) → IsScriptFor slices script.now → result < 4 ^ slices }
{
    match script.value_at(address) {
        Some(value) => value,
        None => 0,
    }
}
