//! The sum by which a case is told.

ghost use Rattle.std.specs.Prelude.{◌≡◌, ◌≤◌, IfOk};
ghost use Rattle.flow_graph.specs.Graph.{graph_of};
ghost use Rattle.bus_script.specs.ScriptFits.{IsScriptFor};
ghost use Rattle.gen_case.specs.FlowSum.{flow_sum};

use bus_script::{Script, at};
use flow_graph::Program;
use flow_sim::{FlowState, flow_step};
use io_base::OutOfMemory;
use std::alloc::Global;

/// The sum of the D values, which are those of AC, of the first so many clocks of a program's symbolic flow, at most
/// 65,536. It fails only for want of memory.
pub fn flow_sum(
    alloc: Global,
    program: &Program,
    script: &Script,
    clocks: u32,
) -> Result<u64, OutOfMemory>
    requires script { IsScriptFor (graph_of program.now).decl.slices script.now }
    requires few { clocks ≤ 65536 }
    ensures { IfOk result (λ sum. sum ≡ flow_sum (graph_of program.now) script.now clocks) }
{
    let mut state = FlowState::start(alloc, program, script)?;
    let mut sum = 0u64;
    for clock in 0..clocks {
        let view = flow_step(program, &mut state, &at(script, clock));
        sum += view.regs.ac as u64;
    }
    Ok(sum)
}
