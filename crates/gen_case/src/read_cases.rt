//! A case as the assembler and the script's reader read it.

ghost use Rattle.std.specs.Prelude.{◌≡◌, IfOk};
ghost use Rattle.flow_graph.specs.Graph.{graph_of};
ghost use Rattle.bus_script.specs.ScriptFits.{IsScriptFor};
ghost use Rattle.gen_case.specs.SourceText.{source_text};
ghost use Rattle.gen_case.specs.ScriptText.{script_text};
ghost use Rattle.gen_case.specs.CaseProgram.{case_graph};
ghost use Rattle.gen_case.specs.CaseScript.{case_script};

use crate::cases::{Case, make_case};
use bus_script::{Script, ScriptFault, read_script};
use flow_graph::Program;
use io_base::OutOfMemory;
use micro_asm::{AsmFault, assemble};
use std::alloc::Global;

/// The slices of a case.
const SLICES: u8 = 8;

/// A case, and what its texts mean.
#[derive(Drop)]
pub struct ReadCase {
    /// The texts.
    pub case: Case,
    /// The program of the source.
    pub program: Program,
    /// What the script says.
    pub script: Script,
}

/// Makes the case of a number and reads its texts. Neither is refused, so it fails only for want of memory.
pub fn read_case(alloc: Global, number: u64) -> Result<ReadCase, OutOfMemory>
    ensures source { IfOk result (λ read. read.case.source.items ≡ source_text number) }
    ensures text { IfOk result (λ read. read.case.script.items ≡ script_text number) }
    ensures program { IfOk result (λ read. graph_of read.program ≡ case_graph number) }
    ensures script { IfOk result (λ read. read.script ≡ case_script number) }
    ensures fits { IfOk result (λ read. IsScriptFor (graph_of read.program).decl.slices read.script) }
{
    let case = make_case(alloc, number)?;
    let program = match assemble(alloc, &case.source) {
        Ok(program) => program,
        Err(AsmFault::OutOfMemory) => return Err(OutOfMemory),
        // The source of a case is accepted.
        Err(AsmFault::At { .. }) => unreachable!(),
    };
    let script = match read_script(alloc, &case.script, SLICES) {
        Ok(script) => script,
        Err(ScriptFault::OutOfMemory) => return Err(OutOfMemory),
        // And so is its script.
        Err(ScriptFault::At { .. }) => unreachable!(),
    };
    Ok(ReadCase {
        case,
        program,
        script,
    })
}
