//! A case: its two texts.

ghost use Rattle.std.specs.Prelude.{◌≡◌, ◌≤◌, Ok, IfOk, length};
ghost use Rattle.micro_asm.specs.Source.{source_of};
ghost use Rattle.bus_script.specs.Script.{script_of};
ghost use Rattle.place_model.specs.Legal.{IsLegal};
ghost use Rattle.gen_case.specs.SourceText.{source_text};
ghost use Rattle.gen_case.specs.ScriptText.{script_text};
ghost use Rattle.gen_case.specs.CaseProgram.{case_graph, case_place};
ghost use Rattle.gen_case.specs.CaseScript.{case_script};

use crate::draws::Draws;
use crate::script_text::script_of;
use crate::source_text::source_of;
use io_base::OutOfMemory;
use std::alloc::Global;

/// The texts of a case.
#[derive(Drop)]
pub struct Case {
    /// The source: 128 labels, 112 of them pinned.
    pub source: Vec<u8>,
    /// The bus script: 64 clocks.
    pub script: Vec<u8>,
}

/// Writes the source and the bus script of a number.
///
/// The source is accepted as just the program that the number's draws describe, and that program has a legal placement:
/// each label at the cell of its number, row by row. The script is accepted too. Both texts are within the limits of
/// files that hold a source and a script.
pub fn make_case(alloc: Global, number: u64) -> Result<Case, OutOfMemory>
    ensures source { IfOk result (λ case. case.source.items ≡ source_text number) }
    ensures script { IfOk result (λ case. case.script.items ≡ script_text number) }
    ensures accepted { IfOk result (λ case. source_of case.source.items ≡ Ok (case_graph number)) }
    ensures script_accepted { IfOk result (λ case. script_of 8 case.script.items ≡ Ok (case_script number)) }
    ensures source_short { IfOk result (λ case. length case.source.items ≤ 1048576) }
    ensures script_short { IfOk result (λ case. length case.script.items ≤ 4194304) }
    ensures legal { IsLegal (case_graph number) case_place }
{
    let mut draws = Draws { state: number };
    let source = source_of(alloc, &mut draws)?;
    let script = script_of(alloc, &mut draws)?;
    Ok(Case { source, script })
}
