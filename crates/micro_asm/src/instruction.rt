//! What an instruction says: its operation, its settings and its flow statement.

ghost use Rattle.std.specs.Prelude.{◌≡◌, Some, IfOk};
ghost use Rattle.field_decl.specs.Earlier.{declaration_with};
ghost use Rattle.field_decl.specs.Results.{GivesKind};
ghost use Rattle.micro_asm.specs.Earlier.{IsNamedInstr};
ghost use Rattle.micro_asm.specs.Judging.{instruction_read};

use crate::accepted_lines::NamedInstr;
use crate::flow_names::flow_kind;
use crate::operations::operation_code;
use crate::settings::{flags_given, settings_refusal, values_given};
use crate::written_instruction::WrittenInstr;
use field_decl::{AsmKind, DeclState};

/// What an instruction says on so many slices, after these declarations, or why it is refused.
#[tactic(auto, unfolding(crate::specs::Judging::instruction_read))]
pub fn read_instruction(
    slices: u8,
    decl: &DeclState,
    line: u32,
    instruction: WrittenInstr,
) -> Result<NamedInstr, AsmKind>
    requires { decl.now.slices ≡ Some slices }
    ensures meant { GivesKind (λ instr. instr) result (instruction_read slices decl.now line instruction) }
    ensures label { IfOk result (λ instr. instr.label ≡ instruction.label) }
    ensures fits { IfOk result (IsNamedInstr (declaration_with slices decl.now)) }
{
    let fields = decl.fields();
    let settings = instruction.settings.as_slice();
    let (func, mask) = match operation_code(slices, decl.kbus(), &instruction.operation) {
        Ok(code) => code,
        Err(kind) => return Err(kind),
    };
    if let Some(kind) = settings_refusal(fields, settings) {
        return Err(kind);
    }
    let kind = match flow_kind(&instruction.flow, instruction.targets.as_slice()) {
        Ok(kind) => kind,
        Err(refusal) => return Err(refusal),
    };
    let ctl = flags_given(settings);
    let values = values_given(fields, settings);
    Ok(NamedInstr {
        line,
        label: instruction.label.certified(),
        func,
        mask,
        ctl,
        values,
        kind,
        targets: instruction.targets,
    })
}
