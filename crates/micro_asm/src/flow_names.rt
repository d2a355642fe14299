//! The flow statements by name.

ghost use Rattle.std.specs.Prelude.{◌≡◌, is_some, IfOk};
ghost use Rattle.std.specs.List.{list_any};
ghost use Rattle.micro_asm.specs.Flow.{kind_named, flow_kind, AreTargetsOf};

use field_decl::{AsmKind, Name};
use mcu_jumps::{Kind, outcomes};

// The kind of the flow statement of this name.
#[tactic(auto, unfolding(crate::specs::Flow::kind_named))]
fn kind_named(name: &Name) -> Option<Kind>
    ensures { result ≡ kind_named name.now }
{
    if name.is(b"goto") {
        Some(Kind::Goto)
    } else if name.is(b"strobe") {
        Some(Kind::Strobe)
    } else if name.is(b"enable") {
        Some(Kind::Enable)
    } else if name.is(b"iff") {
        Some(Kind::IfF)
    } else if name.is(b"ifc") {
        Some(Kind::IfC)
    } else if name.is(b"ifz") {
        Some(Kind::IfZ)
    } else if name.is(b"onpr") {
        Some(Kind::OnPr)
    } else if name.is(b"onpx") {
        Some(Kind::OnPx)
    } else if name.is(b"onleft") {
        Some(Kind::OnLeft)
    } else if name.is(b"onright") {
        Some(Kind::OnRight)
    } else {
        None
    }
}

// Whether one of the targets is a label.
fn has_label(targets: &[Option<Name>]) -> bool
    ensures { result ≡ list_any is_some targets.now }
{
    targets.iter().any(|target| target.is_some())
}

/// The kind of the flow statement of this name, if it has a target for each outcome and one of them is a label.
pub fn flow_kind(name: &Name, targets: &[Option<Name>]) -> Result<Kind, AsmKind>
    ensures kind { result ≡ flow_kind name.now targets.now }
    ensures targets { IfOk result (λ kind. AreTargetsOf kind targets.now) }
{
    let Some(kind) = kind_named(name) else {
        return Err(AsmKind::UnknownFlow);
    };
    if targets.len() != outcomes(kind) as usize {
        return Err(AsmKind::TargetCount);
    }
    if !has_label(targets) {
        return Err(AsmKind::NoTarget);
    }
    Ok(kind)
}
