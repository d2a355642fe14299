//! What an instruction orders of slices, flags and memory, and what the free cell orders.

ghost use Rattle.std.specs.Prelude.{◌≡◌, Some, IfSome};
ghost use Rattle.std.specs.Option.{option_copied};
ghost use Rattle.field_decl.specs.Decls.{declaration_of};
ghost use Rattle.flow_graph.specs.Microwords.{FitsDeclaration};
ghost use Rattle.flow_graph.specs.Order.{free_order, order_of};
ghost use Rattle.flow_sim.specs.Machine.{IsOrderFor};

use crate::field_values::declared_defaults;
use crate::order::{Order, writes};
use cpe_slice::Fn7;
use field_decl::Decl;
use flow_graph::Instr;
use mcu_chip::{FlagCtl, FlagIn, FlagOut};

// What a cell without an instruction orders, and the trap too.
fn free_order(decl: &Decl) -> Order
    ensures order { result ≡ free_order (declaration_of decl.now) }
    ensures fits { IsOrderFor decl.now.slices result }
{
    let values = declared_defaults(decl);
    Order {
        func: free_function(),
        mask: 0,
        ctl: FlagCtl {
            input: FlagIn::Hcz,
            output: FlagOut::Ff0,
        },
        write: writes(decl.write, values.as_slice()),
    }
}

// Function 6 of group 1 on R0, which changes no register where K is 0.
fn free_function() -> Fn7
    ensures { result ≡ 0x60 }
{
    match Fn7::new(0x60) {
        Some(func) => func,
        None => unreachable!(),
    }
}

// What an instruction orders.
fn instr_order(decl: &Decl, instr: &Instr) -> Order
    requires { FitsDeclaration (declaration_of decl.now) instr.now }
    ensures order { result ≡ order_of (declaration_of decl.now) (Some instr.now) }
    ensures fits { IsOrderFor decl.now.slices result }
{
    Order {
        func: instr.func,
        mask: instr.mask,
        ctl: instr.ctl,
        write: writes(decl.write, instr.values.as_slice()),
    }
}

/// What an instruction orders, or where there is none the free cell.
pub(crate) fn order_of(decl: &Decl, instr: Option<&Instr>) -> Order
    requires { IfSome (option_copied instr) (FitsDeclaration (declaration_of decl.now)) }
    ensures order { result ≡ order_of (declaration_of decl.now) (option_copied instr.entry) }
    ensures fits { IsOrderFor decl.now.slices result }
{
    match instr {
        Some(instr) => instr_order(decl, instr),
        None => free_order(decl),
    }
}
