//! An order of decision, and how far it has been gone through.

ghost use Rattle.std.specs.Prelude.{◌≡◌, ◌≤◌, ◌↔◌, None, IsTrue, IfOk, IfSome, min, slice_index};
ghost use Rattle.clause_base.specs.Lit.{var_of};
ghost use Rattle.trail.specs.Assignment.{value_of};

use clause_base::Lit;
use io_base::OutOfMemory;
use propagate::Board;
use std::alloc::Global;

/// Literals in the order in which they are decided. A search that finds no unassigned one here looks elsewhere, so
/// the order may leave out variables, and name others twice.
#[derive(Drop)]
pub(crate) struct Order {
    lits: Vec<Lit>,
    // The place in the order of each variable, by its number.
    places: Vec<usize>,
    // The literals before this place are assigned.
    next: usize,
}

// Whether a literal's variable is one of the board's and has no value.
fn is_free(board: &Board, lit: Lit) -> bool
    ensures { IsTrue result → (var_of lit ≤ board.now.trail.vars) × (value_of lit board.now.trail.entries ≡ None) }
{
    lit.var() <= board.list().vars() && board.trail().value(lit).is_none()
}

impl Order {
    /// This order over the variables 1 to `vars`, at its start.
    pub(crate) fn of(alloc: Global, lits: Vec<Lit>, vars: u32) -> Result<Order, OutOfMemory>
        ensures { IfOk result (λ order. (order.lits ≡ lits) × (order.next ≡ 0)) }
    {
        let mut places = vec![in alloc; 0; vars as usize + 1]?;
        for (place, lit) in lits.iter().enumerate() {
            if let Some(known) = places.get_mut(lit.var() as usize) {
                *known = place;
            }
        }
        Ok(Order {
            lits,
            places,
            next: 0,
        })
    }

    /// The first literal of the order from here on whose variable is unassigned.
    pub(crate) fn next_free(&mut self, board: &Board) -> Option<Lit>
        ensures in_range { IfSome result (λ z. var_of z ≤ board.now.trail.vars) }
        ensures unassigned { IfSome result (λ z. value_of z board.now.trail.entries ≡ None) }
    {
        for place in self.next..self.lits.len() {
            let lit = self.lits[place];
            if is_free(board, lit) {
                self.next = place;
                return Some(lit);
            }
        }
        self.next = self.lits.len();
        None
    }

    /// Goes back to a variable that loses its value.
    pub(crate) fn put_back(&mut self, var: u32) {
        if let Some(place) = self.places.get(var as usize) {
            self.next = self.next.min(*place);
        }
    }
}
