//! Two orders of decision in turns.

ghost use Rattle.std.specs.Prelude.{◌≡◌, ◌≢◌, ◌≤◌, ◌<◌, ◌^◌, ℕ, pos, None, IfSome, IfNone};
ghost use Rattle.clause_base.specs.Lit.{var_of};
ghost use Rattle.trail.specs.Assignment.{value_of};

use crate::board_readings::{first_unassigned, negatives};
use crate::order::Order;
use clause_base::Lit;
use io_base::OutOfMemory;
use propagate::Board;
use std::alloc::Global;
use trail::Trail;

// How many conflicts the first turn of each order has.
const FIRST_TURN: u64 = 500;

/// Two orders of decision. Each has its turn for as many conflicts as the other, and then both have twice as many.
#[derive(Drop)]
pub(crate) struct Turns {
    first: Order,
    second: Order,
    is_second: bool,
    // How many conflicts a turn has, and how many are left of this one.
    length: u64,
    left: u64,
}

impl Turns {
    /// The first turn of the first order.
    pub(crate) fn of(first: Order, second: Order) -> Turns {
        Turns {
            first,
            second,
            is_second: false,
            length: FIRST_TURN,
            left: FIRST_TURN,
        }
    }

    /// The variables 1 to `vars` by number, whosever turn it is.
    pub(crate) fn natural(alloc: Global, vars: u32) -> Result<Turns, OutOfMemory>
        requires { vars < 2 ^ 31 }
    {
        let first = Order::of(alloc, negatives(alloc, vars)?, vars)?;
        let second = Order::of(alloc, negatives(alloc, vars)?, vars)?;
        Ok(Turns::of(first, second))
    }

    // The first unassigned literal of the order whose turn it is.
    fn next_free(&mut self, board: &Board) -> Option<Lit>
        ensures in_range { IfSome result (λ z. var_of z ≤ board.now.trail.vars) }
        ensures unassigned { IfSome result (λ z. value_of z board.now.trail.entries ≡ None) }
    {
        if self.is_second {
            self.second.next_free(board)
        } else {
            self.first.next_free(board)
        }
    }

    /// The literal that is decided next, or none where every variable has a value.
    pub(crate) fn next_decision(&mut self, board: &Board) -> Option<Lit>
        ensures in_range { IfSome result (λ z. var_of z ≤ board.now.trail.vars) }
        ensures unassigned { IfSome result (λ z. value_of z board.now.trail.entries ≡ None) }
        ensures all { IfNone result ((v : ℕ) → 0 < v → v ≤ board.now.list.vars → value_of (pos v) board.now.trail.entries ≢ None) }
    {
        match self.next_free(board) {
            Some(lit) => Some(lit),
            // At the end of the order all its variables have values; what it may leave out is found here.
            None => first_unassigned(board),
        }
    }

    /// Counts a conflict, the last of a turn hands over to the other order.
    pub(crate) fn count_conflict(&mut self) {
        self.left = self.left.saturating_sub(1);
        if self.left == 0 {
            if self.is_second {
                self.length = self.length.saturating_mul(2);
            }
            self.is_second = !self.is_second;
            self.left = self.length;
        }
    }

    /// Lets the orders find the variables above a level again, before they lose their values.
    pub(crate) fn put_back_above(&mut self, trail: &Trail, level: u32) {
        let mut place = trail.len();
        'back: while place > 0 {
            place -= 1;
            let entry = trail.entry(place);
            if entry.level <= level {
                return;
            }
            self.first.put_back(entry.lit.var());
            self.second.put_back(entry.lit.var());
        }
    }
}
