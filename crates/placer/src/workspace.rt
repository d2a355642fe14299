//! What the analysis of conflicts writes on, kept from one conflict to the next.

ghost use Rattle.std.specs.Prelude.{◌≡◌, ◌≤◌, ◌+◌, length, min, replicate, take, false, IfOk};
ghost use Rattle.placer.specs.Marking.{ArePlaces};
ghost use Rattle.placer.specs.Ready.{IsReady};

use io_base::OutOfMemory;
use propagate::Board;
use std::alloc::Global;

/// What the analysis of a conflict writes on. A search makes it once, so that a conflict takes no memory for it and
/// notes the places of those entries alone that came since the last one.
#[derive(Drop)]
pub(crate) struct Workspace {
    /// The place on the trail of each variable of the first `known` entries, by the variable's number.
    pub(crate) places: Vec<usize>,
    /// How many entries of the trail have their places noted.
    pub(crate) known: usize,
    /// Whether the entry at a place is marked: between conflicts none is.
    pub(crate) marks: Vec<bool>,
}

// Notes the places of the entries from the one of this number on.
fn note_places(board: &Board, known: usize, places: &mut [usize])
    requires within { known ≤ length board.now.trail.entries }
    requires told { ArePlaces board.now.list.vars (take known board.now.trail.entries) places.old }
    ensures { ArePlaces board.now.list.vars board.now.trail.entries places.new }
{
    let trail = board.trail();
    for index in known..trail.len() {
        let var = trail.entry(index).lit.var();
        places[var as usize] = index;
    }
}

/// Takes all marks back.
pub(crate) fn unmark(marks: &mut [bool])
    ensures { marks.new ≡ replicate (length marks.old) false }
{
    for mark in marks.iter_mut() {
        *mark = false;
    }
}

impl Workspace {
    /// One for a board, with no place noted and nothing marked.
    pub(crate) fn new(alloc: Global, board: &Board) -> Result<Workspace, OutOfMemory>
        ensures { IfOk result (IsReady board.now.list.vars board.now.trail.entries) }
    {
        let vars = board.list().vars();
        let places = vec![in alloc; 0; vars as usize + 1]?;
        let marks = vec![in alloc; false; vars as usize + 1]?;
        Ok(Workspace {
            places,
            known: 0,
            marks,
        })
    }

    /// Notes the places of the entries that came since the last conflict.
    pub(crate) fn follow(&mut self, board: &Board)
        requires { IsReady board.now.list.vars board.now.trail.entries self.old }
        ensures places { ArePlaces board.now.list.vars board.now.trail.entries self.new.places.items }
        ensures known { self.new.known ≡ length board.now.trail.entries }
        ensures marks { self.new.marks.items ≡ self.old.marks.items }
    {
        let known = self.known;
        self.known = board.trail().len();
        note_places(board, known, &mut self.places);
    }

    /// Forgets the places of entries past these, which were taken back.
    pub(crate) fn keep(&mut self, len: usize)
        ensures known { self.new.known ≡ min self.old.known len }
        ensures places { self.new.places.items ≡ self.old.places.items }
        ensures marks { self.new.marks.items ≡ self.old.marks.items }
    {
        self.known = self.known.min(len);
    }
}
