//! Checks the file of a refutation.

ghost use Rattle.std.specs.Prelude.{ℕ, ◌≡◌, ◌≤◌, ◌<◌, ◌+◌, ◌-◌, ◌^◌, Bool, List, length, IsTrue, IfOk, IsErrOf, ◌⊎◌};
ghost use Rattle.io_base.specs.Causes.{Rose};
ghost use Rattle.io_base.specs.Shelf.{GoesOn, CountsNoChange};
ghost use Rattle.io_base.specs.Loading.{TookMore};
ghost use Rattle.mcu_jumps.specs.Position.{Position};
ghost use Rattle.flow_graph.specs.Graph.{graph_of};
ghost use Rattle.place_model.specs.Legal.{IsLegal};
ghost use Rattle.clause_base.specs.TruthValues.{AllHold};
ghost use Rattle.clause_encode.specs.PlacementList.{list_of};
ghost use Rattle.refute_check.specs.Taken.{AsksWithin, Explains, IsOfBytes};
ghost use Rattle.refute_check.specs.declared.checked.Checked.TheVariants as checked;

use crate::judge::Judge;
use crate::{CheckFault, Checked};
use clause_encode::{ClauseSource, ProgramSource};
use flow_graph::Program;
use io_base::{Failed, NAME_LIMIT, Shelf};
use std::alloc::Global;

/// How many bytes of a refutation are read: 2^43.
pub const REFUTATION_LIMIT: u64 = 1 << 43;

/// How many bytes are read at a time.
const PIECE: usize = 4096;

/// Checks the file `name` as a refutation of a program's placement clauses.
///
/// At most one byte more than 2^43 is taken. Of a longer file `TooLong` is the answer, unless a line that ends within
/// the first 2^43 bytes is refused: then that line is.
pub fn check_ref<S: Shelf>(
    alloc: Global,
    program: &Program,
    shelf: &mut S,
    name: &str,
) -> Result<Checked, CheckFault>
    requires { length name.now ≤ NAME_LIMIT }

    // Where the text refutes the program's clauses, no placement is legal.
    ensures refuted { IfOk result (λ answer. (k : ℕ) → answer ≡ checked.Refutes k →
        (place : List Position) → IsLegal (graph_of program.now) place → ⊥) }

    // What a shelf that tells its files says of the answer.
    ensures told { IsTrue (S.state shelf.old).tells →
        Explains ((S.state shelf.old).file name.now) REFUTATION_LIMIT (list_of (graph_of program.now)) result }

    // What holds over every shelf.
    ensures of_bytes { IsOfBytes REFUTATION_LIMIT (list_of (graph_of program.now)) (S.state shelf.old) (S.state shelf.new) result }
    ensures failed { IsErrOf result CheckFault.Failed →
        Rose (S.state shelf.old).faults (S.state shelf.new).faults }
    ensures failed_name { IsErrOf result CheckFault.Failed →
        (S.state shelf.new).last_failed ≡ name.now }
    ensures no_file { IsErrOf result CheckFault.NoFile →
        Rose (S.state shelf.old).absent (S.state shelf.new).absent }
    ensures absent { (S.state shelf.old).absent < (S.state shelf.new).absent →
        IsErrOf result CheckFault.NoFile }
    ensures too_long { IsErrOf result CheckFault.TooLong →
        TookMore (S.state shelf.old) (S.state shelf.new) REFUTATION_LIMIT }

    ensures failed_within { IsErrOf result CheckFault.Failed →
        (S.state shelf.new).taken - (S.state shelf.old).taken ≤ REFUTATION_LIMIT }
    ensures absent_within { IsErrOf result CheckFault.NoFile →
        (S.state shelf.new).taken - (S.state shelf.old).taken ≤ REFUTATION_LIMIT }

    // How the shelf is left.
    ensures at_most { (S.state shelf.new).taken ≤ (S.state shelf.old).taken + REFUTATION_LIMIT + 1 }
    ensures kept { IsErrOf result CheckFault.Failed
        ⊎ ((S.state shelf.new).last_failed ≡ (S.state shelf.old).last_failed) }
    ensures calm { IsErrOf result CheckFault.Failed
        ⊎ ((S.state shelf.new).faults ≡ (S.state shelf.old).faults) }
    ensures no_change { CountsNoChange (S.state shelf.old) (S.state shelf.new) }
    ensures same { (S.state shelf.new).file ≡ (S.state shelf.old).file }
    ensures goes_on { GoesOn (S.state shelf.old) (S.state shelf.new) }
{
    let mut source = ProgramSource::new(program);
    check_lines(alloc, &mut source, shelf, name)
}

/// Checks the file `name` as a refutation of a source's clauses.
///
/// The answers and their causes are those of `check_ref`. The source is asked for just the clauses that hints name, for
/// each at most once. Of the file a piece and the present line are kept, and of the lines before it their literals.
pub fn check_lines<S: Shelf, P: ClauseSource>(
    alloc: Global,
    source: &mut P,
    shelf: &mut S,
    name: &str,
) -> Result<Checked, CheckFault>
    requires name { length name.now ≤ NAME_LIMIT }
    requires given { P.given source.old < 2 ^ 64 }
    requires len { length (P.list source.old).clauses < 2 ^ 32 - 1 }
    requires vars { (P.list source.old).vars < 2 ^ 31 }

    // Where the text refutes the source's clauses, no values make them true.
    ensures refuted { IfOk result (λ answer. (k : ℕ) → answer ≡ checked.Refutes k →
        (values : ℕ → Bool) → AllHold values (P.list source.old).clauses → ⊥) }

    // What a shelf that tells its files says of the answer.
    ensures told { IsTrue (S.state shelf.old).tells →
        Explains ((S.state shelf.old).file name.now) REFUTATION_LIMIT (P.list source.old) result }

    // What the source gave.
    ensures asks { AsksWithin REFUTATION_LIMIT (P.list source.old) (S.state shelf.old) (S.state shelf.new) name.now (P.given source.old) (P.given source.new) result }
    ensures list { P.list source.new ≡ P.list source.old }

    // What holds over every shelf.
    ensures of_bytes { IsOfBytes REFUTATION_LIMIT (P.list source.old) (S.state shelf.old) (S.state shelf.new) result }
    ensures failed { IsErrOf result CheckFault.Failed →
        Rose (S.state shelf.old).faults (S.state shelf.new).faults }
    ensures failed_name { IsErrOf result CheckFault.Failed →
        (S.state shelf.new).last_failed ≡ name.now }
    ensures no_file { IsErrOf result CheckFault.NoFile →
        Rose (S.state shelf.old).absent (S.state shelf.new).absent }
    ensures absent { (S.state shelf.old).absent < (S.state shelf.new).absent →
        IsErrOf result CheckFault.NoFile }
    ensures too_long { IsErrOf result CheckFault.TooLong →
        TookMore (S.state shelf.old) (S.state shelf.new) REFUTATION_LIMIT }
    ensures failed_within { IsErrOf result CheckFault.Failed →
        (S.state shelf.new).taken - (S.state shelf.old).taken ≤ REFUTATION_LIMIT }
    ensures absent_within { IsErrOf result CheckFault.NoFile →
        (S.state shelf.new).taken - (S.state shelf.old).taken ≤ REFUTATION_LIMIT }

    // How the shelf is left.
    ensures at_most { (S.state shelf.new).taken ≤ (S.state shelf.old).taken + REFUTATION_LIMIT + 1 }
    ensures kept { IsErrOf result CheckFault.Failed
        ⊎ ((S.state shelf.new).last_failed ≡ (S.state shelf.old).last_failed) }
    ensures calm { IsErrOf result CheckFault.Failed
        ⊎ ((S.state shelf.new).faults ≡ (S.state shelf.old).faults) }
    ensures no_change { CountsNoChange (S.state shelf.old) (S.state shelf.new) }
    ensures same { (S.state shelf.new).file ≡ (S.state shelf.old).file }
    ensures goes_on { GoesOn (S.state shelf.old) (S.state shelf.new) }
{
    let Ok(mut judge) = Judge::new(alloc, source) else {
        return Err(CheckFault::OutOfMemory);
    };
    let mut buf = [0u8; PIECE];
    let mut at = 0;
    'pieces: loop {
        let left = REFUTATION_LIMIT - at;
        let room = (left + 1).min(PIECE as u64) as usize;
        let piece = &mut buf[..room];
        match shelf.read_at(name, at, piece) {
            Err(Failed) => return Err(CheckFault::Failed),
            Ok(None) => return Err(CheckFault::NoFile),
            Ok(Some(0)) => return Ok(judge.verdict()),
            Ok(Some(count)) => {
                let within = left.min(count as u64) as usize;
                match judge.take(alloc, source, &piece[..within]) {
                    Err(_) => return Err(CheckFault::OutOfMemory),
                    Ok(Some(why)) => return Ok(Checked::Rejected(judge.lines() + 1, why)),
                    Ok(None) if within < count => return Err(CheckFault::TooLong),
                    Ok(None) => at += count as u64,
                }
            }
        }
    }
}
