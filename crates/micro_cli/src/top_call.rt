//! The whole program as one call, over any shelf and any sink.
//!
//! The contract of `top` is its clauses `ends`, `keeps`, `goes_on` and `sink_goes_on`. All others follow from `ends` and
//! `keeps` by the law `answers_keep_the_promises`, over the definitions alone, and are there so that a reader need not
//! unfold these. `ends`, `keeps`, `once` and the two that go on speak of every shelf and sink, the others of such as
//! tell their files and bytes.
ghost use Rattle.std.specs.Prelude.{◌≡◌, map, string_bytes};
ghost use Rattle.io_base.specs.Shelf.{GoesOn};
ghost use Rattle.io_base.specs.Sink.{SinkGoesOn};
ghost use Rattle.replies.specs.Ending.{Ends};
ghost use Rattle.micro_cli.specs.Command.{command_of};
ghost use Rattle.micro_cli.specs.Answer.{Answer};
ghost use Rattle.micro_cli.specs.Keeping.{Keeps};
ghost use Rattle.micro_cli.specs.Headline.{SavesImages, ReadsBack, SavesRefutation, ChecksOut, SpendsBudget, Decides, NeverRefuses, ChangesNothing};
ghost use Rattle.micro_cli.specs.Printing.{PrintsReplies, RefusesInputs, PrintsNothingElse};
ghost use Rattle.micro_cli.specs.Leaving.{LeavesFiles, LeavesNoPart, SavesOnce};

use crate::answering::answer;
use crate::laws::answers_keep_the_promises;
use io_base::{Shelf, Sink};
use replies::Status;
use std::alloc::Global;

/// Answers the words of the command line, of which the first is the command and not the program's name: reads files
/// from the shelf and writes the answer's text to `out`.
///
/// Where the sink fails, the status is that of a sink fault and a prefix of an answer's text was written. Want of
/// memory may be answered at any command.
pub fn top<S: Shelf, K: Sink>(alloc: Global, words: &[String], shelf: &mut S, out: &mut K) -> Status
    ensures ends { Ends (Answer (command_of (map string_bytes words.now)) (S.state shelf.old) (S.state shelf.new))
        (K.state out.old) (K.state out.new) result }

    // What `make` promises over a shelf that tells its files and, but for `read_back`, is honest, and over a sink that
    // tells its bytes.
    ensures images { SavesImages (command_of (map string_bytes words.now))
        (S.state shelf.old) (S.state shelf.new) (K.state out.old) (K.state out.new) result }
    ensures read_back { ReadsBack (command_of (map string_bytes words.now))
        (S.state shelf.old) (S.state shelf.new) (K.state out.old) (K.state out.new) result }
    ensures refutation { SavesRefutation (command_of (map string_bytes words.now))
        (S.state shelf.old) (S.state shelf.new) (K.state out.old) (K.state out.new) result }
    ensures checking { ChecksOut (command_of (map string_bytes words.now))
        (S.state shelf.old) (S.state shelf.new) (K.state out.old) (K.state out.new) result }
    ensures budget { SpendsBudget (command_of (map string_bytes words.now))
        (S.state shelf.old) (S.state shelf.new) (K.state out.old) (K.state out.new) result }
    ensures decides { Decides (command_of (map string_bytes words.now))
        (S.state shelf.old) (S.state shelf.new) (K.state out.old) (K.state out.new) result }
    ensures acceptance { NeverRefuses (command_of (map string_bytes words.now)) (S.state shelf.old) result }

    // What is printed, over a shelf that tells its files and a sink that tells its bytes: where no call fails, what
    // `map`, `flow`, `run` and `check` reply is decided by words and files alone.
    ensures replies { PrintsReplies (command_of (map string_bytes words.now))
        (S.state shelf.old) (S.state shelf.new) (K.state out.old) (K.state out.new) result }
    ensures refuses { RefusesInputs (command_of (map string_bytes words.now))
        (S.state shelf.old) (S.state shelf.new) (K.state out.old) (K.state out.new) result }
    ensures prints { PrintsNothingElse (command_of (map string_bytes words.now))
        (S.state shelf.old) (S.state shelf.new) (K.state out.old) (K.state out.new) result }

    // How the files and the sink are left.
    ensures keeps { Keeps (command_of (map string_bytes words.now)) (S.state shelf.old) (S.state shelf.new) }
    ensures nothing { ChangesNothing (S.state shelf.old) (S.state shelf.new) result }
    ensures leaves { LeavesFiles (command_of (map string_bytes words.now)) (S.state shelf.old) (S.state shelf.new) }
    ensures no_part { LeavesNoPart (command_of (map string_bytes words.now)) (S.state shelf.old) (S.state shelf.new) result }
    ensures once { SavesOnce (command_of (map string_bytes words.now)) (S.state shelf.old) (S.state shelf.new) result }
    ensures goes_on { GoesOn (S.state shelf.old) (S.state shelf.new) }
    ensures sink_goes_on { SinkGoesOn (K.state out.old) (K.state out.new) }
{
    let status = answer(alloc, words, shelf, out);
    answers_keep_the_promises();
    status
}

#[cfg(test)]
mod tests;
