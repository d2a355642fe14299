//! The answer to the words of the command line: each command has a function of its own.
ghost use Rattle.std.specs.Prelude.{◌≡◌, map, string_bytes};
ghost use Rattle.io_base.specs.Shelf.{GoesOn};
ghost use Rattle.io_base.specs.Sink.{SinkGoesOn};
ghost use Rattle.replies.specs.Ending.{Ends};
ghost use Rattle.micro_cli.specs.Command.{command_of};
ghost use Rattle.micro_cli.specs.Answer.{Answer};
ghost use Rattle.micro_cli.specs.Keeping.{Keeps};

use crate::check_command::check_command;
use crate::command_words::{Request, request_of};
use crate::flow_command::flow_command;
use crate::make_command::make_command;
use crate::map_command::map_command;
use bench_answers::{PlacedRun, run_saved};
use io_base::{Shelf, Sink};
use replies::{Status, say};
use std::alloc::Global;

/// Answers the words of the command line. `run` is answered by `bench_answers`, each other command here.
pub fn answer<S: Shelf, K: Sink>(
    alloc: Global,
    words: &[String],
    shelf: &mut S,
    out: &mut K,
) -> Status
    ensures ends { Ends (Answer (command_of (map string_bytes words.now)) (S.state shelf.old) (S.state shelf.new))
        (K.state out.old) (K.state out.new) result }
    ensures keeps { Keeps (command_of (map string_bytes words.now)) (S.state shelf.old) (S.state shelf.new) }
    ensures goes_on { GoesOn (S.state shelf.old) (S.state shelf.new) }
    ensures sink_goes_on { SinkGoesOn (K.state out.old) (K.state out.new) }
{
    match request_of(words) {
        Request::Map { src } => map_command(alloc, shelf, out, src),
        Request::Flow {
            src,
            script,
            clocks,
        } => flow_command(alloc, shelf, out, src, script, clocks),
        Request::Run {
            out: name,
            script,
            clocks,
        } => run_saved(alloc, shelf, out, name, script, clocks),
        Request::Make {
            src,
            script,
            out: name,
            clocks,
            conflicts,
        } => {
            let asked = PlacedRun {
                out: name,
                script,
                clocks,
            };
            make_command(alloc, shelf, out, src, asked, conflicts)
        }
        Request::Check { src, refutation } => check_command(alloc, shelf, out, src, refutation),
        Request::Unknown => say(out, Status::Words, b"refused words\n"),
    }
}
