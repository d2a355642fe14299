//! The headline's law: an answer of the program keeps each promise. It stands over the definitions alone, so its
//! function does nothing of its own.
ghost use Rattle.std.specs.Prelude.{ℕ, ◌≡◌, List, Option};
ghost use Rattle.io_base.specs.Shelf.{ShelfState};
ghost use Rattle.io_base.specs.Sink.{SinkState};
ghost use Rattle.flow_graph.specs.Graph.{Graph};
ghost use Rattle.flow_graph.specs.Valid.{IsProgram};
ghost use Rattle.replies.specs.Ending.{Ends};
ghost use Rattle.replies.specs.declared.status.Status.{Status};
ghost use Rattle.micro_cli.specs.Command.{Command, map, flow, run, check};
ghost use Rattle.micro_cli.specs.OverFiles.{GivesProgram};
ghost use Rattle.micro_cli.specs.Replying.{Replies};
ghost use Rattle.micro_cli.specs.Answer.{Answer};
ghost use Rattle.micro_cli.specs.Keeping.{Keeps};
ghost use Rattle.micro_cli.specs.Headline.{SavesImages, ReadsBack, SavesRefutation, ChecksOut, SpendsBudget, Decides, NeverRefuses, ChangesNothing};
ghost use Rattle.micro_cli.specs.Printing.{PrintsReplies, RefusesInputs, PrintsNothingElse};
ghost use Rattle.micro_cli.specs.Leaving.{LeavesFiles, LeavesNoPart, SavesOnce};

use bench_answers::{images_follow_the_flow, saved_is_read_back};

/// What a call that ends with an answer promises of saved images, of what was read back, of refutations, of spent
/// budgets, of every accepted source, of the files that stay, of replies over files, of what is printed, and of the files
/// after a fault or want of memory.
pub(crate) fn answers_keep_the_promises()
    ensures images { (command : Option Command) (old new : ShelfState) (before after : SinkState) (s : Status) →
        Ends (Answer command old new) before after s → SavesImages command old new before after s }
    ensures read_back { (command : Option Command) (old new : ShelfState) (before after : SinkState) (s : Status) →
        Ends (Answer command old new) before after s → ReadsBack command old new before after s }
    ensures refutation { (command : Option Command) (old new : ShelfState) (before after : SinkState) (s : Status) →
        Ends (Answer command old new) before after s → SavesRefutation command old new before after s }
    ensures checking { (command : Option Command) (old new : ShelfState) (before after : SinkState) (s : Status) →
        Ends (Answer command old new) before after s → ChecksOut command old new before after s }
    ensures budget { (command : Option Command) (old new : ShelfState) (before after : SinkState) (s : Status) →
        Ends (Answer command old new) before after s → SpendsBudget command old new before after s }
    ensures decides { (command : Option Command) (old new : ShelfState) (before after : SinkState) (s : Status) →
        Ends (Answer command old new) before after s → Decides command old new before after s }
    ensures acceptance { (command : Option Command) (old new : ShelfState) (before after : SinkState) (s : Status) →
        Ends (Answer command old new) before after s → NeverRefuses command old s }
    ensures nothing { (command : Option Command) (old new : ShelfState) (before after : SinkState) (s : Status) →
        Keeps command old new → Ends (Answer command old new) before after s → ChangesNothing old new s }
    ensures replies { (command : Option Command) (old new : ShelfState) (before after : SinkState) (s : Status) →
        Ends (Answer command old new) before after s → PrintsReplies command old new before after s }
    ensures refuses { (command : Option Command) (old new : ShelfState) (before after : SinkState) (s : Status) →
        Ends (Answer command old new) before after s → RefusesInputs command old new before after s }
    ensures prints { (command : Option Command) (old new : ShelfState) (before after : SinkState) (s : Status) →
        Ends (Answer command old new) before after s → PrintsNothingElse command old new before after s }
    ensures leaves { (command : Option Command) (old new : ShelfState) (before after : SinkState) (s : Status) →
        Ends (Answer command old new) before after s → LeavesFiles command old new }
    ensures no_part { (command : Option Command) (old new : ShelfState) (before after : SinkState) (s : Status) →
        Ends (Answer command old new) before after s → LeavesNoPart command old new s }
    ensures once { (command : Option Command) (old new : ShelfState) (before after : SinkState) (s : Status) →
        Ends (Answer command old new) before after s → SavesOnce command old new s }
{
    saved_is_read_back();
    images_follow_the_flow();
}

/// Over the same files each of `map`, `flow`, `run` and `check` has one reply: two that the definitions allow have one
/// status and one text. Of `map` it is said where the program of the source is valid, which the type `Program` keeps.
pub(crate) fn each_reply_is_one()
    ensures map { (files : List ℕ → Option (List ℕ)) (src : List ℕ) (s t : Status) (text other : List ℕ) →
        ((g : Graph) → GivesProgram files src g → IsProgram g.rows g.start g.pins g.instrs) →
        Replies (map src) files s text → Replies (map src) files t other → (s ≡ t) × (text ≡ other) }
    ensures flow { (files : List ℕ → Option (List ℕ)) (src script : List ℕ) (clocks : ℕ) (s t : Status) (text other : List ℕ) →
        Replies (flow src script clocks) files s text → Replies (flow src script clocks) files t other → (s ≡ t) × (text ≡ other) }
    ensures run { (files : List ℕ → Option (List ℕ)) (out script : List ℕ) (clocks : ℕ) (s t : Status) (text other : List ℕ) →
        Replies (run out script clocks) files s text → Replies (run out script clocks) files t other → (s ≡ t) × (text ≡ other) }
    ensures check { (files : List ℕ → Option (List ℕ)) (src refutation : List ℕ) (s t : Status) (text other : List ℕ) →
        Replies (check src refutation) files s text → Replies (check src refutation) files t other → (s ≡ t) × (text ≡ other) }
{}
