//! Laws of what was saved and read back. They stand over the definitions alone, so their functions do nothing of
//! their own.
ghost use Rattle.std.specs.Prelude.{ℕ, List, ◌≡◌, ◌⊎◌, Ok};
ghost use Rattle.io_base.specs.Shelf.{ShelfState, IsTold};
ghost use Rattle.mcu_jumps.specs.Position.{Position};
ghost use Rattle.flow_graph.specs.Graph.{Graph};
ghost use Rattle.bus_script.specs.Script.{BusScript, script_of};
ghost use Rattle.bus_script.specs.ScriptFits.{IsScriptFor};
ghost use Rattle.flow_sim.specs.Flow.{flow_trace};
ghost use Rattle.bus_bench.specs.Chip.{chip_trace};
ghost use Rattle.bus_bench.specs.Matches.{Matches};
ghost use Rattle.saved_files.specs.SavedFile.{SavedFile};
ghost use Rattle.replies.specs.declared.status.Status.{Status};
ghost use Rattle.bench_answers.specs.RunOrder.{RunOrder};
ghost use Rattle.bench_answers.specs.PlacedFiles.{PlacesFiles};
ghost use Rattle.bench_answers.specs.ReadingBack.{BackReply, CannotReadBack, IsPlacedRun};
ghost use Rattle.bench_answers.specs.Placed.{AreSaved};

use bus_bench::{chip_matches_flow, words_of_a_placement};

/// Over a shelf that tells its files and is honest, what is read back of a saved placement is that placement: the
/// reply is `placed` and the trace of its very words under what the script says, unless a read fails, which is told
/// by its name.
pub fn saved_is_read_back()
    ensures { (order : RunOrder) (g : Graph) (place : List Position) (files : List SavedFile) (said : BusScript) (old new : ShelfState) (s : Status) (text : List ℕ) →
        IsTold old → (placed : PlacesFiles order.out g place files) → script_of g.decl.slices order.bytes ≡ Ok said →
        (all : AreSaved files old new) → BackReply order all.after new s text →
        CannotReadBack all.after new s text ⊎ IsPlacedRun g.decl placed.words said order.clocks s text }
{
    words_of_a_placement();
}

/// The bench on the words of a placement follows the symbolic flow, for every script that fits the array and every
/// number of clocks.
pub fn images_follow_the_flow()
    ensures { (out : List ℕ) (g : Graph) (place : List Position) (files : List SavedFile) (script : BusScript) (n : ℕ) →
        (placed : PlacesFiles out g place files) → IsScriptFor g.decl.slices script →
        Matches place (chip_trace placed.words g.decl script n) (flow_trace g script n) }
{
    words_of_a_placement();
    chip_matches_flow();
}
