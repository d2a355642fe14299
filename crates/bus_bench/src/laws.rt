//! The law that chip and flow match. It stands over the definitions alone, so its functions do nothing.
ghost use Rattle.std.specs.Prelude.{ℕ, ◌≡◌, List};
ghost use Rattle.mcu_jumps.specs.Position.{Position};
ghost use Rattle.flow_graph.specs.Graph.{Graph, graph_of};
ghost use Rattle.bus_script.specs.Script.{BusScript};
ghost use Rattle.bus_script.specs.ScriptFits.{IsScriptFor};
ghost use Rattle.place_model.specs.Legal.{IsLegal};
ghost use Rattle.prom_split.specs.Microword.{AreWords, HoldsProgram, HasNoBadShift};
ghost use Rattle.flow_sim.specs.Flow.{flow_trace};
ghost use Rattle.bus_bench.specs.Chip.{chip_trace};
ghost use Rattle.bus_bench.specs.Law.{IsGraph};
ghost use Rattle.bus_bench.specs.Matches.{Matches};

use flow_graph::Program;
use prom_split::placed_words_hold_the_program;

/// The chip matches the flow: for every legal placement, all words that hold the program, with any jumps that are
/// legal there, every script that fits, and every number of clocks.
pub fn chip_matches_flow()
    ensures { (g : Graph) (place : List Position) (words : List ℕ) (script : BusScript) (n : ℕ) → IsGraph g → IsLegal g place → HoldsProgram g place words → IsScriptFor g.decl.slices script → Matches place (chip_trace words g.decl script n) (flow_trace g script n) }
{}

/// The words of a legal placement hold the program, they are one list, and words that hold a program have no right
/// shift with K bits other than 0.
pub fn words_of_a_placement()
    ensures hold { (g : Graph) (place : List Position) (words : List ℕ) → IsLegal g place → AreWords g place words → HoldsProgram g place words }
    ensures one { (g : Graph) (place : List Position) (words others : List ℕ) → IsLegal g place → AreWords g place words → AreWords g place others → words ≡ others }
    ensures no_bad_shift { (g : Graph) (place : List Position) (words : List ℕ) → IsGraph g → IsLegal g place → HoldsProgram g place words → HasNoBadShift words g.decl }
{
    placed_words_hold_the_program();
}

/// The graph of every program is one that the law speaks of.
pub fn programs_have_graphs(program: &Program)
    ensures { IsGraph (graph_of program.now) }
{}
