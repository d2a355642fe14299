//! The files of a placement: map, layout and images of a program, made before the first is saved.
ghost use Rattle.std.specs.Prelude.{◌≡◌, ◌≤◌, IfOk, length, map};
ghost use Rattle.bpnf.specs.Canonical.{image_text};
ghost use Rattle.flow_graph.specs.Graph.{graph_of};
ghost use Rattle.place_model.specs.Legal.{IsLegal};
ghost use Rattle.saved_files.specs.Saving.{AreApart, AreShort};
ghost use Rattle.bench_answers.specs.PlacedFiles.{PlacesFiles};

use bpnf::{Prom, print};
use bus_bench::programs_have_graphs;
use field_decl::print_decl;
use flow_graph::Program;
use io_base::{GIVEN_NAME_LIMIT, OutOfMemory};
use place_model::{Placement, map_text};
use prom_split::{split, words_of};
use saved_files::{Text, placed_files};
use std::alloc::Global;

// The canonical text of each image.
fn image_texts(alloc: Global, images: &[Prom]) -> Result<Vec<Vec<u8>>, OutOfMemory>
    ensures { IfOk result (λ texts. map (λ text. text.items) texts.items ≡ map image_text images.now) }
{
    let mut texts = Vec::new(alloc);
    for image in images {
        texts.push(print(alloc, image)?)?;
    }
    Ok(texts)
}

/// The files of a legal placement: its map, its layout and its images.
pub(crate) fn files_of(
    alloc: Global,
    out: &str,
    program: &Program,
    placement: &Placement,
) -> Result<Vec<Text>, OutOfMemory>
    requires out_short { length out.now ≤ GIVEN_NAME_LIMIT }
    requires legal { IsLegal (graph_of program.now) placement.now }
    ensures files { IfOk result (λ files. PlacesFiles out.now (graph_of program.now) placement.now files.items) }
    ensures apart { IfOk result (λ files. AreApart files.items) }
    ensures short { IfOk result (λ files. AreShort files.items) }
{
    programs_have_graphs(program);
    let map_bytes = map_text(alloc, program, placement)?;
    let layout_bytes = print_decl(alloc, program.decl())?;
    let words = words_of(alloc, program, placement)?;
    let images = split(alloc, &words, program.decl())?;
    let texts = image_texts(alloc, &images)?;
    let files = placed_files(alloc, out, map_bytes, layout_bytes, texts)?;
    Ok(files)
}
