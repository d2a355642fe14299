//! The step that reads the microwords saved under a name.
ghost use Rattle.std.specs.Prelude.{◌≡◌, ◌≤◌, MatchResult, length};
ghost use Rattle.io_base.specs.Shelf.{GoesOn, CountsNoChange};
ghost use Rattle.field_decl.specs.Decls.{declaration_of};
ghost use Rattle.replies.specs.Ending.{StopsBy};
ghost use Rattle.prom_split.specs.Images.{image_count};
ghost use Rattle.prom_files.specs.ImagesStep.{ImagesReply};
ghost use Rattle.prom_files.specs.WordsStep.{HasJoined, HasWords, WordsReply};

use crate::images_step::load_images;
use crate::layout_step::load_layout;
use field_decl::{Decl, prom_count};
use io_base::{GIVEN_NAME_LIMIT, OutOfMemory, Shelf};
use prom_split::{JoinFault, Words, join};
use replies::Stop;
use saved_files::layout_name;
use std::alloc::Global;

/// What layout and images hold: the declaration, and the words of all cells.
#[derive(Drop)]
pub struct SavedWords {
    /// What the layout declares.
    pub decl: Decl,
    /// The words that the images join to.
    pub words: Words,
}

// Reads the images of a declaration, and joins them.
fn load_joined<S: Shelf>(
    alloc: Global,
    shelf: &mut S,
    out: &str,
    decl: &Decl,
) -> Result<Words, Stop>
    requires { length out.now ≤ GIVEN_NAME_LIMIT }
    ensures step { MatchResult result
        (HasJoined out.now (S.state shelf.old) (S.state shelf.new) (declaration_of decl.now))
        (StopsBy (ImagesReply out.now decl.now.prom_bits (image_count (declaration_of decl.now)) (S.state shelf.old) (S.state shelf.new))) }
    ensures same { (S.state shelf.new).file ≡ (S.state shelf.old).file }
    ensures no_change { CountsNoChange (S.state shelf.old) (S.state shelf.new) }
    ensures goes_on { GoesOn (S.state shelf.old) (S.state shelf.new) }
{
    match load_images(alloc, shelf, out, decl.prom_bits, prom_count(decl) as u8) {
        Ok(images) => match join(alloc, &images, decl) {
            Ok(words) => Ok(words),
            Err(JoinFault::OutOfMemory) => Err(Stop::OutOfMemory),
            // The declaration gives the number of the images and their width.
            Err(JoinFault::PromCount(_)) => unreachable!(),
            Err(JoinFault::PromWidth(_)) => unreachable!(),
        },
        Err(stop) => Err(stop),
    }
}

/// Loads layout and images of an output, and joins them, or stops with the reply that refuses the first file that
/// is not had.
pub fn load_words<S: Shelf>(alloc: Global, shelf: &mut S, out: &str) -> Result<SavedWords, Stop>
    requires { length out.now ≤ GIVEN_NAME_LIMIT }
    ensures step { MatchResult result
        (λ saved. HasWords out.now (S.state shelf.old) (S.state shelf.new) (declaration_of saved.decl) saved.words)
        (StopsBy (WordsReply out.now (S.state shelf.old) (S.state shelf.new))) }
    ensures same { (S.state shelf.new).file ≡ (S.state shelf.old).file }
    ensures no_change { CountsNoChange (S.state shelf.old) (S.state shelf.new) }
    ensures goes_on { GoesOn (S.state shelf.old) (S.state shelf.new) }
{
    let name = match layout_name(alloc, out) {
        Ok(name) => name,
        Err(OutOfMemory) => return Err(Stop::OutOfMemory),
    };
    let decl = match load_layout(alloc, shelf, out, name.as_str()) {
        Ok(decl) => decl,
        Err(stop) => return Err(stop),
    };
    match load_joined(alloc, shelf, out, &decl) {
        Ok(words) => Ok(SavedWords { decl, words }),
        Err(stop) => Err(stop),
    }
}
