//! The step that reads a layout.
ghost use Rattle.std.specs.Prelude.{◌≡◌, ◌≤◌, MatchResult, length};
ghost use Rattle.io_base.specs.Shelf.{GoesOn, CountsNoChange};
ghost use Rattle.field_decl.specs.Decls.{declaration_of};
ghost use Rattle.replies.specs.Ending.{StopsBy};
ghost use Rattle.saved_files.specs.FileNames.{layout_name};
ghost use Rattle.prom_files.specs.LayoutStep.{HasLayout, LayoutReply};

use field_decl::{Decl, DeclFault, read_decl};
use io_base::{NAME_LIMIT, Shelf};
use replies::{Stop, load_file, refuse_asm};
use std::alloc::Global;

/// The most bytes of a layout.
pub const LAYOUT_LIMIT: u64 = 65_536;

/// Loads and reads the layout `name` of the output `out`, or stops with the reply that refuses it.
pub fn load_layout<S: Shelf>(
    alloc: Global,
    shelf: &mut S,
    out: &str,
    name: &str,
) -> Result<Decl, Stop>
    requires named { name.now ≡ layout_name out.now }
    requires short { length name.now ≤ NAME_LIMIT }
    ensures step { MatchResult result
        (λ decl. HasLayout out.now (S.state shelf.old) (S.state shelf.new) (declaration_of decl))
        (StopsBy (LayoutReply out.now (S.state shelf.old) (S.state shelf.new))) }
    ensures same { (S.state shelf.new).file ≡ (S.state shelf.old).file }
    ensures no_change { CountsNoChange (S.state shelf.old) (S.state shelf.new) }
    ensures goes_on { GoesOn (S.state shelf.old) (S.state shelf.new) }
{
    match load_file(alloc, shelf, name, LAYOUT_LIMIT) {
        Ok(bytes) => match read_decl(alloc, &bytes) {
            Ok(decl) => Ok(decl),
            Err(DeclFault::At { line, kind }) => Err(refuse_asm(alloc, name, line, kind)),
            Err(DeclFault::OutOfMemory) => Err(Stop::OutOfMemory),
        },
        Err(stop) => Err(stop),
    }
}
