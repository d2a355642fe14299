//! Files saved in their order, up to the first fault.
ghost use Rattle.std.specs.Prelude.{OnOk, IfErr};
ghost use Rattle.io_base.specs.Shelf.{GoesOn, CountsNoRead};
ghost use Rattle.saved_files.specs.Saving.{AreApart, AreShort, IsSaved, FailedAt, TakesOneEach, TakesOneUpTo};

use crate::Text;
use crate::one_file::save_file;
use io_base::{Failed, Shelf};

/// Saves files in their order, each by one create and one append. The error is the place of the file
/// whose save failed, from 0. It takes no memory.
pub fn save_all<S: Shelf>(shelf: &mut S, files: &[Text]) -> Result<(), usize>
    requires apart { AreApart files.now }
    requires short { AreShort files.now }
    ensures ok { OnOk result (IsSaved (S.state shelf.old) (S.state shelf.new) files.now) }
    ensures err { IfErr result (λ place. FailedAt (S.state shelf.old) (S.state shelf.new) files.now place) }
    ensures each_once { OnOk result (TakesOneEach (S.state shelf.old) (S.state shelf.new) files.now) }
    ensures up_to { IfErr result (λ place. TakesOneUpTo (S.state shelf.old) (S.state shelf.new) place) }
    ensures goes_on { GoesOn (S.state shelf.old) (S.state shelf.new) }
    ensures no_read { CountsNoRead (S.state shelf.old) (S.state shelf.new) }
{
    for (place, file) in files.iter().enumerate() {
        match save_file(shelf, file.name(), file.bytes()) {
            Ok(()) => {}
            Err(Failed) => return Err(place),
        }
    }
    Ok(())
}
