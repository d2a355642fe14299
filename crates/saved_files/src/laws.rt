//! Laws of the saved files, over the definitions alone.
ghost use Rattle.std.specs.Prelude.{List, [], ◌∷◌, ◌++◌, ℕ};
ghost use Rattle.io_base.specs.Shelf.{ShelfState};
ghost use Rattle.saved_files.specs.FilesOfAnswers.{file_of};
ghost use Rattle.saved_files.specs.OneFile.{IsWritten, IsUnwritten};
ghost use Rattle.saved_files.specs.Saving.{IsSaved, FailedAt};

/// A file that was written by itself was saved as a list of one file, and likewise where it was not. What
/// was not written of a text was not written of any text that goes on from it.
pub fn one_written_file_is_saved()
    ensures saved { (old new : ShelfState) (name text : List ℕ) → IsWritten old new name text →
        IsSaved old new (file_of name text ∷ []) }
    ensures failed { (old new : ShelfState) (name text : List ℕ) → IsUnwritten old new name text →
        FailedAt old new (file_of name text ∷ []) 0 }
    ensures longer { (old new : ShelfState) (name text more : List ℕ) → IsUnwritten old new name text →
        IsUnwritten old new name (text ++ more) }
{}
