//! A file that is to be saved: its name and its bytes.

use std::marker::Model;

/// A file's name and its bytes.
#[derive(Drop)]
pub struct Text {
    name: String,
    bytes: Vec<u8>,
}

impl Model for Text {
    ghost use Rattle.std.specs.Prelude.{string_bytes};
    ghost use Rattle.saved_files.specs.SavedFile.{SavedFile};

    ghost Value = { SavedFile };

    ghost view = { λ text. record { name = string_bytes text.name; bytes = text.bytes.items } };
}

impl Text {
    ghost use Rattle.std.specs.Prelude.{◌≡◌, string_bytes};
    ghost use Rattle.saved_files.specs.FilesOfAnswers.{file_of};

    /// A file of this name and these bytes.
    pub fn new(name: String, bytes: Vec<u8>) -> Self
        ensures { result ≡ file_of (string_bytes name) bytes.items }
    {
        Text { name, bytes }
    }

    /// Its name.
    pub fn name(&self) -> &str
        ensures { result.now ≡ self.now.name }
    {
        self.name.as_str()
    }

    /// Its bytes.
    pub fn bytes(&self) -> &[u8]
        ensures { result.now ≡ self.now.bytes }
    {
        self.bytes.as_slice()
    }
}
