//! Laws of the grammar: it allows just one answer for a text, and a printed text is read again.

ghost use Rattle.std.specs.Prelude.{ℕ, ◌≡◌, List, Result, Ok};
ghost use Rattle.bpnf.specs.declared.fault.BpnfFault.{BpnfFault};
ghost use Rattle.bpnf.specs.Canonical.{image_text};
ghost use Rattle.bpnf.specs.FirstFault.{Reads};
ghost use Rattle.bpnf.specs.Image.{Image, IsImage};
ghost use Rattle.bpnf.specs.Reading.{reading};

/// The grammar allows just one answer for a text, its words or its first fault: there is one, and
/// any other that it allows is the same. So the accepted texts are exactly those with no fault.
pub fn each_text_has_one_reading()
    ensures some { (bits count : ℕ) (text : List ℕ) → Reads bits count text (reading bits count text) }
    ensures only { (bits count : ℕ) (text : List ℕ) (answer : Result (List ℕ) BpnfFault) →
        Reads bits count text answer → answer ≡ reading bits count text }
{}

/// The canonical text of an image is a text that the grammar reads as that image.
pub fn printed_text_is_read()
    ensures { (image : Image) → IsImage image →
        Reads image.bits 512 (image_text image) (Ok image.words) }
{}
