//! Laws of microwords and images.
ghost use Rattle.std.specs.Prelude.{ℕ, List, ◌≡◌, ◌<◌};
ghost use Rattle.bpnf.specs.Image.{Image, IsWidth};
ghost use Rattle.mcu_jumps.specs.Position.{Position};
ghost use Rattle.field_decl.specs.Declaration.{Declaration};
ghost use Rattle.flow_graph.specs.Graph.{Graph};
ghost use Rattle.place_model.specs.Legal.{IsLegal};
ghost use Rattle.prom_split.specs.Images.{AreImages, AreJoined, FitWords};
ghost use Rattle.prom_split.specs.Parts.{width_of};
ghost use Rattle.prom_split.specs.SavedBits.{IsSavedBit};
ghost use Rattle.prom_split.specs.Microword.{AreWords, HoldsProgram};

/// Where each bit of the words stands in the saved texts of their images.
pub fn each_bit_is_saved()
    ensures { (decl : Declaration) (words : List ℕ) (images : List Image) →
        IsWidth decl.prom_bits → AreImages decl words images → (address bit : ℕ) → address < 512 → bit < width_of decl →
        IsSavedBit decl.prom_bits words images address bit }
{}

/// What is read from the images of some words is these words, and some words have one list of images.
pub fn joined_images_are_the_words()
    ensures back { (decl : Declaration) (words read : List ℕ) (images : List Image) →
        FitWords decl words → AreImages decl words images → AreJoined decl images read → read ≡ words }
    ensures one { (decl : Declaration) (words : List ℕ) (images others : List Image) →
        AreImages decl words images → AreImages decl words others → images ≡ others }
{}

/// The words of a legal placement hold its program, and a legal placement has one list of words.
pub fn placed_words_hold_the_program()
    ensures hold { (g : Graph) (place : List Position) (words : List ℕ) →
        IsLegal g place → AreWords g place words → HoldsProgram g place words }
    ensures one { (g : Graph) (place : List Position) (words others : List ℕ) →
        IsLegal g place → AreWords g place words → AreWords g place others → words ≡ others }
{}
