//! The step that reads the images of an output.
ghost use Rattle.std.specs.Prelude.{◌≡◌, ◌≤◌, MatchResult, IfOk, length};
ghost use Rattle.io_base.specs.Shelf.{GoesOn, CountsNoChange};
ghost use Rattle.bpnf.specs.Image.{IsWidth};
ghost use Rattle.replies.specs.Texts.{Refuses};
ghost use Rattle.replies.specs.Ending.{StopsBy};
ghost use Rattle.saved_files.specs.FileNames.{image_name};
ghost use Rattle.prom_files.specs.ImageTexts.{bpnf_reason, at_byte};
ghost use Rattle.prom_files.specs.ImagesStep.{HasImage, HasImages, ImageReply, ImagesReply};

use bpnf::{BpnfFault, Prom, read};
use io_base::{GIVEN_NAME_LIMIT, NAME_LIMIT, OutOfMemory, Shelf};
use itoa::Buffer;
use replies::{Stop, load_file, refuse};
use saved_files::image_name;
use std::alloc::Global;

/// The most bytes of an image's text.
pub const IMAGE_LIMIT: u64 = 65_536;

// A fault at a byte.
fn at_byte(alloc: Global, position: usize, kind: &[u8]) -> Result<Vec<u8>, OutOfMemory>
    ensures { IfOk result (λ text. text.items ≡ at_byte position kind.now) }
{
    let mut text = Vec::from_slice(alloc, b"byte ")?;
    text.extend_from_slice(Buffer::new().format(position).as_bytes())?;
    text.extend_from_slice(b" ")?;
    text.extend_from_slice(kind)?;
    Ok(text)
}

// Too few words.
fn too_few(alloc: Global, words: u16) -> Result<Vec<u8>, OutOfMemory>
    ensures { IfOk result (λ text. text.items ≡ bpnf_reason (BpnfFault.TooFew words)) }
{
    let mut text = Vec::from_slice(alloc, b"words ")?;
    text.extend_from_slice(Buffer::new().format(words).as_bytes())?;
    text.extend_from_slice(b" TooFew")?;
    Ok(text)
}

// How the first fault of a text is called.
fn bpnf_reason(alloc: Global, fault: BpnfFault) -> Result<Vec<u8>, OutOfMemory>
    ensures { IfOk result (λ text. text.items ≡ bpnf_reason fault) }
{
    match fault {
        BpnfFault::BadLetter(position) => at_byte(alloc, position, b"BadLetter"),
        BpnfFault::CutWord(position) => at_byte(alloc, position, b"CutWord"),
        BpnfFault::TooMany(position) => at_byte(alloc, position, b"TooMany"),
        BpnfFault::TooFew(words) => too_few(alloc, words),
        BpnfFault::OutOfMemory => Err(OutOfMemory),
    }
}

// Refuses an image for the first fault of its text.
fn refuse_image(alloc: Global, name: &str, fault: BpnfFault) -> Stop
    ensures { StopsBy (Refuses name.now (bpnf_reason fault)) result }
{
    match bpnf_reason(alloc, fault) {
        Ok(why) => refuse(alloc, name, &why),
        Err(OutOfMemory) => Stop::OutOfMemory,
    }
}

// Loads and reads one image, or stops with the reply that refuses it.
fn load_image<S: Shelf>(alloc: Global, shelf: &mut S, name: &str, bits: u8) -> Result<Prom, Stop>
    requires bits { IsWidth bits }
    requires short { length name.now ≤ NAME_LIMIT }
    ensures step { MatchResult result
        (HasImage name.now bits (S.state shelf.old) (S.state shelf.new))
        (StopsBy (ImageReply name.now bits (S.state shelf.old) (S.state shelf.new))) }
    ensures same { (S.state shelf.new).file ≡ (S.state shelf.old).file }
    ensures no_change { CountsNoChange (S.state shelf.old) (S.state shelf.new) }
    ensures goes_on { GoesOn (S.state shelf.old) (S.state shelf.new) }
{
    match load_file(alloc, shelf, name, IMAGE_LIMIT) {
        Ok(bytes) => match read(alloc, &bytes, bits) {
            Ok(prom) => Ok(prom),
            Err(BpnfFault::OutOfMemory) => Err(Stop::OutOfMemory),
            Err(fault) => Err(refuse_image(alloc, name, fault)),
        },
        Err(stop) => Err(stop),
    }
}

// Loads and reads the image of a number, or stops with the reply that refuses it.
fn load_numbered<S: Shelf>(
    alloc: Global,
    shelf: &mut S,
    out: &str,
    bits: u8,
    number: u8,
) -> Result<Prom, Stop>
    requires bits { IsWidth bits }
    requires short { length out.now ≤ GIVEN_NAME_LIMIT }
    ensures step { MatchResult result
        (HasImage (image_name out.now number) bits (S.state shelf.old) (S.state shelf.new))
        (StopsBy (ImageReply (image_name out.now number) bits (S.state shelf.old) (S.state shelf.new))) }
    ensures same { (S.state shelf.new).file ≡ (S.state shelf.old).file }
    ensures no_change { CountsNoChange (S.state shelf.old) (S.state shelf.new) }
    ensures goes_on { GoesOn (S.state shelf.old) (S.state shelf.new) }
{
    match image_name(alloc, out, number) {
        Ok(name) => load_image(alloc, shelf, name.as_str(), bits),
        Err(OutOfMemory) => Err(Stop::OutOfMemory),
    }
}

/// Loads and reads so many images of an output in rising order, or stops at the first that is not had.
pub fn load_images<S: Shelf>(
    alloc: Global,
    shelf: &mut S,
    out: &str,
    bits: u8,
    count: u8,
) -> Result<Vec<Prom>, Stop>
    requires bits { IsWidth bits }
    requires short { length out.now ≤ GIVEN_NAME_LIMIT }
    ensures step { MatchResult result
        (λ images. HasImages out.now bits count (S.state shelf.old) (S.state shelf.new) images.items)
        (StopsBy (ImagesReply out.now bits count (S.state shelf.old) (S.state shelf.new))) }
    ensures same { (S.state shelf.new).file ≡ (S.state shelf.old).file }
    ensures no_change { CountsNoChange (S.state shelf.old) (S.state shelf.new) }
    ensures goes_on { GoesOn (S.state shelf.old) (S.state shelf.new) }
{
    let mut images = Vec::new(alloc);
    for number in 0..count {
        match load_numbered(alloc, shelf, out, bits, number) {
            Ok(image) => match images.push(image) {
                Ok(()) => {}
                Err(_) => return Err(Stop::OutOfMemory),
            },
            Err(stop) => return Err(stop),
        }
    }
    Ok(images)
}
