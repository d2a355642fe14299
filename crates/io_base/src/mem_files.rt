//! Files in memory: a map of names to bytes.
ghost use Rattle.std.specs.Prelude.{◌≡◌, ◌≢◌, ◌-◌, [], ◌++◌, length, ℕ, List, Some, min, OnOk, OnErr};
ghost use Rattle.io_base.specs.Shelf.{Reads, bytes_or_empty};
ghost use Rattle.io_base.specs.MemFiles.{file_in};

use crate::OutOfMemory;
use std::alloc::Global;
use std::collections::BTreeMap;

/// The bytes of each file by its name.
pub type MemFiles = BTreeMap<String, Vec<u8>>;

/// Copies bytes from the place `at` on into the front of `buf`, as many as there are and fit.
pub fn copy_from(bytes: &[u8], at: u64, buf: &mut [u8]) -> usize
    ensures count { result ≡ min (length bytes.now - at) (length buf.new) }
    ensures reads { Reads (Some bytes.now) at (Some result) buf.new }
{
    if at >= bytes.len() as u64 {
        return 0;
    }
    let rest = &bytes[at as usize..];
    let count = rest.len().min(buf.len());
    buf[..count].copy_from_slice(&rest[..count]);
    count
}

/// Puts a file that holds just these bytes. It fails only for want of memory.
#[tactic(auto, using(std::proofs::lemmas::Map::Text::text_keys))]
pub fn put(
    alloc: Global,
    files: &mut MemFiles,
    name: &str,
    bytes: Vec<u8>,
) -> Result<(), OutOfMemory>
    ensures ok { OnOk result (file_in files.new name.now ≡ Some bytes.items) }
    ensures err { OnErr result (file_in files.new name.now ≡ file_in files.old name.now) }
    ensures others { (other : List ℕ) → other ≢ name.now →
        file_in files.new other ≡ file_in files.old other }
{
    let key = String::from_str(alloc, name)?;
    files.insert(key, bytes)?;
    Ok(())
}

/// Adds a piece to a file. A name that is not there counts as an empty file. It fails only for want of memory.
#[tactic(auto, using(std::proofs::lemmas::Map::Text::text_keys))]
pub fn add(alloc: Global, files: &mut MemFiles, name: &str, piece: &[u8]) -> Result<(), OutOfMemory>
    ensures ok { OnOk result (file_in files.new name.now
        ≡ Some (bytes_or_empty (file_in files.old name.now) ++ piece.now)) }
    ensures err { OnErr result (file_in files.new name.now ≡ file_in files.old name.now) }
    ensures others { (other : List ℕ) → other ≢ name.now →
        file_in files.new other ≡ file_in files.old other }
{
    if let Some(bytes) = files.get_mut(name) {
        bytes.extend_from_slice(piece)?;
        return Ok(());
    }
    let copy = Vec::from_slice(alloc, piece)?;
    put(alloc, files, name, copy)
}
