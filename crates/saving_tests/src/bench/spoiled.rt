//! A shelf that is not honest: what is read back decides, and not what was saved.

ghost use Rattle.io_base.specs.Shelf.{SameButFiles, KeepsOthers};
ghost use Rattle.io_base.specs.MemShelf.{shelf_of};

use super::saves_loop;
use io_base::{Failed, MemShelf, OutOfMemory, Shelf};
use replies::Status;
use std::alloc::Global;

/// A shelf that keeps other bytes of the image `o.p0.bpnf` than it is given: the second is `X`. It tells what it keeps.
#[derive(Drop)]
struct SpoilShelf {
    alloc: Global,
    files: MemShelf,
}

// Makes the second byte of a file `X`.
fn spoil(alloc: Global, files: &mut MemShelf, name: &str) -> Result<(), OutOfMemory>
    ensures counts { SameButFiles (shelf_of files.old) (shelf_of files.new) }
    ensures others { KeepsOthers (shelf_of files.old) (shelf_of files.new) name.now }
{
    let mut bytes = Vec::from_slice(alloc, files.file(name).unwrap_or(&[]))?;
    if bytes.len() > 1 {
        bytes[1] = b'X';
    }
    files.put_file(name, &bytes)
}

impl Shelf for SpoilShelf {
    ghost use Rattle.std.specs.Prelude.{false};
    ghost use Rattle.io_base.specs.MemShelf.{shelf_of};

    ghost state = { λ shelf. record (shelf_of shelf.files) { honest = false } };

    fn read_at(&mut self, name: &str, at: u64, buf: &mut [u8]) -> Result<Option<usize>, Failed> {
        self.files.read_at(name, at, buf)
    }

    fn create(&mut self, name: &str) -> Result<(), Failed> {
        self.files.create(name)
    }

    fn append(&mut self, name: &str, piece: &[u8]) -> Result<(), Failed> {
        self.files.append(name, piece)?;
        if name == "o.p0.bpnf" {
            let _spoiled = spoil(self.alloc, &mut self.files, name);
        }
        Ok(())
    }
}

#[test]
fn a_spoiled_image_is_refused(rt: HostRuntime) {
    let mut shelf = SpoilShelf {
        alloc: rt.alloc(),
        files: MemShelf::new(rt.alloc()),
    };
    let text = b"refused o.p0.bpnf byte 1 BadLetter\n";
    assert!(rt; saves_loop(rt.alloc(), &mut shelf, b"", 3, Status::Input, text));
    let image = shelf.files.file("o.p0.bpnf").unwrap_or(&[]);
    assert!(rt; image.len() == 3584);
}
