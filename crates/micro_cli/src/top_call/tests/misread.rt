//! A shelf whose reads give other bytes than it keeps: what is read back decides.
ghost use Rattle.std.specs.Prelude.{◌≤◌, length};

use super::{answers, shelf_with_script};
use io_base::{Failed, MemShelf, Shelf};
use replies::Status;
use std::test::Fail;

/// A shelf whose reads give `X` as the second byte of the image `o.p0.bpnf`, whatever it keeps.
#[derive(Drop)]
struct MisreadShelf {
    files: MemShelf,
}

impl Shelf for MisreadShelf {
    ghost use Rattle.std.specs.Prelude.{false};
    ghost use Rattle.io_base.specs.MemShelf.{shelf_of};

    ghost state = { λ shelf. record (shelf_of shelf.files) { tells = false } };

    fn read_at(&mut self, name: &str, at: u64, buf: &mut [u8]) -> Result<Option<usize>, Failed> {
        let given = self.files.read_at(name, at, buf)?;
        if name == "o.p0.bpnf" && at == 0 && buf.len() > 1 {
            buf[1] = b'X';
        }
        Ok(given)
    }

    fn create(&mut self, name: &str) -> Result<(), Failed> {
        self.files.create(name)
    }

    fn append(&mut self, name: &str, piece: &[u8]) -> Result<(), Failed> {
        self.files.append(name, piece)
    }
}

#[test]
fn what_is_misread_is_refused(rt: HostRuntime) -> Result<(), Fail> {
    let source = b"slices 1\nstart A\npin A 0 0\nA: NOP R0 | goto A\n";
    let mut shelf = MisreadShelf {
        files: shelf_with_script(rt.alloc(), source, b"")?,
    };
    let words = ["make", "s", "t", "o", "clocks=2", "conflicts=0"];
    let text = b"refused o.p0.bpnf byte 1 BadLetter\n";
    assert!(rt; answers(rt.alloc(), &mut shelf, &words, Status::Input, text)?);
    let image = shelf.files.file("o.p0.bpnf").unwrap_or(&[]);
    assert!(rt; image.len() == 3584 && image[1] != b'X');
    Ok(())
}
