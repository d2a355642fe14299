//! The files of the system, as a shelf. Trusted to do what the system's calls are said to do.
ghost use Rattle.std.specs.Prelude.{◌≡◌, ◌≤◌, length, IfOk};
ghost use Rattle.io_base.specs.Shelf.{IsUncounted};
ghost use Rattle.io_base.specs.ShelfCounts.{untold_shelf};

use crate::shelf_counts::ShelfCounts;
use crate::{Failed, NAME_LIMIT, Shelf};
use arrayvec::ArrayVec;
use std::fs::{File, OpenFile, OpenOptions};
use std::io;
use std::io::{ErrorKind, Read, Seek, SeekFrom, Write};
use std::marker::Model;
use std::rt::Files;

/// A file that is being read, and the place up to which it was read.
#[derive(Drop)]
struct Reading<F> {
    name: ArrayVec<u8, NAME_LIMIT>,
    at: u64,
    file: F,
}

/// The files of the system. It does not tell their content, and no clause relies on its honesty.
///
/// A file that is read from its beginning on stays open up to its end, so what is read is one file even where another
/// takes its name meanwhile, and may be a pipe. No other call leaves a file open.
#[derive(Drop)]
pub struct FileShelf<R: Files> {
    rt: R,
    counts: ShelfCounts,
    reading: Option<Reading<R::File>>,
}

impl<R: Files> Model for FileShelf<R> {
    ghost use Rattle.io_base.specs.ShelfCounts.{Counts};

    ghost Value = { Counts };

    ghost view = { λ s. s.counts };
}

impl<R: Files> FileShelf<R> {
    /// The files that the runtime reaches, with nothing counted.
    pub fn new(rt: R) -> Self
        ensures { IsUncounted (untold_shelf result) }
    {
        FileShelf {
            rt,
            counts: ShelfCounts::new(),
            reading: None,
        }
    }
}

// Opens a file that is to be read from a place on. A pipe cannot be sought in, and is read from its beginning.
fn open_at<R: Files>(rt: &R, name: &str, at: u64) -> io::Result<Reading<R::File>>
    requires { length name.now ≤ NAME_LIMIT }
{
    let mut file = File::open(rt, name)?;
    if at > 0 {
        file.seek(SeekFrom::Start(at))?;
    }
    let mut kept = ArrayVec::new();
    let _ = kept.try_extend_from_slice(name.as_bytes());
    Ok(Reading {
        name: kept,
        at,
        file,
    })
}

// Reads once more where a read was only interrupted.
fn read_some<F: Read>(file: &mut F, buf: &mut [u8]) -> io::Result<usize>
    ensures { IfOk result (λ n. n ≤ length buf.new) }
{
    for _ in 0..u64::MAX {
        match file.read(buf) {
            Err(e) if e.kind() == ErrorKind::Interrupted => {}
            done => return done,
        }
    }
    Err(io::Error::from(ErrorKind::Interrupted))
}

// Hands a file's bytes on to the system's disk, which tells then what it could not write. What has no disk, such as a
// pipe, keeps nothing back.
fn sync<F: OpenFile>(file: &F) -> io::Result<()> {
    match file.sync_all() {
        Err(e) if e.kind() == ErrorKind::InvalidInput => Ok(()),
        done => done,
    }
}

// Writes the piece at the end of a file, which is made where it is not there.
fn write_at_end<R: Files>(rt: &R, name: &str, piece: &[u8]) -> io::Result<()> {
    let mut file = OpenOptions::new().append(true).create(true).open(rt, name)?;
    file.write_all(piece)?;
    sync(&file)
}

impl<R: Files> FileShelf<R> {
    // Reads a file from a place on, and keeps it open up to its end.
    fn read_on(&mut self, name: &str, at: u64, buf: &mut [u8]) -> io::Result<usize>
        requires { length name.now ≤ NAME_LIMIT }
        ensures read { IfOk result (λ n. n ≤ length buf.new) }
        ensures counts { self.new ≡ self.old }
    {
        let mut reading = match self.reading.take() {
            Some(open) if at > 0 && open.at == at && open.name.as_slice() == name.as_bytes() =>
                open,
            _ => open_at(&self.rt, name, at)?,
        };
        let count = read_some(&mut reading.file, buf)?;
        if count > 0 {
            reading.at = at.saturating_add(count as u64);
            self.reading = Some(reading);
        }
        Ok(count)
    }
}

impl<R: Files> Shelf for FileShelf<R> {
    ghost state = { untold_shelf };

    fn read_at(&mut self, name: &str, at: u64, buf: &mut [u8]) -> Result<Option<usize>, Failed> {
        match self.read_on(name, at, buf) {
            Ok(count) => {
                self.counts.count_taken(count);
                Ok(Some(count))
            }
            Err(e) if e.kind() == ErrorKind::NotFound => {
                self.counts.count_absent();
                Ok(None)
            }
            Err(_) => {
                self.counts.count_fault(name);
                Err(Failed)
            }
        }
    }

    fn create(&mut self, name: &str) -> Result<(), Failed> {
        self.counts.count_create();
        self.reading = None;
        match File::create(&self.rt, name) {
            Ok(_) => Ok(()),
            Err(_) => {
                self.counts.count_fault(name);
                Err(Failed)
            }
        }
    }

    fn append(&mut self, name: &str, piece: &[u8]) -> Result<(), Failed> {
        self.counts.count_append();
        self.reading = None;
        match write_at_end(&self.rt, name, piece) {
            Ok(()) => Ok(()),
            Err(_) => {
                self.counts.count_fault(name);
                Err(Failed)
            }
        }
    }
}
