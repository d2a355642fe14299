//! Buravelo's command line: microprograms for Intel's 3001 and 3002, placed, checked and run. Layer: program.
//!
//! `top_call::top` is the whole program over a shelf of files and a sink of bytes, and its contract is what the
//! program promises; `main` hands it the words, the files of the system and standard output.
//!
//! Contracts: `top`.
#![tactic(auto)]

mod answer_files;
mod answering;
mod check_command;
mod checker_texts;
mod command_words;
mod flow_command;
mod inputs;
mod laws;
mod make_command;
mod map_command;
mod numbers;
mod search_texts;
mod searches;
mod top_call;

use io_base::{FileShelf, StdSink};
use replies::Status;
use std::env;
use std::io::ErrorKind;
use std::process::ExitCode;
use top_call::top;

fn main(rt: HostRuntime) -> ExitCode {
    let alloc = rt.alloc();
    let words = match env::args(&rt) {
        Ok(args) => match args.skip(1).collect(alloc) {
            Ok(words) => words,
            Err(_) => return ExitCode::from(Status::NoMemory.number()),
        },
        Err(e) if e.kind() == ErrorKind::OutOfMemory => return ExitCode::from(
            Status::NoMemory.number(),
        ),
        Err(_) => Vec::new(alloc),
    };
    let mut shelf = FileShelf::new(&rt);
    let mut out = StdSink::new(&rt);
    let status = top(alloc, words.as_slice(), &mut shelf, &mut out);
    ExitCode::from(status.number())
}
