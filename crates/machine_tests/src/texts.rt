//! Sources, scripts and traces, written as lines.

ghost use Rattle.std.specs.Prelude.{◌≤◌, IfSome};
ghost use Rattle.bus_script.specs.ScriptFits.{IsScriptFor};

use bus_script::{Script, read_script};
use flow_graph::Program;
use micro_asm::assemble;
use std::alloc::{AllocError, Global};

/// These lines, each with its line feed.
pub fn text_of(alloc: Global, lines: &[&[u8]]) -> Result<Vec<u8>, AllocError> {
    let mut text = Vec::new(alloc);
    for line in lines {
        text.extend_from_slice(line)?;
        text.push(b'\n')?;
    }
    Ok(text)
}

/// The program of a source.
pub fn assembled(alloc: Global, source: &[u8]) -> Option<Program> {
    if source.len() > 10_000 {
        return None;
    }
    assemble(alloc, source).ok()
}

/// The program of a source's lines.
pub fn program_of(alloc: Global, source: &[&[u8]]) -> Option<Program> {
    let text = text_of(alloc, source).ok()?;
    assembled(alloc, &text)
}

/// The script of a text, for an array of this many slices.
pub fn script_of(alloc: Global, script: &[&[u8]], slices: u8) -> Option<Script>
    requires { (1 ≤ slices) × (slices ≤ 16) }
    ensures { IfSome result (IsScriptFor slices) }
{
    let Ok(text) = text_of(alloc, script) else {
        return None;
    };
    if text.len() > 10_000 {
        return None;
    }
    read_script(alloc, &text, slices).ok()
}
