//! The names of the files that are saved: a name of the user's and a suffix.
ghost use Rattle.std.specs.Prelude.{◌≡◌, ◌≤◌, ◌+◌, ◌++◌, IfOk, length, string_bytes};
ghost use Rattle.saved_files.specs.FileNames.{map_name, layout_name, image_name, refutation_name, undecided_name};

use io_base::OutOfMemory;
use itoa::Buffer;
use std::alloc::Global;

fn with_suffix(alloc: Global, out: &str, suffix: &str) -> Result<String, OutOfMemory>
    ensures { IfOk result (λ name. string_bytes name ≡ out.now ++ suffix.now) }
{
    let mut name = String::from_str(alloc, out)?;
    name.push_str(suffix)?;
    Ok(name)
}

/// The name of a map, `OUT.map`.
pub fn map_name(alloc: Global, out: &str) -> Result<String, OutOfMemory>
    ensures { IfOk result (λ name. string_bytes name ≡ map_name out.now) }
{
    let name = with_suffix(alloc, out, ".map")?;
    Ok(name)
}

/// The name of a layout, `OUT.lay`.
pub fn layout_name(alloc: Global, out: &str) -> Result<String, OutOfMemory>
    ensures { IfOk result (λ name. string_bytes name ≡ layout_name out.now) }
{
    let name = with_suffix(alloc, out, ".lay")?;
    Ok(name)
}

/// The name of the image of a number, counted from 0: `OUT.p0.bpnf` and so on.
///
/// It has at most 10 bytes more than `out`.
pub fn image_name(alloc: Global, out: &str, number: u8) -> Result<String, OutOfMemory>
    ensures name { IfOk result (λ name. string_bytes name ≡ image_name out.now number) }
    ensures short { IfOk result (λ name. length (string_bytes name) ≤ length out.now + 10) }
{
    let mut name = String::from_str(alloc, out)?;
    name.push_str(".p")?;
    name.push_str(Buffer::new().format(number))?;
    name.push_str(".bpnf")?;
    Ok(name)
}

/// The name of a refutation, `OUT.ref`.
pub fn refutation_name(alloc: Global, out: &str) -> Result<String, OutOfMemory>
    ensures { IfOk result (λ name. string_bytes name ≡ refutation_name out.now) }
{
    let name = with_suffix(alloc, out, ".ref")?;
    Ok(name)
}

/// The name of the file of a search that spent its budget, `OUT.part`.
pub fn undecided_name(alloc: Global, out: &str) -> Result<String, OutOfMemory>
    ensures { IfOk result (λ name. string_bytes name ≡ undecided_name out.now) }
{
    let name = with_suffix(alloc, out, ".part")?;
    Ok(name)
}
