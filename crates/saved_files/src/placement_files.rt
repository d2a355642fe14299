//! The files of a placement, made before the first of them is saved.
ghost use Rattle.std.specs.Prelude.{◌≡◌, ◌≤◌, ◌++◌, IfOk, OnOk, length, map};
ghost use Rattle.saved_files.specs.FilesOfAnswers.{image_files, placed_files};
ghost use Rattle.saved_files.specs.Saving.{AreApart, AreShort};

use crate::Text;
use crate::names::{image_name, layout_name, map_name};
use io_base::{GIVEN_NAME_LIMIT, OutOfMemory};
use std::alloc::Global;

// Adds a file for each of these images, numbered from 0.
fn add_images(
    alloc: Global,
    files: &mut Vec<Text>,
    out: &str,
    images: Vec<Vec<u8>>,
) -> Result<(), OutOfMemory>
    requires few { length images.items ≤ 96 }
    ensures { OnOk result (files.new.items
        ≡ files.old.items ++ image_files out.now 0 (map (λ image. image.items) images.items)) }
{
    let mut number = 0;
    for image in images {
        files.push(Text::new(image_name(alloc, out, number)?, image))?;
        number += 1;
    }
    Ok(())
}

/// The files of a placement: `OUT.map`, `OUT.lay`, and an image for each of these texts, `OUT.p0.bpnf`
/// and so on. At most 96 images, which is more than any declaration has (`prom_count` gives at most 24). The names are such as `save_all`
/// asks for.
pub fn placed_files(
    alloc: Global,
    out: &str,
    map_text: Vec<u8>,
    layout_text: Vec<u8>,
    images: Vec<Vec<u8>>,
) -> Result<Vec<Text>, OutOfMemory>
    requires out_short { length out.now ≤ GIVEN_NAME_LIMIT }
    requires few { length images.items ≤ 96 }
    ensures files { IfOk result (λ files. files.items
        ≡ placed_files out.now map_text.items layout_text.items (map (λ image. image.items) images.items)) }
    ensures apart { IfOk result (λ files. AreApart files.items) }
    ensures short { IfOk result (λ files. AreShort files.items) }
{
    let mut files = Vec::new(alloc);
    files.push(Text::new(map_name(alloc, out)?, map_text))?;
    files.push(Text::new(layout_name(alloc, out)?, layout_text))?;
    add_images(alloc, &mut files, out, images)?;
    Ok(files)
}
