//! The names of the files, and how it is told that one was not saved.

use io_base::OutOfMemory;
use saved_files::{
    image_name, layout_name, map_name, refutation_name, room_for_unsaved, say_unsaved,
    undecided_name,
};
use std::alloc::Global;
use std::test::Fail;

// Whether the map and the layout of `o` have these names.
fn placement_is_named(alloc: Global, map: &str, layout: &str) -> Result<bool, OutOfMemory> {
    let map_file = map_name(alloc, "o")?;
    let layout_file = layout_name(alloc, "o")?;
    Ok(map_file.as_str() == map && layout_file.as_str() == layout)
}

// Whether the image of `o` with this number has this name.
fn image_is_named(alloc: Global, number: u8, name: &str) -> Result<bool, OutOfMemory> {
    let file = image_name(alloc, "o", number)?;
    Ok(file.as_str() == name)
}

// Whether the refutation of `o` and the file of a search that ended early have these names.
fn search_is_named(alloc: Global, refutation: &str, undecided: &str) -> Result<bool, OutOfMemory> {
    let refutation_file = refutation_name(alloc, "o")?;
    let undecided_file = undecided_name(alloc, "o")?;
    Ok(refutation_file.as_str() == refutation && undecided_file.as_str() == undecided)
}

#[test]
fn names_have_their_suffixes(rt: HostRuntime) -> Result<(), Fail> {
    let alloc = rt.alloc();
    assert!(rt; placement_is_named(alloc, "o.map", "o.lay")?);
    assert!(rt; image_is_named(alloc, 0, "o.p0.bpnf")?);
    assert!(rt; image_is_named(alloc, 255, "o.p255.bpnf")?);
    assert!(rt; search_is_named(alloc, "o.ref", "o.part")?);
    Ok(())
}

#[test]
fn unsaved_files_are_told(rt: HostRuntime) -> Result<(), Fail> {
    let mut text = room_for_unsaved(rt.alloc())?;
    say_unsaved(&mut text, "o.p0.bpnf");
    assert_eq!(rt; text.as_slice(), b"cannot save o.p0.bpnf\n".as_slice());
    Ok(())
}
