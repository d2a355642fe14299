//! Files saved in their order over a shelf in memory: what stands where no call fails, and after each
//! call that fails.
ghost use Rattle.std.specs.Prelude.{IfOk};
ghost use Rattle.saved_files.specs.Saving.{AreApart, AreShort};

use super::{ABSENT, holds};
use io_base::{CallKind, MemShelf, OutOfMemory};
use saved_files::{Text, placed_files, save_all};
use std::alloc::Global;
use std::test::Fail;

/// A call that fails, what is answered, and the map, the layout and the first image then.
type Case = (
    Option<(CallKind, u32)>,
    Result<(), usize>,
    [&'static [u8]; 3],
);

// The files of a placement with these texts.
fn three_files(alloc: Global) -> Result<Vec<Text>, OutOfMemory>
    ensures apart { IfOk result (λ files. AreApart files.items) }
    ensures short { IfOk result (λ files. AreShort files.items) }
{
    let mut images = Vec::new(alloc);
    images.push(Vec::from_slice(alloc, b"hij")?)?;
    let map = Vec::from_slice(alloc, b"abc")?;
    let layout = Vec::from_slice(alloc, b"defg")?;
    placed_files(alloc, "o", map, layout, images)
}

// A shelf with an old layout, and with files of other names.
fn old_shelf(alloc: Global) -> Result<MemShelf, OutOfMemory> {
    let mut shelf = MemShelf::new(alloc);
    shelf.put_file("o.lay", b"old layout")?;
    shelf.put_file("o.p1.bpnf", b"old image")?;
    shelf.put_file("other", b"other")?;
    Ok(shelf)
}

const CASES: [Case; 7] = [
    (None, Ok(()), [b"abc", b"defg", b"hij"]),
    (
        Some((CallKind::Create, 1)),
        Err(0),
        [ABSENT, b"old layout", ABSENT],
    ),
    (
        Some((CallKind::Append, 1)),
        Err(0),
        [b"a", b"old layout", ABSENT],
    ),
    (
        Some((CallKind::Create, 2)),
        Err(1),
        [b"abc", b"old layout", ABSENT],
    ),
    (Some((CallKind::Append, 2)), Err(1), [b"abc", b"de", ABSENT]),
    (
        Some((CallKind::Create, 3)),
        Err(2),
        [b"abc", b"defg", ABSENT],
    ),
    (Some((CallKind::Append, 3)), Err(2), [b"abc", b"defg", b"h"]),
];

// The shelf with the old layout, on which this call is to fail.
fn shelf_to_fail(alloc: Global, fault: Option<(CallKind, u32)>) -> Result<MemShelf, OutOfMemory> {
    let mut shelf = old_shelf(alloc)?;
    if let Some((kind, number)) = fault {
        shelf.fail(kind, number)?;
    }
    Ok(shelf)
}

// Whether saving the three files ends with this answer.
fn save_answers(
    alloc: Global,
    shelf: &mut MemShelf,
    answer: Result<(), usize>,
) -> Result<bool, OutOfMemory> {
    let texts = three_files(alloc)?;
    Ok(save_all(shelf, texts.as_slice()) == answer)
}

// Whether the map, the layout and the first image hold just these bytes.
fn placement_holds(shelf: &MemShelf, files: &[&[u8]; 3]) -> bool {
    let [map, layout, image] = *files;
    holds(shelf, "o.map", map) && holds(shelf, "o.lay", layout) && holds(shelf, "o.p0.bpnf", image)
}

// Whether the files of other names are as they were.
fn others_stay(shelf: &MemShelf) -> bool {
    holds(shelf, "o.p1.bpnf", b"old image") && holds(shelf, "other", b"other")
}

// Whether saving under this fault ends with this answer, and leaves these files and the others.
fn leaves(alloc: Global, case: &Case) -> Result<bool, OutOfMemory> {
    let (fault, answer, files) = case;
    let mut shelf = shelf_to_fail(alloc, *fault)?;
    let told = save_answers(alloc, &mut shelf, *answer)?;
    Ok(told && placement_holds(&shelf, files) && others_stay(&shelf))
}

#[test]
fn what_stands_after_each_fault(rt: HostRuntime) -> Result<(), Fail> {
    for case in &CASES {
        let (fault, _, _) = case;
        assert!(rt; leaves(rt.alloc(), case)?, "{fault:?}");
    }
    Ok(())
}

/// The places of some files among 98, and their names.
const NAMES: [(usize, &str); 6] = [
    (0, "dir/o.map"),
    (1, "dir/o.lay"),
    (2, "dir/o.p0.bpnf"),
    (11, "dir/o.p9.bpnf"),
    (12, "dir/o.p10.bpnf"),
    (97, "dir/o.p95.bpnf"),
];

// 96 images, each of one byte, which is its number.
fn numbered_images(alloc: Global) -> Result<Vec<Vec<u8>>, OutOfMemory> {
    let mut images = Vec::new(alloc);
    for number in 0..96u8 {
        images.push(Vec::from_slice(alloc, &[number])?)?;
    }
    Ok(images)
}

// The files of a placement with these images, if there are 96.
fn files_of_96(alloc: Global, images: Vec<Vec<u8>>) -> Result<Option<Vec<Text>>, OutOfMemory> {
    if images.len() != 96 {
        return Ok(None);
    }
    let files = placed_files(alloc, "dir/o", Vec::new(alloc), Vec::new(alloc), images)?;
    Ok(Some(files))
}

// Whether the file at this place has this name.
fn is_named(files: &[Text], place: usize, name: &str) -> bool {
    match files.get(place) {
        Some(file) => file.name() == name,
        None => false,
    }
}

// Whether the last of the files holds the last image.
fn ends_with_last_image(files: &[Text]) -> bool {
    match files.get(97) {
        Some(file) => file.bytes() == [95u8].as_slice(),
        None => false,
    }
}

#[test]
fn images_are_numbered(rt: HostRuntime) -> Result<(), Fail> {
    let images = numbered_images(rt.alloc())?;
    let files = files_of_96(rt.alloc(), images)?.ok_or("96 images")?;
    assert!(rt; files.len() == 98);
    for (place, name) in &NAMES {
        assert!(rt; is_named(&files, *place, name), "{name}");
    }
    assert!(rt; ends_with_last_image(&files));
    Ok(())
}
