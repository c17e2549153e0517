use cta_site::{NoMemory, Text};
use path_index::PathIndex;
use std::alloc::Global;
use std::hash::RandomState;
use std::process::Abort;
use std::test::Fail;

// Adds a path.
fn add(index: &mut PathIndex, alloc: Global, path: &str, file: u32) -> Result<(), NoMemory> {
    index.add(Text::of(String::from_str(alloc, path)?), file)
}

// Which files three paths name.
fn compare(rt: &impl Abort, index: &PathIndex, wanted: [Option<u32>; 3]) {
    let paths: [&[u8]; 3] = [b"/a/b", b"/a/bc", b"/a"];
    for at in 0..3 {
        assert_eq!(rt; index.file(paths[at]), wanted[at]);
    }
}

// Paths name files, other files, and none.
fn play(rt: &impl Abort, alloc: Global, index: &mut PathIndex) -> Result<(), NoMemory> {
    compare(rt, index, [None, None, None]);
    add(index, alloc, "/a/b", 1)?;
    add(index, alloc, "/a/bc", 2)?;
    compare(rt, index, [Some(1), Some(2), None]);
    add(index, alloc, "/a/b", 3)?;
    compare(rt, index, [Some(3), Some(2), None]);
    let removed = [index.remove(b"/a/b"), index.remove(b"/a")];
    assert_eq!(rt; removed, [Some(3), None]);
    compare(rt, index, [None, Some(2), None]);
    Ok(())
}

#[test]
fn paths_name_files(rt: HostRuntime) -> Result<(), Fail> {
    let mut index = PathIndex::new(rt.alloc(), RandomState::new(&rt)?);
    play(&rt, rt.alloc(), &mut index)?;
    Ok(())
}
