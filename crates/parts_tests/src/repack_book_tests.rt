use cta_model::{ItemState, Job, RepackInfo};
use cta_site::{NoMemory, Rows, Text};
use repack_book::RepackBook;
use std::alloc::Global;
use std::process::Abort;
use std::test::Fail;

fn text(alloc: Global, value: &str) -> Result<Text, NoMemory> {
    let value = String::from_str(alloc, value)?;
    Ok(Text::of(value))
}

// Copies of the files 5 and 6.
fn copies(alloc: Global) -> Result<Rows<Job>, NoMemory> {
    let mut jobs = Vec::new(alloc);
    for (file, copy) in [(5, 1), (5, 2), (6, 1)] {
        jobs.push(Job {
            birth: 0,
            file,
            copy,
        })?;
    }
    Ok(Rows::of(jobs))
}

// The paths of their files.
fn paths(alloc: Global) -> Result<Rows<Text>, NoMemory> {
    let mut paths = Vec::new(alloc);
    for path in ["/a/5", "/a/5", "/a/6"] {
        paths.push(text(alloc, path)?)?;
    }
    Ok(Rows::of(paths))
}

// Adds a repack of the tape 3.
fn add(rt: &impl Abort, alloc: Global, book: &mut RepackBook, id: u32) -> Result<(), NoMemory> {
    let items = copies(alloc)?;
    let names = paths(alloc)?;
    let vid = text(alloc, "V00003")?;
    assert!(rt; items.len() == names.len() && items.len() < 9 && !book.knows(id));
    book.add(id, 3, vid, items, names)
}

// The repack reads all of its items.
fn read(rt: &impl Abort, book: &RepackBook) {
    assert!(rt; book.knows(7) && !book.knows(8));
    assert!(rt; book.live(3) && !book.live(2) && !book.live(4));
    let reading = [
        book.reading(7, 5, 0),
        book.reading(7, 5, 2),
        book.reading(7, 5, 3),
    ];
    assert_eq!(rt; reading, [Some(1), Some(2), None]);
    assert_eq!(rt; book.first_writer(5, 1), None);
    assert!(rt; pins_both(book));
}

// Whether the repack pins its two files and no other, and no other repack does.
fn pins_both(book: &RepackBook) -> bool {
    book.pins(7, 5) && book.pins(7, 6) && !book.pins(7, 4) && !book.pins(8, 5)
}

// The file 5 is written.
fn write(rt: &impl Abort, book: &mut RepackBook) {
    book.set(7, 5, 1, ItemState::Writing);
    let second = book.reading(7, 5, 0);
    book.set(7, 5, 2, ItemState::Writing);
    assert_eq!(rt; [second, book.reading(7, 5, 0)], [Some(2), None]);
    let writers = [book.first_writer(5, 1), book.next_writer(5, 1, 7)];
    assert_eq!(rt; writers, [Some(7), None]);
    assert!(rt; book.is_writing(7, 5, 2) && !book.is_writing(7, 6, 1) && book.pins(7, 5));
}

// The file 5 is done, and the file 6 gone.
fn finish(rt: &impl Abort, book: &mut RepackBook) {
    book.set(7, 5, 1, ItemState::Done);
    book.set(7, 5, 2, ItemState::Failed);
    book.set(7, 5, 2, ItemState::Writing);
    assert_eq!(rt; book.first_writer(5, 2), None);
    assert!(rt; !book.pins(7, 5) && book.live(3));
    book.set(7, 6, 1, ItemState::Gone);
    assert!(rt; !book.live(3));
}

// What is told of the repack.
fn tell(rt: &impl Abort, book: &RepackBook) -> Result<(), NoMemory> {
    match book.info(7)? {
        Some(told) => compare(rt, &told),
        None => assert!(rt; false),
    }
    assert!(rt; book.info(8)?.is_none());
    Ok(())
}

// Its report names the tape, the second copy of the file 5 and how the last two items ended.
fn compare(rt: &impl Abort, told: &RepackInfo) {
    assert_eq!(rt; told.vid.as_str(), "V00003");
    let items = told.items.as_slice();
    assert!(rt; items.len() == 3);
    assert_eq!(rt; items[1].path.as_str(), "/a/5");
    assert_eq!(rt; items[1].copy, 2);
    let states = [items[1].state, items[2].state];
    assert_eq!(rt; states, [ItemState::Failed, ItemState::Gone]);
}

// Each call once.
fn play(rt: &impl Abort, alloc: Global, book: &mut RepackBook) -> Result<(), NoMemory> {
    add(rt, alloc, book, 7)?;
    read(rt, book);
    write(rt, book);
    finish(rt, book);
    tell(rt, book)
}

#[test]
fn a_repack_runs(rt: HostRuntime) -> Result<(), Fail> {
    let mut book = RepackBook::new(rt.alloc())?;
    play(&rt, rt.alloc(), &mut book)?;
    Ok(())
}
