ghost use Rattle.std.specs.Prelude.{◌≡◌, true};
ghost use Rattle.stage_book.specs.Requested.{AreApart, ArePathsApart};

use cta_model::{FileState, StageFile, StageInfo};
use cta_site::{NoMemory, Rows, Text};
use part_model::FileEnd;
use stage_book::StageBook;
use std::alloc::Global;
use std::hash::RandomState;
use std::process::Abort;
use std::test::Fail;

fn text(alloc: Global, value: &str) -> Result<Text, NoMemory> {
    let value = String::from_str(alloc, value)?;
    Ok(Text::of(value))
}

// Two files and a path that names none.
fn files(alloc: Global) -> Result<Rows<StageFile>, NoMemory> {
    let mut files = Vec::new(alloc);
    for (path, file) in [("/a/5", Some(5)), ("/a", None), ("/a/6", Some(6))] {
        let path = text(alloc, path)?;
        files.push(StageFile {
            path,
            file,
            lifetime: 10,
        })?;
    }
    Ok(Rows::of(files))
}

// Whether no file is named twice, of three.
fn are_apart(files: &Rows<StageFile>) -> bool
    ensures { result ≡ true → AreApart files.now.items }
{
    match files.as_slice() {
        [a, b, c] => {
            if a.file.is_some() && (a.file == b.file || a.file == c.file) {
                return false;
            }
            b.file.is_none() || b.file != c.file
        }
        _ => false,
    }
}

// Whether no path is named twice, of three.
fn have_own_paths(files: &Rows<StageFile>) -> bool
    ensures { result ≡ true → ArePathsApart files.now.items }
{
    match files.as_slice() {
        [a, b, c] => {
            if a.path.is(b.path.as_bytes()) || a.path.is(c.path.as_bytes()) {
                return false;
            }
            !b.path.is(c.path.as_bytes())
        }
        _ => false,
    }
}

// Adds a request.
fn add(rt: &impl Abort, alloc: Global, book: &mut StageBook) -> Result<(), NoMemory> {
    let files = files(alloc)?;
    assert!(rt; are_apart(&files));
    assert!(rt; have_own_paths(&files));
    book.add(4, 100, files)
}

// What is known of the request.
fn know(rt: &impl Abort, book: &StageBook) {
    assert!(rt; book.knows(4) && !book.knows(5) && has_paths(book));
    assert_eq!(rt; [book.count(4), book.count(5)], [3, 0]);
    let files = [book.file(4, 2), book.file(4, 1), book.file(4, 3)];
    assert_eq!(rt; files, [Some(6), None, None]);
    assert!(rt; book.count(4) > 2);
    assert_eq!(rt; book.path(4, 2), b"/a/6".as_slice());
    let states = [book.state(4, 0), book.state(4, 1), book.state(4, 3)];
    let (submitted, failed) = (Some(FileState::Submitted), Some(FileState::Failed));
    assert_eq!(rt; states, [submitted, failed, None]);
}

// Whether the request has its own paths, and no other path, and no other request has one.
fn has_paths(book: &StageBook) -> bool {
    book.has(4, b"/a/6") && book.has(4, b"/a") && !book.has(4, b"/a/7") && !book.has(5, b"/a")
}

// One file is read, and the other one is lost.
fn run(rt: &impl Abort, alloc: Global, book: &mut StageBook) -> Result<(), NoMemory> {
    let lost = text(alloc, "lost")?;
    book.start(4, 5, 110);
    assert_eq!(rt; book.state(4, 0), Some(FileState::Started));
    book.finish(4, 5, 120, FileEnd::Completed);
    book.finish(4, 6, 130, FileEnd::Failed(lost));
    book.finish(4, 6, 140, FileEnd::Cancelled);
    release(rt, book);
    Ok(())
}

// The file that was read is pinned until it is released.
fn release(rt: &impl Abort, book: &mut StageBook) {
    let ends = [book.pin_end(4, 5), book.pin_end(4, 6), book.pin_end(5, 5)];
    assert_eq!(rt; ends, [Some(130), None, None]);
    book.release(4, b"/a/5");
    assert_eq!(rt; book.pin_end(4, 5), None);
}

// What is told of the request.
fn tell(rt: &impl Abort, book: &StageBook) -> Result<(), NoMemory> {
    match book.info(4)? {
        Some(told) => compare(rt, &told),
        None => assert!(rt; false),
    }
    assert!(rt; book.info(5)?.is_none());
    Ok(())
}

// Its report has the moments, and how its files ended.
fn compare(rt: &impl Abort, told: &StageInfo) {
    assert_eq!(rt; told.created_at, 100);
    assert_eq!(rt;
        [told.started_at, told.completed_at],
        [Some(110), Some(130)]
    );
    let files = told.files.as_slice();
    assert!(rt; files.len() == 3);
    assert_eq!(rt; files[0].state, FileState::Completed);
    assert_eq!(rt; files[0].finished_at, Some(120));
    assert_eq!(rt; files[2].path.as_str(), "/a/6");
    assert!(rt; files[0].error.is_none() && files[1].error.is_some() && !files[0].on_disk);
}

// Each call once.
fn play(rt: &impl Abort, alloc: Global, book: &mut StageBook) -> Result<(), NoMemory> {
    add(rt, alloc, book)?;
    know(rt, book);
    run(rt, alloc, book)?;
    tell(rt, book)?;
    book.remove(4);
    assert!(rt; !book.knows(4));
    Ok(())
}

#[test]
fn a_request_runs(rt: HostRuntime) -> Result<(), Fail> {
    let mut book = StageBook::new(rt.alloc(), RandomState::new(&rt)?);
    play(&rt, rt.alloc(), &mut book)?;
    Ok(())
}
