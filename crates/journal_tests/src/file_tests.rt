// Journals over files of the machine, in folders of the tests' own.
use crate::note::Note;
use cta_journal::{Disk, Journal};
use journal_disks::{FileDisk, FileErr, FolderFault};
use outside::Failed;
use std::alloc::Global;
use std::fs;
use std::fs::File;
use std::os::unix::fs::MetadataExt;
use std::rt::Files;
use std::test::Fail;

// Why a file isn't opened; one that is opened is let go at once.
fn tried<R: Files<File = File>>(alloc: Global, rt: &R, path: &str) -> Result<(), FileErr> {
    match FileDisk::open(alloc, rt, path) {
        Ok(disk) => {
            drop(disk);
            Ok(())
        }
        Err(error) => Err(error),
    }
}

fn is_there<R: Files>(rt: &R, path: &str) -> bool {
    fs::symlink_metadata(rt, path).is_ok()
}

// The number of the machine's file of that name.
fn file_number<R: Files>(rt: &R, path: &str) -> u64 {
    match fs::symlink_metadata(rt, path) {
        Ok(found) => found.ino(),
        Err(_) => 0,
    }
}

// Opens a journal, appends a note, and gives the disk back with how many records there were.
fn run<R: Files<File = File>>(
    alloc: Global,
    rt: &R,
    path: &str,
    text: &str,
) -> Option<(usize, FileDisk)> {
    let Ok(disk) = FileDisk::open(alloc, rt, path) else {
        return None;
    };
    let Ok((mut journal, records)) = Journal::open::<Note>(alloc, disk) else {
        return None;
    };
    let count = records.len();
    drop(records);
    let note = Note::of(alloc, text)?;
    if !journal.is_open() || journal.append(&note).is_err() {
        return None;
    }
    drop(note);
    Some((count, journal.end()))
}

// What a run saw: how many records there were, the number of the machine's file, and whether the mark of a good end and a copy are
// there, in the run and behind it.
#[derive(Clone, Copy)]
struct Seen {
    records: usize,
    file: u64,
    in_run: bool,
    behind: bool,
    copy: bool,
}

// A run that ends well, or is cut off.
fn whole_run<R: Files<File = File>>(
    alloc: Global,
    rt: &R,
    text: &str,
    ends_well: bool,
) -> Option<Seen> {
    let (records, disk) = run(alloc, rt, "journal-kept/J", text)?;
    let file = file_number(rt, "journal-kept/J");
    let in_run = is_there(rt, "journal-kept/J.ended");
    if ends_well {
        disk.finish(rt).ok()?;
    } else {
        drop(disk);
    }
    Some(Seen {
        records,
        file,
        in_run,
        behind: is_there(rt, "journal-kept/J.ended"),
        copy: is_there(rt, "journal-kept/J.new"),
    })
}

// After a good end the file stays the same one, and after any other it is a copy.
#[test]
fn file_keeps_what_was_appended(rt: HostRuntime) -> Result<(), Fail> {
    let alloc = rt.alloc();
    let _ = fs::create_dir(&rt, "journal-kept");
    let _ = fs::remove_file(&rt, "journal-kept/J");
    let _ = fs::remove_file(&rt, "journal-kept/J.ended");
    let first = whole_run(alloc, &rt, "a", true).ok_or("no run")?;
    let second = whole_run(alloc, &rt, "bc", false).ok_or("no run")?;
    let third = whole_run(alloc, &rt, "d", true).ok_or("no run")?;
    assert_eq!(rt; [first.records, second.records, third.records], [0, 1, 2]);
    assert_eq!(rt; [first.in_run, second.in_run, third.in_run], [false; 3]);
    assert_eq!(rt;
        [first.behind, second.behind, third.behind],
        [true, false, true]
    );
    assert_eq!(rt; [first.copy, second.copy, third.copy], [false; 3]);
    assert_eq!(rt;
        [first.file == second.file, second.file == third.file],
        [true, false]
    );
    let held = fs::read(&rt, "journal-kept/J")?;
    assert_eq!(rt; held.len(), 10 + 11 + 10 + 1);
    Ok(())
}

// The machine holds a lock by an open of the file, so another opening by this process stands for one by another.
#[test]
fn one_holds_the_file(rt: HostRuntime) -> Result<(), Fail> {
    let alloc = rt.alloc();
    let path = "journal-held/J";
    let _ = fs::create_dir(&rt, "journal-held");
    let _ = fs::remove_file(&rt, path);
    let (_, disk) = run(alloc, &rt, path, "a").ok_or("no run")?;
    let held = file_number(&rt, path);
    let second = tried(alloc, &rt, path);
    assert_eq!(rt; second, Err(FileErr::InUse));
    assert_eq!(rt; file_number(&rt, path), held);
    assert_eq!(rt; fs::read(&rt, path)?.len(), 11);
    drop(disk);
    assert_eq!(rt; tried(alloc, &rt, path), Ok(()));
    Ok(())
}

// A folder, a link, a second name, and a file of a folder that isn't there. Nothing of them is changed.
#[test]
fn only_a_plain_file_is_opened(rt: HostRuntime) -> Result<(), Fail> {
    let alloc = rt.alloc();
    let _ = fs::create_dir(&rt, "journal-odd");
    let _ = fs::create_dir(&rt, "journal-odd/folder");
    fs::write(&rt, "journal-odd/one", b"ab")?;
    let _ = fs::remove_file(&rt, "journal-odd/two");
    fs::hard_link(&rt, "journal-odd/one", "journal-odd/two")?;
    for path in [
        "journal-odd/folder",
        "journal-odd/two",
        "journal-odd/none/J",
        "/dev/null",
        "",
    ] {
        assert_eq!(rt; tried(alloc, &rt, path), Err(FileErr::Fault), "{path}");
    }
    assert_eq!(rt;
        fs::read(&rt, "journal-odd/one")?.as_slice(),
        b"ab".as_slice()
    );
    Ok(())
}

// A call at an offset that no file has fails, and then no end is a good one.
#[test]
fn failed_call_is_no_good_end(rt: HostRuntime) -> Result<(), Fail> {
    let path = "journal-faulty";
    let _ = fs::remove_file(&rt, path);
    let mut disk = FileDisk::open(rt.alloc(), &rt, path).ok().ok_or("no disk")?;
    let told = [
        disk.write_at(0, b"abc"),
        disk.cut(2),
        disk.sync(),
        disk.write_at(u64::MAX, b"x"),
    ];
    assert_eq!(rt; told, [Ok(()), Ok(()), Ok(()), Err(Failed)]);
    let mut place = [0u8; 4];
    let count = disk.read(0, &mut place);
    assert_eq!(rt; (count, place), (Ok(2), [b'a', b'b', 0, 0]));
    assert_eq!(rt; disk.faults(), 1);
    let ended = disk.finish(&rt);
    assert_eq!(rt; ended, Err(FolderFault));
    assert_eq!(rt; is_there(&rt, "journal-faulty.ended"), false);
    Ok(())
}

#[test]
fn disk_without_file_fails(rt: HostRuntime) {
    let mut disk = FileDisk::without_file(rt.alloc());
    let mut place = [0u8; 4];
    let told = [disk.write_at(0, b"x"), disk.cut(0), disk.sync()];
    assert_eq!(rt; told, [Err(Failed); 3]);
    assert_eq!(rt; disk.read(0, &mut place), Err(Failed));
    assert_eq!(rt; disk.faults(), 4);
    assert_eq!(rt; disk.finish(&rt), Err(FolderFault));
}
