// Drives over a folder of the test's own, with ample memory.
use crate::session_tests::site_of;
use blob::{Blob, Sum256, sum_of};
use cta_site::{Text, ValidSite};
use file_media::{FileBench, FileDrive, FileMedium, MachineDisk};
use media::{Bench, DeviceErr, TapeDrive};
use std::alloc::Global;
use std::fs::{File, OpenFile};
use std::io::Read;
use std::rt::Files;
use std::sync::Arc;
use std::test::Fail;
use std::{fs, io};

type Drive<'r, R> = FileDrive<MachineDisk<'r, R>>;

fn text(alloc: Global, text: &str) -> Option<Text> {
    Some(Text::of(String::from_str(alloc, text).ok()?))
}

fn content(alloc: Global, bytes: &[u8]) -> Option<Arc<Blob>> {
    let bytes = Vec::from_slice(alloc, bytes).ok()?;
    let blob = Blob::of(bytes).ok()?;
    Arc::new(alloc, blob).ok()
}

// The medium of the first tape, by this bench, and whether the folder held records of it.
fn medium_of<R: Files>(
    mut bench: FileBench<'_, R>,
    site: &ValidSite,
) -> Option<(FileMedium, bool)> {
    if site.tapes().is_empty() {
        drop(bench);
        return None;
    }
    let made = bench.medium(site, 0);
    let had = bench.had_records(0);
    drop(bench);
    match made {
        Ok(medium) => Some((medium, had)),
        Err(_) => None,
    }
}

fn first_medium<R: Files>(alloc: Global, bench: FileBench<'_, R>) -> Option<(FileMedium, bool)> {
    match site_of(alloc) {
        Some(site) => {
            let made = medium_of(bench, &site);
            drop(site);
            made
        }
        None => {
            drop(bench);
            None
        }
    }
}

// By a bench that leaves alone what the folder holds.
fn new_medium<R: Files>(alloc: Global, rt: &R, folder: &str) -> Option<(FileMedium, bool)> {
    first_medium(alloc, FileBench::new(alloc, rt, text(alloc, folder)?))
}

// By a bench that goes on with what the folder holds.
fn resumed_medium<R: Files>(alloc: Global, rt: &R, folder: &str) -> Option<(FileMedium, bool)> {
    first_medium(alloc, FileBench::resuming(alloc, rt, text(alloc, folder)?))
}

fn new_drive<'r, R: Files>(alloc: Global, rt: &'r R, folder: &str) -> Option<Drive<'r, R>> {
    match MachineDisk::new(alloc, rt, text(alloc, folder)?) {
        Ok(disk) => Some(FileDrive::new(disk)),
        Err(_) => None,
    }
}

// Writes one content.
fn write_at<R: Files>(
    alloc: Global,
    drive: &mut Drive<'_, R>,
    medium: &mut FileMedium,
    fseq: u32,
    bytes: &[u8],
) -> Result<(), DeviceErr> {
    match content(alloc, bytes) {
        Some(blob) => {
            let told = drive.write(medium, fseq, &blob);
            drop(blob);
            told
        }
        None => Err(DeviceErr::NoMemory),
    }
}

// Loads, writes contents from fSeq 1 on, flushes and unloads.
fn write_all<R: Files>(
    alloc: Global,
    drive: &mut Drive<'_, R>,
    medium: &mut FileMedium,
    contents: &[&[u8]],
) -> Result<(), DeviceErr> {
    drive.load(medium)?;
    let mut fseq = 0u32;
    for bytes in contents {
        fseq = fseq.saturating_add(1);
        write_at(alloc, drive, medium, fseq, bytes)?;
    }
    drive.flush(medium)?;
    drive.unload(medium)
}

// What a read of a loaded medium gives.
fn sum_at<R: Files>(
    drive: &mut Drive<'_, R>,
    medium: &mut FileMedium,
    fseq: u32,
) -> Result<Sum256, DeviceErr> {
    match drive.read(medium, fseq) {
        Ok(blob) => {
            let sum = blob.sum();
            drop(blob);
            Ok(sum)
        }
        Err(error) => Err(error),
    }
}

type Sums = [Result<Sum256, DeviceErr>; 3];

// What three reads give.
fn sums<R: Files>(drive: &mut Drive<'_, R>, medium: &mut FileMedium) -> Result<Sums, DeviceErr> {
    drive.load(medium)?;
    let first = sum_at(drive, medium, 1);
    let second = sum_at(drive, medium, 2);
    let third = sum_at(drive, medium, 3);
    drive.unload(medium)?;
    Ok([first, second, third])
}

// Makes a folder for a test, where it isn't there, and drops the files that an earlier run may have left.
fn clear<R: Files>(rt: &R, folder: &str, files: &[&str]) {
    let _ = fs::create_dir(rt, folder);
    for file in files {
        let _ = fs::remove_file(rt, file);
    }
}

fn is_there<R: Files>(rt: &R, name: &str) -> bool {
    match fs::exists(rt, name) {
        Ok(there) => there,
        Err(_) => false,
    }
}

// Which of the files are there: of two records, and of one that isn't whole.
fn files<R: Files>(rt: &R) -> [bool; 3] {
    [
        is_there(rt, "records-written/V1.1"),
        is_there(rt, "records-written/V1.2"),
        is_there(rt, "records-written/V1.1.part"),
    ]
}

// Writes these contents, and tells what reads give and which files are there then.
fn round<R: Files>(
    alloc: Global,
    rt: &R,
    drive: &mut Drive<'_, R>,
    medium: &mut FileMedium,
    contents: &[&[u8]],
) -> Result<(Sums, [bool; 3]), DeviceErr> {
    write_all(alloc, drive, medium, contents)?;
    let told = sums(drive, medium)?;
    Ok((told, files(rt)))
}

#[test]
fn records_are_read_back(rt: HostRuntime) -> Result<(), Fail> {
    let alloc = rt.alloc();
    let folder = "records-written";
    clear(
        &rt,
        folder,
        &["records-written/V1.1", "records-written/V1.2"],
    );
    let (mut medium, _) = new_medium(alloc, &rt, folder).ok_or("no medium")?;
    let mut drive = new_drive(alloc, &rt, folder).ok_or("no drive")?;
    let long = [7u8; 70_000];
    let first = round(alloc, &rt, &mut drive, &mut medium, &[b"hello", &long]);
    let second = round(alloc, &rt, &mut drive, &mut medium, &[b"other"]);
    drop(drive);
    drop(medium);
    let fault = Err(DeviceErr::Fault);
    let sums = [Ok(sum_of(b"hello")), Ok(sum_of(&long)), fault];
    assert!(rt; first == Ok((sums, [true, true, false])));
    let sums = [Ok(sum_of(b"other")), fault, fault];
    assert!(rt; second == Ok((sums, [true, false, false])));
    Ok(())
}

// Each tape of a folder that can't be listed counts as one with records, and no drive loads its medium, as here one over another folder.
#[test]
fn missing_folder_is_a_fault(rt: HostRuntime) -> Result<(), Fail> {
    let alloc = rt.alloc();
    let (mut hidden, held) = new_medium(alloc, &rt, "./none").ok_or("no medium")?;
    let (mut medium, _) = new_medium(alloc, &rt, ".").ok_or("no medium")?;
    let mut here = new_drive(alloc, &rt, ".").ok_or("no drive")?;
    let mut drive = new_drive(alloc, &rt, "./none").ok_or("no drive")?;
    let refused = here.load(&mut hidden);
    let load = drive.load(&mut medium);
    let write = write_at(alloc, &mut drive, &mut medium, 1, b"hello");
    let flush = drive.flush(&mut medium);
    drop(here);
    drop(drive);
    drop(hidden);
    drop(medium);
    assert!(rt; held && [refused, load, write, flush] == [Err(DeviceErr::Fault); 4]);
    Ok(())
}

// Whether a bench tells of records before its first medium, whether it made that, and whether it tells of records then.
fn told_of_bench<R: Files>(
    alloc: Global,
    rt: &R,
    folder: &str,
    site: &ValidSite,
) -> Option<[bool; 3]> {
    if site.tapes().is_empty() {
        return None;
    }
    let mut bench = FileBench::new(alloc, rt, text(alloc, folder)?);
    let before = bench.had_records(0);
    let made = bench.medium(site, 0).is_ok();
    let after = bench.had_records(0);
    drop(bench);
    Some([before, made, after])
}

#[test]
fn bench_lists_at_its_first_medium(rt: HostRuntime) -> Result<(), Fail> {
    let alloc = rt.alloc();
    clear(
        &rt,
        "records-none",
        &["records-none/V1.1", "records-none/V1.2"],
    );
    let site = site_of(alloc).ok_or("no site")?;
    let told = told_of_bench(alloc, &rt, "records-none", &site);
    drop(site);
    assert_eq!(rt; told, Some([true, true, false]));
    Ok(())
}

// Cuts a file at a length.
fn cut<R: Files>(rt: &R, path: &str, len: u64) -> io::Result<()> {
    File::options().write(true).open(rt, path)?.set_len(len)
}

#[test]
fn file_cut_short_is_read_as_it_is(rt: HostRuntime) -> Result<(), Fail> {
    let alloc = rt.alloc();
    let folder = "records-cut";
    clear(&rt, folder, &["records-cut/V1.1", "records-cut/V1.1.part"]);
    let (mut medium, _) = new_medium(alloc, &rt, folder).ok_or("no medium")?;
    let mut drive = new_drive(alloc, &rt, folder).ok_or("no drive")?;
    let written = write_all(alloc, &mut drive, &mut medium, &[b"hello"]);
    let cut = cut(&rt, "records-cut/V1.1", 3).is_ok();
    let told = sums(&mut drive, &mut medium);
    drop(drive);
    drop(medium);
    let fault = Err(DeviceErr::Fault);
    assert!(rt; written == Ok(()) && cut);
    assert!(rt; told == Ok([Ok(sum_of(b"hel")), fault, fault]));
    Ok(())
}

// Whether the file of this path holds `hello`.
fn holds_hello<R: Files>(rt: &R, path: &str) -> bool {
    let mut bytes = [0u8; 8];
    match File::open(rt, path) {
        Ok(mut file) => match file.read(&mut bytes) {
            Ok(count) => count == 5 && bytes.starts_with(b"hello"),
            Err(_) => false,
        },
        Err(_) => false,
    }
}

#[test]
fn earlier_records_stay(rt: HostRuntime) -> Result<(), Fail> {
    let alloc = rt.alloc();
    let folder = "records-earlier";
    clear(
        &rt,
        folder,
        &["records-earlier/V1.1", "records-earlier/V1.1.part"],
    );
    let (mut first, had) = new_medium(alloc, &rt, folder).ok_or("no medium")?;
    let mut drive = new_drive(alloc, &rt, folder).ok_or("no drive")?;
    let written = write_all(alloc, &mut drive, &mut first, &[b"hello"]);
    drop(first);
    let (mut second, held) = new_medium(alloc, &rt, folder).ok_or("no medium")?;
    let load = drive.load(&mut second);
    let write = write_at(alloc, &mut drive, &mut second, 1, b"other");
    drop(drive);
    drop(second);
    assert!(rt; written == Ok(()) && !had && held);
    assert!(rt; [load, write] == [Err(DeviceErr::Fault); 2]);
    assert!(rt; holds_hello(&rt, "records-earlier/V1.1"));
    Ok(())
}

// What reads give of a tape with two records, before and after a third one is written and then the second again. The third is read
// in between.
fn go_on<R: Files>(
    alloc: Global,
    drive: &mut Drive<'_, R>,
    medium: &mut FileMedium,
) -> Result<(Sums, Result<Sum256, DeviceErr>, Sums), DeviceErr> {
    let before = sums(drive, medium)?;
    drive.load(medium)?;
    write_at(alloc, drive, medium, 3, b"third")?;
    drive.flush(medium)?;
    let third = sum_at(drive, medium, 3);
    write_at(alloc, drive, medium, 2, b"other")?;
    drive.flush(medium)?;
    drive.unload(medium)?;
    let after = sums(drive, medium)?;
    Ok((before, third, after))
}

// Which of the files of a tape that was gone on with are there.
fn resumed_files<R: Files>(rt: &R) -> [bool; 4] {
    [
        is_there(rt, "records-resumed/V1.1"),
        is_there(rt, "records-resumed/V1.2"),
        is_there(rt, "records-resumed/V1.3"),
        is_there(rt, "records-resumed/V1.2.part"),
    ]
}

// Writes two records by a new bench and a drive of its own.
fn write_two<R: Files>(alloc: Global, rt: &R, folder: &str) -> Option<()> {
    let (mut medium, _) = new_medium(alloc, rt, folder)?;
    let mut drive = new_drive(alloc, rt, folder)?;
    let written = write_all(alloc, &mut drive, &mut medium, &[b"hello", b"second"]);
    drop(drive);
    drop(medium);
    written.ok()
}

#[test]
fn resumed_tape_goes_on(rt: HostRuntime) -> Result<(), Fail> {
    let alloc = rt.alloc();
    let folder = "records-resumed";
    clear(
        &rt,
        folder,
        &[
            "records-resumed/V1.1",
            "records-resumed/V1.2",
            "records-resumed/V1.3",
        ],
    );
    write_two(alloc, &rt, folder).ok_or("not written")?;
    let (mut medium, held) = resumed_medium(alloc, &rt, folder).ok_or("no medium")?;
    let mut drive = new_drive(alloc, &rt, folder).ok_or("no drive")?;
    let told = go_on(alloc, &mut drive, &mut medium);
    drop(drive);
    drop(medium);
    let fault = Err(DeviceErr::Fault);
    let before = [Ok(sum_of(b"hello")), Ok(sum_of(b"second")), fault];
    let after = [Ok(sum_of(b"hello")), Ok(sum_of(b"other")), fault];
    assert!(rt; held && told == Ok((before, Ok(sum_of(b"third")), after)));
    assert!(rt; resumed_files(&rt) == [true, true, false, false]);
    Ok(())
}
