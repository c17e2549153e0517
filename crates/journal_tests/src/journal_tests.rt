// Journals over disks in memory, with ample memory.
use crate::note::Note;
use cta_journal::{AppendError, Disk, Journal, OpenError};
use journal_disks::{MemDisk, Tear};
use outside::Failed;
use std::alloc::Global;
use std::test::Fail;

// A crash leaves nothing of a write that it tears.
const NOTHING: Tear = Tear {
    whole: 0,
    fill: 0xa5,
};

// The records `a` and `bc`.
const A: [u8; 10] = [1, 0, 0, 0, 0, 0, 0, 0, 1, b'a'];

const BC: [u8; 11] = [1, 0, 0, 0, 0, 0, 0, 0, 2, b'b', b'c'];

// What an opening gives: the bodies of its records, each ended by a bar, or why there are none; and what the disk holds then, and
// what a crash leaves of it.
#[derive(Drop)]
struct Opened {
    log: Vec<u8>,
    error: Option<OpenError>,
    file: Vec<u8>,
    crashed: Vec<u8>,
}

// The bodies, each ended by a bar.
fn bodies_of(alloc: Global, records: &[Note]) -> Option<Vec<u8>> {
    let mut log = Vec::new(alloc);
    for record in records {
        log.extend_from_slice(&record.bytes).ok()?;
        log.push(b'|').ok()?;
    }
    Some(log)
}

fn joined(alloc: Global, parts: &[&[u8]]) -> Option<Vec<u8>> {
    let mut all = Vec::new(alloc);
    for part in parts {
        all.extend_from_slice(part).ok()?;
    }
    Some(all)
}

// A disk with these bytes that fails at one call, or at none where that is 0.
fn disk_of(alloc: Global, bytes: &[u8], failing: u64, tear: Tear) -> Option<MemDisk> {
    let bytes = bytes.to_vec(alloc).ok()?;
    let failing = [failing].to_vec(alloc).ok()?;
    MemDisk::new(alloc, bytes, failing, tear).ok()
}

fn seen(alloc: Global, disk: &MemDisk, log: Vec<u8>, error: Option<OpenError>) -> Option<Opened> {
    let file = disk.bytes().to_vec(alloc).ok()?;
    let crashed = disk.crashed().to_vec(alloc).ok()?;
    Some(Opened {
        log,
        error,
        file,
        crashed,
    })
}

fn open_bytes(alloc: Global, bytes: &[u8], failing: u64) -> Option<Opened> {
    let disk = disk_of(alloc, bytes, failing, NOTHING)?;
    match Journal::open::<Note>(alloc, disk) {
        Ok((journal, records)) => {
            let log = bodies_of(alloc, &records)?;
            seen(alloc, &journal.end(), log, None)
        }
        Err((error, disk)) => seen(alloc, &disk, Vec::new(alloc), Some(error)),
    }
}

// The log of a file, where it has one.
fn log_of(alloc: Global, bytes: &[u8]) -> Option<Vec<u8>> {
    let found = open_bytes(alloc, bytes, 0)?;
    if found.error.is_some() {
        return None;
    }
    Some(found.log)
}

#[test]
fn small_file_becomes_a_closed_gate(rt: HostRuntime) -> Result<(), Fail> {
    let alloc = rt.alloc();
    let files: [&[u8]; 4] = [&[], &[0], &[1], &[7]];
    for file in files {
        let found = open_bytes(alloc, file, 0).ok_or("no memory")?;
        assert_eq!(rt; found.error, None);
        assert_eq!(rt; found.log.as_slice(), b"".as_slice());
        assert_eq!(rt; found.file.as_slice(), [0].as_slice());
        assert_eq!(rt; found.crashed.as_slice(), [0].as_slice());
    }
    Ok(())
}

// What stands behind the first closed gate is cut off, and that gate stays as it is.
#[test]
fn log_ends_at_the_first_closed_gate(rt: HostRuntime) -> Result<(), Fail> {
    let alloc = rt.alloc();
    let cases: [(&[&[u8]], &[&[u8]], &[u8]); 5] = [
        (&[&[0, 1]], &[&[0]], b""),
        (&[&[2, 1, 1]], &[&[2]], b""),
        (&[&A, &[0]], &[&A, &[0]], b"a|"),
        (&[&A, &[7, 1], &BC], &[&A, &[7]], b"a|"),
        (&[&A, &BC, &[0, 0]], &[&A, &BC, &[0]], b"a|bc|"),
    ];
    for (before, after, log) in cases {
        let file = joined(alloc, before).ok_or("no memory")?;
        let left = joined(alloc, after).ok_or("no memory")?;
        let found = open_bytes(alloc, &file, 0).ok_or("no memory")?;
        assert_eq!(rt; found.error, None);
        assert_eq!(rt; found.log.as_slice(), log);
        assert_eq!(rt; found.file, left);
        assert_eq!(rt; found.crashed, left);
    }
    Ok(())
}

// Behind an open gate no record begins, or a whole one with no byte behind it; nothing is changed then.
#[test]
fn damage_has_its_gates_offset(rt: HostRuntime) -> Result<(), Fail> {
    let alloc = rt.alloc();
    let cases: [(&[&[u8]], u64); 6] = [
        (&[&[1, 0]], 0),
        (&[&[1, 0, 0, 0, 0, 0, 0, 0, 2, b'a']], 0),
        (&[&[1, 255, 255, 255, 255, 255, 255, 255, 255, 0]], 0),
        (&[&A], 0),
        (&[&A, &BC], 10),
        (&[&A, &BC, &[1]], 21),
    ];
    for (parts, offset) in cases {
        let file = joined(alloc, parts).ok_or("no memory")?;
        let found = open_bytes(alloc, &file, 0).ok_or("no memory")?;
        assert_eq!(rt; found.error, Some(OpenError::Damaged { offset }));
        assert_eq!(rt; found.file, file);
    }
    Ok(())
}

// An opening calls sync, read, read, cut and sync. A fault at any of them is told, and a crash then leaves the log.
#[test]
fn opening_tells_each_fault(rt: HostRuntime) -> Result<(), Fail> {
    let alloc = rt.alloc();
    let file = joined(alloc, &[&A, &BC, &[0, 1, 2]]).ok_or("no memory")?;
    for call in 1..6u64 {
        let found = open_bytes(alloc, &file, call).ok_or("no memory")?;
        assert_eq!(rt; found.error, Some(OpenError::Fault));
        let log = log_of(alloc, &found.crashed).ok_or("no log")?;
        assert_eq!(rt; log.as_slice(), b"a|bc|".as_slice());
    }
    let found = open_bytes(alloc, &file, 6).ok_or("no memory")?;
    assert_eq!(rt; found.error, None);
    Ok(())
}

// Appends of all kinds, and what the file holds then.
fn appended(alloc: Global, journal: &mut Journal<MemDisk>) -> Option<Result<(), AppendError>> {
    let one = Note::of(alloc, "a")?;
    let mut group = Vec::new(alloc);
    group.push(Note::of(alloc, "bc")?).ok()?;
    group.push(Note::of(alloc, "")?).ok()?;
    let mut told = Ok(());
    if journal.is_open() {
        told = journal.append(&one);
    }
    if journal.is_open() && told.is_ok() {
        told = journal.append_all(&group);
    }
    if journal.is_open() && told.is_ok() {
        told = journal.append_all::<Note>(&[]);
    }
    if journal.is_open() && told.is_ok() {
        told = journal.append_each(&group);
    }
    Some(told)
}

#[test]
fn appended_records_are_found_again(rt: HostRuntime) -> Result<(), Fail> {
    let alloc = rt.alloc();
    let disk = disk_of(alloc, &[], 0, NOTHING).ok_or("no memory")?;
    let Ok((mut journal, records)) = Journal::open::<Note>(alloc, disk) else {
        return Err("not opened".into());
    };
    assert_eq!(rt; records.len(), 0);
    let told = appended(alloc, &mut journal).ok_or("no memory")?;
    assert_eq!(rt; told, Ok(()));
    assert_eq!(rt; journal.is_open(), true);
    assert_eq!(rt; journal.faults(), 0);
    let disk = journal.end();
    let none: [u8; 9] = [1, 0, 0, 0, 0, 0, 0, 0, 0];
    let want = joined(alloc, &[&A, &BC, &none, &BC, &none, &[0]]).ok_or("no memory")?;
    assert_eq!(rt; disk.bytes(), want.as_slice());
    assert_eq!(rt; disk.crashed(), want.as_slice());
    let log = log_of(alloc, &want).ok_or("no log")?;
    assert_eq!(rt; log.as_slice(), b"a|bc||bc||".as_slice());
    Ok(())
}

// What an append of `a` came to behind a first record `bc`, on a disk that fails at a call: what it answered, whether the journal is
// open then, how often the disk failed, and the logs that an opening finds after a crash and without one.
#[derive(Drop)]
struct Torn {
    told: Result<(), AppendError>,
    is_open: bool,
    faults: u64,
    crashed: Vec<u8>,
    left: Vec<u8>,
}

fn seen_torn(
    alloc: Global,
    journal: Journal<MemDisk>,
    told: Result<(), AppendError>,
) -> Option<Torn> {
    let (is_open, faults) = (journal.is_open(), journal.faults());
    let disk = journal.end();
    Some(Torn {
        told,
        is_open,
        faults,
        crashed: log_of(alloc, disk.crashed())?,
        left: log_of(alloc, disk.bytes())?,
    })
}

fn append_torn(alloc: Global, failing: u64, tear: Tear) -> Option<Torn> {
    let file = joined(alloc, &[&BC, &[0]])?;
    let note = Note::of(alloc, "a")?;
    let disk = disk_of(alloc, &file, failing, tear)?;
    match Journal::open::<Note>(alloc, disk) {
        Ok((mut journal, _)) => {
            if !journal.is_open() {
                return None;
            }
            let told = journal.append(&note);
            seen_torn(alloc, journal, told)
        }
        Err(_) => None,
    }
}

// Whether an append whose call of this number fails is a fault that closes the journal, and leaves these logs.
fn is_fault(torn: &Torn, is_crashed_there: bool, is_left_there: bool) -> bool {
    torn.told == Err(AppendError::Fault)
        && !torn.is_open
        && torn.faults == 1
        && torn.crashed.as_slice() == log_with(is_crashed_there)
        && torn.left.as_slice() == log_with(is_left_there)
}

fn log_with(is_there: bool) -> &'static [u8] {
    if is_there { b"bc|a|" } else { b"bc|" }
}

// An append calls write, sync, write and sync, behind the five calls of the opening. Until the second write no crash leaves the
// record, and from then on it is there where the gate's byte came to the disk, or what stands for it is an open gate.
fn faults_of(alloc: Global, tear: Tear) -> Option<u64> {
    let mut right = 0u64;
    for call in 6..10u64 {
        let torn = append_torn(alloc, call, tear)?;
        let is_there = call > 7 && (tear.whole > 0 || tear.fill == 1);
        if is_fault(&torn, is_there, call == 9) {
            right = right.saturating_add(1);
        }
    }
    Some(right)
}

#[test]
fn crash_at_each_call_of_an_append(rt: HostRuntime) -> Result<(), Fail> {
    let alloc = rt.alloc();
    for (whole, fill) in [(0usize, 0u8), (0, 1), (0, 255), (1, 0), (5, 1), (99, 0)] {
        let right = faults_of(alloc, Tear { whole, fill });
        assert_eq!(rt; right, Some(4), "with {whole} and {fill}");
    }
    Ok(())
}

// After an append that is Ok each crash leaves the record.
#[test]
fn crash_after_an_append(rt: HostRuntime) -> Result<(), Fail> {
    let found = append_torn(rt.alloc(), 10, NOTHING).ok_or("no log")?;
    assert_eq!(rt; (found.told, found.is_open), (Ok(()), true));
    assert_eq!(rt; found.crashed.as_slice(), log_with(true));
    Ok(())
}

// Past the end a write fails, and so does a cut that would lengthen the file.
#[test]
fn memory_disk_has_no_holes(rt: HostRuntime) -> Result<(), Fail> {
    let mut disk = disk_of(rt.alloc(), b"abc", 0, NOTHING).ok_or("no memory")?;
    let told = [disk.write_at(4, b"x"), disk.cut(4)];
    assert_eq!(rt; told, [Err(Failed); 2]);
    assert_eq!(rt; disk.faults(), 2);
    Ok(())
}

// A crash tears what was written and undoes what was cut, until a sync.
#[test]
fn sync_ends_what_a_crash_may_tear(rt: HostRuntime) -> Result<(), Fail> {
    let mut disk = disk_of(rt.alloc(), b"abc", 0, NOTHING).ok_or("no memory")?;
    let told = [disk.write_at(2, b"xyz"), disk.cut(1)];
    assert_eq!(rt; told, [Ok(()); 2]);
    assert_eq!(rt; disk.bytes(), b"a".as_slice());
    assert_eq!(rt; disk.crashed(), [b'a', b'b', 0xa5, 0xa5, 0xa5].as_slice());
    let told = disk.sync();
    assert_eq!(rt; told, Ok(()));
    assert_eq!(rt; disk.crashed(), b"a".as_slice());
    let mut place = [0u8; 3];
    let told = disk.read(0, &mut place);
    assert_eq!(rt; (told, place), (Ok(1), [b'a', 0, 0]));
    Ok(())
}
