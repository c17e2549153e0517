// Records in a journal over a disk in memory.
use crate::puts::{is_put_of, put_bytes, put_of};
use crate::records::joined;
use cta_journal::Journal;
use cta_records::Kept;
use journal_disks::{MemDisk, Tear};
use std::alloc::Global;
use std::test::Fail;

// A disk with these bytes, none of whose calls fails.
fn disk_with(alloc: Global, bytes: &[u8]) -> Option<MemDisk> {
    let bytes = bytes.to_vec(alloc).ok()?;
    let tear = Tear {
        whole: 0,
        fill: 0xa5,
    };
    MemDisk::new(alloc, bytes, Vec::new(alloc), tear).ok()
}

fn opened(alloc: Global, bytes: &[u8]) -> Option<(Journal<MemDisk>, Vec<Kept>)> {
    let disk = disk_with(alloc, bytes)?;
    Journal::open::<Kept>(alloc, disk).ok()
}

// A journal over a disk with no bytes.
fn opened_empty(alloc: Global) -> Option<Journal<MemDisk>> {
    let (journal, records) = opened(alloc, b"")?;
    drop(records);
    Some(journal)
}

// What the disk of a journal holds.
fn held(alloc: Global, journal: Journal<MemDisk>) -> Option<Vec<u8>> {
    let disk = journal.end();
    disk.bytes().to_vec(alloc).ok()
}

fn is_appended(journal: &mut Journal<MemDisk>, kept: Kept) -> bool {
    let is_ok = journal.is_open() && journal.append(&kept).is_ok();
    drop(kept);
    is_ok
}

// What an empty disk holds once a Put was appended.
fn file_after(alloc: Global, path: &str, content: &[u8]) -> Option<Vec<u8>> {
    let mut journal = opened_empty(alloc)?;
    if is_appended(&mut journal, put_of(alloc, path, content)?) {
        held(alloc, journal)
    } else {
        None
    }
}

// Whether the one record of a file is a Put of this content under this path.
fn has_only(alloc: Global, file: &[u8], path: &[u8], content: &[u8]) -> bool {
    match opened(alloc, file) {
        Some((journal, records)) => {
            drop(journal);
            match records.as_slice() {
                [kept] => is_put_of(kept, path, content),
                _ => false,
            }
        }
        None => false,
    }
}

// The file with the record of the Put: its open gate, the record, and a closed gate.
fn wanted(alloc: Global) -> Option<Vec<u8>> {
    let record = put_bytes(alloc)?;
    joined(alloc, &[1], &record, &[0]).ok()
}

#[test]
fn put_is_kept_by_a_journal(rt: HostRuntime) -> Result<(), Fail> {
    let alloc = rt.alloc();
    let journal = opened_empty(alloc).ok_or("no journal")?;
    let first = held(alloc, journal).ok_or("no memory")?;
    assert_eq!(rt; first.as_slice(), b"\0".as_slice());
    let file = file_after(alloc, "/atlas/a", b"hello").ok_or("no append")?;
    let wanted = wanted(alloc).ok_or("no memory")?;
    assert_eq!(rt; file.len(), 107);
    assert_eq!(rt; file.as_slice(), wanted.as_slice());
    assert!(rt; has_only(alloc, &file, b"/atlas/a", b"hello"));
    Ok(())
}
