//! `journal_bench PATH APPENDS GROUP BYTES` appends so many groups of entries to the journal of that path, each of GROUP Puts of a file of BYTES
//! bytes, one pair of syncs a group, and prints how many entries the journal then has. `bench/journal` times it.
#![tactic(auto)]

mod puts;
mod words;

use crate::puts::put_of;
use crate::words::{Load, read_load};
use cta_journal::Journal;
use cta_records::Kept;
use journal_disks::FileDisk;
use std::alloc::Global;
use std::fs::File;
use std::rt::Files;
use std::{env, io};

// A group of entries, None where there is no memory.
fn group_of(alloc: Global, load: &Load) -> Option<Vec<Kept>> {
    let mut group = Vec::new(alloc);
    for _ in 0..load.group {
        group.push(put_of(alloc, load.bytes)?).ok()?;
    }
    Some(group)
}

// Appends the groups, and gives how many entries there are then.
fn append_groups<R: Files<File = File>>(
    alloc: Global,
    rt: &R,
    path: &str,
    load: &Load,
) -> Option<u64> {
    let group = group_of(alloc, load)?;
    let disk = FileDisk::open(alloc, rt, path).ok()?;
    let (mut journal, records) = Journal::open::<Kept>(alloc, disk).ok()?;
    let mut count = records.len() as u64;
    drop(records);
    for _ in 0..load.appends {
        if !journal.is_open() || journal.append_all(&group).is_err() {
            return None;
        }
        count = count.saturating_add(u64::from(load.group));
    }
    journal.end().finish(rt).ok()?;
    Some(count)
}

fn main(rt: HostRuntime) -> io::Result<()> {
    let alloc = rt.alloc();
    let Some((path, load)) = read_load(&rt) else {
        return eprintln!(rt; "usage: journal_bench PATH APPENDS GROUP BYTES");
    };
    match append_groups(alloc, &rt, path.as_str(), &load) {
        Some(count) => println!(rt; "{count}"),
        None => eprintln!(rt; "journal_bench: no memory, or a call of the file failed"),
    }
}
