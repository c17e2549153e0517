// A short history that tells what a mill's run has to tell.
use crate::{read_history, tells_kept};
use blob::sum_of;
use cta_model::{
    Actor, Answer, Ask, Entry, Fate, Item, Job, Locality, NoMemory, PlaceInfo, Rows, Sum256, Text,
    Wanted, Who,
};
use load_mill::{big_path, file_path};
use std::alloc::Global;

fn nobody(alloc: Global) -> Who {
    Who {
        requester: Text::of(String::new(alloc)),
        group: Text::of(String::new(alloc)),
    }
}

fn entry(alloc: Global, ask: Ask, answer: Answer) -> Entry {
    Entry {
        at: 0,
        actor: Actor::Caller(nobody(alloc)),
        ask,
        answer,
    }
}

fn put(alloc: Global, path: Text, sum: Sum256, evicted: Vec<u32>) -> Entry {
    let ask = Ask::Put {
        who: nobody(alloc),
        path,
        sum,
    };
    entry(
        alloc,
        ask,
        Answer::Stored {
            evicted: Rows::of(evicted),
        },
    )
}

fn item(file: u32, sum: Sum256) -> Item {
    Item {
        job: Job {
            birth: file,
            file,
            copy: 1,
        },
        fseq: file,
        sum,
    }
}

// The first item is done, and the second is not.
fn flushed(alloc: Global, sums: &[Sum256; 2]) -> Result<Entry, NoMemory> {
    let items = vec![in alloc; item(1, sums[0]), item(2, sums[1])]?;
    let fates = vec![in alloc; Fate::Done, Fate::Stale]?;
    let ask = Ask::Flushed {
        mount: 9,
        items: Rows::of(items),
    };
    Ok(entry(
        alloc,
        ask,
        Answer::Told {
            fates: Rows::of(fates),
        },
    ))
}

fn staged(alloc: Global) -> Result<Entry, NoMemory> {
    let mut files = Vec::new(alloc);
    for k in 0..2 {
        files.push(Wanted {
            path: file_path(alloc, k)?,
            lifetime: None,
        })?;
    }
    let ask = Ask::Stage {
        who: nobody(alloc),
        files: Rows::of(files),
    };
    Ok(entry(alloc, ask, Answer::Staged { id: 5 }))
}

fn recalled(alloc: Global, file: u32, fate: Fate) -> Entry {
    let job = Job {
        birth: 5,
        file,
        copy: 1,
    };
    entry(
        alloc,
        Ask::Recalled { mount: 9, job },
        Answer::Arrived { fate },
    )
}

fn history(alloc: Global, sums: &[Sum256; 2]) -> Result<Vec<Entry>, NoMemory> {
    let mut entries = Vec::new(alloc);
    for k in 0..2 {
        let path = file_path(alloc, k)?;
        let sum = if k == 0 { sums[0] } else { sums[1] };
        entries.push(put(alloc, path, sum, Vec::new(alloc)))?;
    }
    entries.push(flushed(alloc, sums)?)?;
    entries.push(put(alloc, big_path(alloc)?, sum_of(b""), vec![in alloc; 1, 2]?))?;
    entries.push(staged(alloc)?)?;
    entries.push(recalled(alloc, 1, Fate::Done))?;
    entries.push(recalled(alloc, 2, Fate::Stale))?;
    Ok(entries)
}

// Whether two files with these sums are told of in a history of the files with those.
fn is_told(alloc: Global, put: &[Sum256; 2], sums: &[Sum256; 2]) -> Result<bool, NoMemory> {
    let entries = history(alloc, put)?;
    if entries.len() != 7 {
        return Ok(false);
    }
    let Some(tally) = read_history(alloc, entries.as_slice(), sums.as_slice())? else {
        return Ok(false);
    };
    Ok(tally.request == 5 && tally.archived == 1 && tally.recalled == 1)
}

#[test]
fn a_run_is_read(rt: HostRuntime) {
    let sums = [sum_of(b"a"), sum_of(b"bc")];
    assert!(rt; matches!(is_told(rt.alloc(), &sums, &sums), Ok(true)));
    let others = [sum_of(b"a"), sum_of(b"b")];
    assert!(rt; matches!(is_told(rt.alloc(), &sums, &others), Ok(false)));
}

// What is told of the places of two files, which are all on disk and on tape, or all on tape alone.
fn places(alloc: Global, locality: Locality) -> Result<Answer, NoMemory> {
    let mut infos = Vec::new(alloc);
    for k in 0..2 {
        infos.push(PlaceInfo {
            path: file_path(alloc, k)?,
            locality: Some(locality),
            error: None,
        })?;
    }
    Ok(Answer::Places(Rows::of(infos)))
}

fn are_told_kept(alloc: Global, locality: Locality, files: u32) -> Result<bool, NoMemory> {
    let answer = places(alloc, locality)?;
    Ok(tells_kept(&answer, files))
}

#[test]
fn places_are_read(rt: HostRuntime) {
    assert!(rt;
        matches!(
            are_told_kept(rt.alloc(), Locality::DiskAndTape, 2),
            Ok(true)
        )
    );
    assert!(rt;
        matches!(
            are_told_kept(rt.alloc(), Locality::DiskAndTape, 3),
            Ok(false)
        )
    );
    assert!(rt; matches!(are_told_kept(rt.alloc(), Locality::Tape, 2), Ok(false)));
}
