// One run of a server.

use crate::gate::CountingGate;
use crate::links::links_of;
use archive_opening::Status;
use media::MemBench;
use outside::{ListClock, MemListener, MemSource};
use site_server::{Served, serve_top};
use std::alloc::{AllocError, Global};
use std::hash::RandomState;
use std::sync::Wait;
use std::thread::Threads;
use told_links::{Counts, Tally};

// A site with two drives and two pools, to which files go at once.
const SITE: &str =
    r#"{"classes":[{"copies":2,"name":"raw","vo":"atlas"}],"defaultPolicy":"std","directories":[{"class":"raw","path":"/atlas"}],"drives":[{"library":"L1","name":"d1"},{"library":"L1","name":"d2"}],"endpoint":"https://tape.example.org/api/v1","libraries":["L1"],"limits":{"archiveBytes":1,"archiveFiles":1,"batchFiles":10,"buffer":1000,"file":1000,"history":1000,"lifetime":60,"retrieveBytes":1,"retrieveFiles":1,"tries":3},"policies":[{"archiveMinAge":0,"archivePriority":1,"name":"std","retrieveMinAge":0,"retrievePriority":1}],"pools":[{"name":"p1","vo":"atlas"},{"name":"p2","vo":"atlas"}],"repackPolicy":"std","routes":[{"class":"raw","copy":1,"pool":"p1"},{"class":"raw","copy":2,"pool":"p2"}],"sitename":"T2","tapes":[{"capacity":1000,"library":"L1","pool":"p1","state":"ACTIVE","vid":"V1"},{"capacity":1000,"library":"L1","pool":"p2","state":"ACTIVE","vid":"V2"}],"version":1,"vos":[{"name":"atlas","readDrives":1,"writeDrives":2}]}"#;

// How often workers are told to go on.
const ASKS: u64 = 1_000;

// The words of a server with two workers.
fn words_of(alloc: Global) -> Result<Vec<String>, AllocError> {
    let mut words = Vec::new(alloc);
    for word in ["serve", "site", "host:1", "media", "2"] {
        words.push(String::from_str(alloc, word)?)?;
    }
    Ok(words)
}

fn site_source(alloc: Global) -> Result<MemSource, AllocError> {
    let mut bytes = Vec::new(alloc);
    bytes.extend_from_slice(SITE.as_bytes())?;
    Ok(MemSource::new(bytes, Vec::new(alloc)))
}

// How a server ended, in a word.
fn word_of(status: Status) -> &'static str {
    match status {
        Status::Ok => "ok",
        Status::NoMemory => "out of memory",
        _ => "wrong",
    }
}

// Serves the links once, with two workers and two drives at moment 100: how that ended, and what the links were sent.
pub(crate) fn try_once<R: Threads + Wait + Sync>(
    rt: &R,
    alloc: Global,
    keys: RandomState,
) -> Result<(&'static str, Counts), AllocError> {
    let tally = Tally::new();
    let words = words_of(alloc)?;
    let mut site = site_source(alloc)?;
    let mut listener = MemListener::new(links_of(alloc, &tally)?, Vec::new(alloc));
    let mut bench = MemBench::new(alloc);
    let (status, served) = serve_top(
        rt,
        alloc,
        &words,
        &mut site,
        &mut listener,
        &mut bench,
        ListClock::new(&[100]),
        &CountingGate::new(ASKS),
        keys,
    );
    match served {
        Some(
            Served {
                hall,
                pass,
                wanted: _,
            },
        ) => hall.close(pass).let_go(),
        None => {}
    }
    Ok((word_of(status), tally.counts()))
}
