// The site of the tests, and a server of it.

use archive_opening::Status;
use media::MemBench;
use outside::{Gate, Link, ListClock, Listener, MemSource};
use site_server::{Served, serve_top};
use std::alloc::{AllocError, Global};
use std::hash::RandomState;
use std::sync::Wait;
use std::thread::Threads;

const SITE: &str =
    r#"{"classes":[{"copies":1,"name":"raw","vo":"atlas"}],"defaultPolicy":"std","directories":[{"class":"raw","path":"/atlas"}],"drives":[{"library":"L1","name":"d1"}],"endpoint":"https://tape.example.org/api/v1","libraries":["L1"],"limits":{"archiveBytes":100,"archiveFiles":2,"batchFiles":10,"buffer":1000,"file":1000,"history":1000,"lifetime":60,"retrieveBytes":100,"retrieveFiles":1,"tries":3},"policies":[{"archiveMinAge":10,"archivePriority":1,"name":"std","retrieveMinAge":10,"retrievePriority":1}],"pools":[{"name":"p1","vo":"atlas"}],"repackPolicy":"std","routes":[{"class":"raw","copy":1,"pool":"p1"}],"sitename":"T1","tapes":[{"capacity":1000,"library":"L1","pool":"p1","state":"ACTIVE","vid":"V1"}],"version":1,"vos":[{"name":"atlas","readDrives":1,"writeDrives":1}]}"#;

// Words of a command line.
pub(crate) fn words_of(alloc: Global, texts: &[&str]) -> Result<Vec<String>, AllocError> {
    let mut words = Vec::new(alloc);
    for text in texts {
        words.push(String::from_str(alloc, text)?)?;
    }
    Ok(words)
}

// The site file.
pub(crate) fn site_source(alloc: Global) -> Result<MemSource, AllocError> {
    let mut bytes = Vec::new(alloc);
    bytes.extend_from_slice(SITE.as_bytes())?;
    Ok(MemSource::new(bytes, Vec::new(alloc)))
}

// Serves the links of a listener at moment 100, with two workers, over drives in memory: the status, and how many links found no memory.
pub(crate) fn served<
    R: Threads + Wait + Sync,
    K: Link + Send + Drop,
    L: Listener<L = K> + Send,
    G: Gate + Sync,
>(
    rt: &R,
    alloc: Global,
    keys: RandomState,
    listener: &mut L,
    gate: &G,
) -> Result<(Status, Option<u64>), AllocError> {
    let words = words_of(alloc, &["serve", "site", "host:1", "media", "2"])?;
    let mut site = site_source(alloc)?;
    let mut bench = MemBench::new(alloc);
    let (status, served) = serve_top(
        rt,
        alloc,
        &words,
        &mut site,
        listener,
        &mut bench,
        ListClock::new(&[100]),
        gate,
        keys,
    );
    match served {
        Some(Served { hall, pass, wanted }) => {
            hall.close(pass).let_go();
            Ok((status, Some(wanted)))
        }
        None => Ok((status, None)),
    }
}
