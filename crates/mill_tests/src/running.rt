// A run of a mill over drives, media and a sink in memory.

use media::MemBench;
use mill::{Status, mill_top};
use outside::{Gate, MemSink};
use std::alloc::{AllocError, Global};
use std::hash::RandomState;
use std::sync::Wait;
use std::thread::Threads;

// What came of a run: its status, how many entries the archive that came back has, and what was written.
#[derive(Drop)]
pub(crate) struct Ran {
    pub(crate) status: Status,
    pub(crate) entries: Option<usize>,
    pub(crate) out: MemSink,
}

fn words_of(alloc: Global, texts: &[&str]) -> Result<Vec<String>, AllocError> {
    let mut words = Vec::new(alloc);
    for text in texts {
        words.push(String::from_str(alloc, text)?)?;
    }
    Ok(words)
}

// Runs a mill by these words. The sink fails at these calls.
pub(crate) fn run<R: Threads + Wait + Sync, G: Gate + Sync>(
    rt: &R,
    alloc: Global,
    keys: RandomState,
    texts: &[&str],
    failing: Vec<u64>,
    gate: &G,
) -> Result<Ran, AllocError> {
    let words = words_of(alloc, texts)?;
    let mut out = MemSink::new(alloc, failing);
    let mut bench = MemBench::new(alloc);
    let (status, archive) = mill_top(rt, alloc, &words, &mut out, &mut bench, gate, keys);
    let entries = match archive {
        Some(archive) => {
            let entries = archive.entries().len();
            archive.let_go();
            Some(entries)
        }
        None => None,
    };
    Ok(Ran {
        status,
        entries,
        out,
    })
}
