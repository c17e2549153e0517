// The run of `cta replay` over the ends of the machine.

use crate::run::run;
use crate::words::site_path;
use archive_opening::Status;
use media::MemBench;
use outside::{file_source, std_sink, std_source};
use std::alloc::Global;
use std::hash::RandomState;

// Runs over the file that the words name, standard input and standard output. A status is why an end couldn't be opened, and nothing was
// run then.
pub(crate) fn replay_here(
    rt: &HostRuntime,
    alloc: Global,
    arguments: &[String],
) -> Result<u8, Status> {
    let path = site_path(alloc, arguments)?;
    let Ok(mut site) = file_source(alloc, rt, path) else {
        return Err(Status::NoMemory);
    };
    let Ok(mut script) = std_source(alloc, rt) else {
        return Err(Status::NoMemory);
    };
    let Ok(keys) = RandomState::new(rt) else {
        return Err(Status::NoMemory);
    };
    let mut out = std_sink(rt);
    let mut bench = MemBench::new(alloc);
    Ok(run(
        rt,
        alloc,
        arguments,
        &mut site,
        &mut script,
        &mut out,
        &mut bench,
        keys,
    ))
}
