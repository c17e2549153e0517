//! `cta`, the scheduler and catalogue of a tape archive. `cta replay SITE` reads the site from the file SITE and a script from standard
//! input, and writes the replies to standard output. `cta serve SITE ADDR MEDIA WORKERS` serves a site at an address, over files in a
//! folder, and `cta durable SITE ADDR MEDIA WORKERS JOURNAL` does so with its history kept in the file JOURNAL. For every status other than 0 it prints one line on standard error, and ends with the status's number.
#![tactic(auto)]

mod bell;
mod durable;
mod media_folder;
mod milling;
mod replaying;
mod report;
mod run;
mod serve;
mod stop;
mod words;

use crate::durable::durable_here;
use crate::milling::mill_here;
use crate::replaying::replay_here;
use crate::report::end_with;
use crate::serve::serve_here;
use crate::words::{arguments_of, begins_with};
use archive_opening::Status;
use std::alloc::Global;
use std::hash::RandomState;
use std::io::Eprint;
use std::net::{Net, TcpListener, TcpStream};
use std::process::ExitCode;
use std::sync::Wait;
use std::thread::Threads;
use std::time;

// Runs by the words of the command line, which are no mill's.
fn run_here<
    R: Threads
        + Wait
        + Sync
        + Copy
        + Eprint
        + time::Clock
        + Net<Listener = TcpListener, Stream = TcpStream>,
>(
    rt: &R,
    files: &HostRuntime,
    alloc: Global,
    arguments: &[String],
    keys: RandomState,
) -> Result<u8, Status> {
    let ended = if begins_with(arguments, "durable") {
        durable_here(rt, files, alloc, arguments, keys)
    } else {
        serve_here(rt, files, alloc, arguments, keys)
    };
    match ended {
        Some(ended) => ended,
        None => replay_here(files, alloc, arguments),
    }
}

fn main(rt: HostRuntime) -> ExitCode {
    let alloc = rt.alloc();
    let ended = match arguments_of(&rt) {
        // Where the machine gives no random bytes, paths can't be hashed with keys of their own.
        Ok(arguments) => match RandomState::new(&rt) {
            Ok(keys) => {
                if begins_with(&arguments, "mill") {
                    Ok(mill_here(&rt, alloc, &arguments, keys))
                } else {
                    run_here(&rt, &rt, alloc, &arguments, keys)
                }
            }
            Err(_) => Err(Status::NoMemory),
        },
        Err(status) => Err(status),
    };
    ExitCode::from(match ended {
        Ok(number) => number,
        Err(status) => end_with(&rt, status),
    })
}
