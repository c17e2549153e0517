//! `hall_bench KIND THREADS TURNS ROUNDS`: each of the threads raises one counter so many times, after as many rounds of
//! work each time, in turns of a hall (KIND `hall`) or under a plain mutex (KIND `mutex`). The counter is printed.
//! `bench/hall` times it.
#![tactic(auto)]

mod counter;
mod raising;
mod run;
#[cfg(test)]
mod tests;
mod words;

use crate::run::{by_hall, by_mutex};
use crate::words::{Load, read_load};
use std::alloc::Global;
use std::io;
use std::sync::Wait;
use std::thread::Threads;

fn count<R: Threads + Wait + Sync>(rt: &R, alloc: Global, load: &Load) -> Option<u64> {
    if load.hall {
        by_hall(rt, alloc, load).ok()
    } else {
        by_mutex(rt, alloc, load).ok()
    }
}

fn main(rt: HostRuntime) -> io::Result<()> {
    let Some(load) = read_load(&rt) else {
        return eprintln!(rt; "usage: hall_bench hall|mutex THREADS TURNS ROUNDS");
    };
    match count(&rt, rt.alloc(), &load) {
        Some(count) => println!(rt; "{count}"),
        None => eprintln!(rt; "hall_bench: no memory"),
    }
}
