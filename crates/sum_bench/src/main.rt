//! `sum_bench MEBIBYTES ROUNDS` takes the sum of so many MiB of zeros so many times, and prints their number and how often that was done.
//! `bench/serve` times it: a file that comes in is hashed, and little else should cost.
#![tactic(auto)]

mod words;

use crate::words::{Load, read_load};
use blob::sum_of;
use std::alloc::Global;
use std::io;

// The length of the content, None where there is no memory for it.
fn sum_zeros(alloc: Global, load: &Load) -> Option<u64> {
    let mut content = Vec::new(alloc);
    content
        .resize(load.mebibytes as usize * 1_048_576, 0u8)
        .ok()?;
    let mut len = 0;
    for _ in 0..load.rounds {
        len = sum_of(content.as_slice()).len;
    }
    Some(len)
}

fn main(rt: HostRuntime) -> io::Result<()> {
    let Some(load) = read_load(&rt) else {
        return eprintln!(rt; "usage: sum_bench MEBIBYTES ROUNDS");
    };
    match sum_zeros(rt.alloc(), &load) {
        Some(len) => println!(rt; "{len} bytes, {} times", load.rounds),
        None => eprintln!(rt; "sum_bench: no memory"),
    }
}
