//! Serves links in memory over two drives in memory, and prints how that ended and what the links were sent. `tests/memory-refused` refuses its
//! allocations one at a time.
#![tactic(auto)]

mod gate;
mod links;
mod trial;

use crate::trial::try_once;
use std::hash::RandomState;
use std::io;

fn main(rt: HostRuntime) -> io::Result<()> {
    let Ok(keys) = RandomState::new(&rt) else {
        return println!(rt; "no random bytes");
    };
    match try_once(&rt, rt.alloc(), keys) {
        Ok((ended, counts)) => println!(rt;
            "{ended}: {} links, {} right, {} without memory, {} cut",
            counts.closed, counts.right, counts.without_memory, counts.cut
        ),
        Err(_) => println!(rt; "no memory"),
    }
}
