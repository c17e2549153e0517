// The words of the command line.
use std::env;

// How many MiB there are, and how often their sum is taken.
#[derive(Clone, Copy, Drop)]
pub struct Load {
    pub mebibytes: u16,
    pub rounds: u16,
}

// The load that the words name, or None where they are of another form.
pub fn read_load(rt: &HostRuntime) -> Option<Load> {
    let mut words = env::args(rt).ok()?.skip(1);
    let mebibytes = words.next()?.parse().ok()?;
    let rounds = words.next()?.parse().ok()?;
    Some(Load { mebibytes, rounds })
}
