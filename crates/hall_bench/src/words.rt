// The words of the command line.
use std::env;

// What is to be run: in turns of a hall or under a mutex, by how many threads, and how many raises of how many rounds each.
#[derive(Clone, Copy, Drop)]
pub struct Load {
    pub hall: bool,
    pub threads: u32,
    pub turns: u32,
    pub rounds: u32,
}

fn kind(word: &str) -> Option<bool> {
    match word {
        "hall" => Some(true),
        "mutex" => Some(false),
        _ => None,
    }
}

// The load that the words name, or None where they are of another form.
pub fn read_load(rt: &HostRuntime) -> Option<Load> {
    let mut words = env::args(rt).ok()?.skip(1);
    let hall = kind(&words.next()?)?;
    let threads = words.next()?.parse().ok()?;
    let turns = words.next()?.parse().ok()?;
    let rounds = words.next()?.parse().ok()?;
    Some(Load {
        hall,
        threads,
        turns,
        rounds,
    })
}
