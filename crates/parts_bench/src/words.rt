// The words of the command line.
use std::env;

// What is to be run: all calls with their times or their numbers, or one part that is to be filled.
#[derive(Clone, Copy, Drop)]
pub enum Kind {
    Time,
    Count,
    Queues,
    Tapes,
    Book,
    Failed,
}

// What is to be run, over how many files.
#[derive(Clone, Copy, Drop)]
pub struct Load {
    pub kind: Kind,
    pub files: u32,
}

fn kind_of(word: &str) -> Option<Kind> {
    match word {
        "time" => Some(Kind::Time),
        "count" => Some(Kind::Count),
        "queues" => Some(Kind::Queues),
        "tapes" => Some(Kind::Tapes),
        "book" => Some(Kind::Book),
        "failed" => Some(Kind::Failed),
        _ => None,
    }
}

// The load that the words name, or None where they are of another form.
pub fn read_load(rt: &HostRuntime) -> Option<Load> {
    let mut words = env::args(rt).ok()?.skip(1);
    let kind = kind_of(&words.next()?)?;
    let files = words.next()?.parse().ok()?;
    Some(Load { kind, files })
}
