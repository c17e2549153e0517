// The lines that are printed.
use std::io;
use std::time::Instant;

// Whether times are printed or numbers of calls, and over how many files.
#[derive(Clone, Copy)]
pub struct Report {
    pub timed: bool,
    pub files: u32,
}

// The mean of so many calls.
fn mean(nanos: u128, calls: u32) -> u128 {
    if calls == 0 {
        return 0;
    }
    nanos / u128::from(calls)
}

// Prints the line of a call that was made so many times since the moment: their mean, or their number.
pub fn tell(
    rt: &HostRuntime,
    report: Report,
    name: &str,
    start: Instant,
    calls: u32,
) -> io::Result<()> {
    let figure = if report.timed {
        mean(start.elapsed(rt)?.as_nanos(), calls)
    } else {
        u128::from(calls)
    };
    println!(rt; "{name} {figure}")
}
