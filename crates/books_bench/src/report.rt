// The lines that are printed.
use std::io;
use std::time::Instant;

// Whether times are printed or numbers of calls, whether files come in an order that looks thrown or in that of their numbers,
// whether a part is only filled, and how many files there are.
#[derive(Clone, Copy)]
pub struct Report {
    pub timed: bool,
    pub thrown: bool,
    pub fills: bool,
    pub files: u32,
}

// The file that comes at a place, below the number of files: another one at each place, since the multiplier is prime.
pub fn file_at(report: Report, place: u32) -> u32 {
    if !report.thrown {
        return place;
    }
    let at = u64::from(place).wrapping_mul(2654435761) % u64::from(report.files.max(1));
    at as u32
}

// The mean of so many calls.
fn mean(nanos: u128, calls: u32) -> u128 {
    if calls == 0 {
        return 0;
    }
    nanos / u128::from(calls)
}

// Prints the line of a call that was made so many times since the moment: their mean, or their number.
pub fn tell(
    rt: &HostRuntime,
    report: Report,
    name: &str,
    start: Instant,
    calls: u32,
) -> io::Result<()> {
    let figure = if report.timed {
        mean(start.elapsed(rt)?.as_nanos(), calls)
    } else {
        u128::from(calls)
    };
    println!(rt; "{name} {figure}")
}

pub fn lacks_memory(rt: &HostRuntime) -> io::Result<()> {
    eprintln!(rt; "books_bench: no memory")
}

// Prints how many files a part took that was filled.
pub fn tell_filled(rt: &HostRuntime, taken: Option<u32>) -> io::Result<()> {
    match taken {
        Some(count) => println!(rt; "{count}"),
        None => lacks_memory(rt),
    }
}

// A part whose calls are made line by line.
pub trait Lines {
    // Makes the calls of the line of this number; how many that were.
    fn row(&mut self, report: Report, at: usize) -> u32;
}

fn run_lines<T: Lines>(
    rt: &HostRuntime,
    report: Report,
    part: &mut T,
    lines: &[(usize, &str)],
) -> io::Result<()> {
    for (at, name) in lines {
        let start = Instant::now(rt)?;
        let calls = part.row(report, *at);
        tell(rt, report, *name, start, calls)?;
    }
    Ok(())
}

// Prints these lines of a part, or fills it by its first one.
pub fn run_over<T: Lines>(
    rt: &HostRuntime,
    report: Report,
    part: &mut T,
    lines: &[(usize, &str)],
) -> io::Result<()> {
    if report.fills {
        return tell_filled(rt, Some(part.row(report, 0)));
    }
    run_lines(rt, report, part, lines)
}
