// The queues of jobs.
ghost use Rattle.std.specs.Prelude.{◌≡◌, ◌<◌, ◌+◌, length};
ghost use Rattle.part_model.specs.Queues.{lines_in};
ghost use Rattle.job_queues.specs.Waiting.{bytes_of};

use crate::report::{Report, tell};
use cta_model::Job;
use job_queues::JobQueues;
use part_model::Line;
use std::alloc::Global;
use std::io;
use std::marker::Model;
use std::time::Instant;

const CALLS: [&str; 5] = [
    "job_queues.reserve+take+sums+add",
    "job_queues.sums",
    "job_queues.front",
    "job_queues.after",
    "job_queues.take",
];

// The queues of at least two keys.
#[derive(Drop)]
struct Queues {
    queue: JobQueues,
}

impl Model for Queues {
    ghost use Rattle.std.specs.Prelude.{ℕ, ◌<◌, length};

    ghost Value = { ℕ };

    ghost view = { λ w. length w.queue.value };

    ghost invariant = { λ w. 1 < length w.queue.value };
}

// The job of the first copy of a file, born with its number.
fn job_of(file: u32) -> Job {
    Job {
        birth: file,
        file,
        copy: 1,
    }
}

// The bytes that wait under a key.
fn bytes_at(queue: &JobQueues, key: u32) -> u64
    requires { key < length queue.now.value }
    ensures { result ≡ bytes_of (lines_in queue.now.value key) }
{
    match queue.sums(key) {
        Some(sums) => sums.bytes,
        None => 0,
    }
}

// Adds a job that is taken out before, where the bytes are few.
fn add(queue: &mut JobQueues, key: u32, job: Job) -> bool
    requires { key < length queue.old.value }
    ensures { length queue.new.value ≡ length queue.old.value }
{
    if queue.reserve(1).is_err() {
        return false;
    }
    let _ = queue.take(key, job);
    if bytes_at(queue, key) > 1000000000000 {
        return false;
    }
    queue.add(
        key,
        Line {
            job,
            len: 100,
            born: 1,
            priority: 1,
            age: 60,
        },
    );
    true
}

impl Queues {
    fn reserve(&mut self, files: u32) -> bool {
        self.queue.reserve(files).is_ok()
    }

    fn add(&mut self, file: u32) -> bool {
        add(&mut self.queue, file % 2, job_of(file))
    }

    fn sums(&self, file: u32) -> bool {
        self.queue.sums(file % 2).is_some()
    }

    fn front(&self, file: u32) -> bool {
        self.queue.front(file % 2).is_some()
    }

    fn after(&self, file: u32) -> bool {
        let _ = self.queue.after(file % 2, job_of(file));
        true
    }

    fn take(&mut self, file: u32) -> bool {
        let _ = self.queue.take(file % 2, job_of(file));
        true
    }
}

// One call for one file.
fn call(queues: &mut Queues, file: u32, at: usize) -> bool {
    match at {
        0 => queues.add(file),
        1 => queues.sums(file),
        2 => queues.front(file),
        3 => queues.after(file),
        _ => queues.take(file),
    }
}

fn row(queues: &mut Queues, files: u32, at: usize) -> u32 {
    for file in 0..files {
        if !call(queues, file, at) {
            return file;
        }
    }
    files
}

// The queues of two keys.
fn start(alloc: Global) -> Option<Queues> {
    let queue = JobQueues::new(alloc, 2).ok()?;
    Some(Queues { queue })
}

fn run_lines(rt: &HostRuntime, report: Report, queues: &mut Queues) -> io::Result<()> {
    for at in 0..5 {
        let start = Instant::now(rt)?;
        let calls = row(queues, report.files, at);
        tell(rt, report, CALLS[at], start, calls)?;
    }
    Ok(())
}

// Prints the lines of the queues.
pub fn run(rt: &HostRuntime, report: Report) -> io::Result<()> {
    match start(rt.alloc()) {
        Some(mut queues) => run_lines(rt, report, &mut queues),
        None => Ok(()),
    }
}

// Adds so many jobs, with room for all at once.
fn fill_all(queues: &mut Queues, files: u32) -> Option<u32> {
    if !queues.reserve(files) {
        return None;
    }
    Some(row(queues, files, 0))
}

// Fills the queues.
pub fn fill(alloc: Global, files: u32) -> Option<u32> {
    match start(alloc) {
        Some(mut queues) => fill_all(&mut queues, files),
        None => None,
    }
}
