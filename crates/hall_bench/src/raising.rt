// Threads that raise a counter.
ghost use Rattle.std.specs.Prelude.{◌≡◌, ◌+◌, IfOk, All, length};
ghost use mathlib.Core.List.{IsPrefix};
ghost use Rattle.turn_hall.specs.Handles.{IsPassOf, view};

use crate::counter::{Call, Counter};
use std::alloc::AllocError;
use std::sync::Wait;
use std::thread;
use std::thread::Threads;
use turn_hall::{Hall, Pass};

/// Raises the counter so many times, each in a turn of its own after as many rounds of work.
pub fn raise_each<R: Wait>(
    rt: &R,
    hall: &Hall<Counter>,
    pass: &mut Pass<Counter>,
    times: u32,
    rounds: u32,
)
    requires { IsPassOf (λ c. tt) hall.now pass.old }
    ensures here { IsPassOf (λ c. tt) hall.now pass.new }
    ensures seats { pass.new.seats ≡ pass.old.seats }
    ensures calls { length (view pass.new).mine ≡ length (view pass.old).mine + times }
    ensures seen { IsPrefix (view pass.old).seen (view pass.new).seen }
{
    for _ in 0..times {
        hall.turn(rt, pass, Call::Raise(rounds));
    }
}

/// What one thread is given: the pass that it takes its turns with.
#[derive(Drop)]
pub struct Job<P> {
    pub pass: P,
}

// Raises the counter with one pass, and gives the pass back.
fn raised<R: Wait>(
    rt: &R,
    hall: &Hall<Counter>,
    job: Job<Pass<Counter>>,
    times: u32,
    rounds: u32,
) -> Pass<Counter>
    requires { IsPassOf (λ c. tt) hall.now job.pass }
    ensures { IsPassOf (λ c. tt) hall.entry.now result }
{
    let Job { mut pass } = job;
    raise_each(rt, hall, &mut pass, times, rounds);
    pass
}

/// Each thread raises the counter so many times with a pass of its own, and gives the pass back.
pub fn raise_by_all<R: Threads + Wait + Sync>(
    rt: &R,
    hall: &Hall<Counter>,
    jobs: Vec<Job<Pass<Counter>>>,
    times: u32,
    rounds: u32,
) -> Result<Vec<Pass<Counter>>, AllocError>
    requires { All (λ j. IsPassOf (λ c. tt) hall.now j.pass) jobs.items }
    ensures { IfOk result (λ v. All (λ p. IsPassOf (λ c. tt) hall.entry.now p) v.items) }
{
    thread::map_vec(rt, jobs, &|job| raised(rt, hall, job, times, rounds))
}
