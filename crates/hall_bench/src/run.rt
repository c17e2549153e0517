// The two ways to take turns at one counter.
ghost use Rattle.std.specs.Prelude.{◌≡◌, IfOk, All};
ghost use Rattle.turn_hall.specs.Handles.{IsPassOf};

use crate::counter::{Call, Counter, Told};
use crate::raising::{Job, raise_by_all};
use crate::words::Load;
use std::alloc::{AllocError, Global};
use std::sync::{Mutex, Wait};
use std::thread;
use std::thread::Threads;
use turn_hall::{Hall, Keeps, Pass};

// The seats of the hall: a pass of the fewest splits is split next, so they are enough for 2^31 threads.
const SEATS: u32 = 1 << 31;

// A job for each thread, with a pass of its own. The first job's pass is split, and both parts go to the back.
fn jobs_of(
    alloc: Global,
    hall: &Hall<Counter>,
    first: Pass<Counter>,
    threads: u32,
) -> Result<Vec<Job<Pass<Counter>>>, AllocError>
    requires { IsPassOf (λ c. tt) hall.now first }
    ensures { IfOk result (λ v. All (λ j. IsPassOf (λ c. tt) hall.now j.pass) v.items) }
{
    let mut jobs = Vec::new(alloc);
    jobs.push(Job { pass: first })?;
    for _ in 1..threads {
        let Job { mut pass } = jobs.remove(0);
        if let Some(other) = hall.split(&mut pass) {
            jobs.push(Job { pass: other })?;
        }
        jobs.push(Job { pass })?;
    }
    Ok(jobs)
}

// The number that the counter has come to, as one of the passes is told.
fn counted<R: Wait>(rt: &R, hall: &Hall<Counter>, mut passes: Vec<Pass<Counter>>) -> u64
    requires { All (λ p. IsPassOf (λ c. tt) hall.now p) passes.items }
{
    let Some(mut pass) = passes.pop() else {
        return 0;
    };
    match hall.turn(rt, &mut pass, Call::Count) {
        Told::Counted(count) => count,
        _ => 0,
    }
}

// Runs the load in turns of a hall, and gives what the counter has come to.
pub fn by_hall<R: Threads + Wait + Sync>(
    rt: &R,
    alloc: Global,
    load: &Load,
) -> Result<u64, AllocError> {
    let Ok((hall, first)) = Hall::new(alloc, Counter::new(), SEATS) else {
        return Err(AllocError);
    };
    let jobs = jobs_of(alloc, &hall, first, load.threads)?;
    let passes = raise_by_all(rt, &hall, jobs, load.turns, load.rounds)?;
    Ok(counted(rt, &hall, passes))
}

// Raises the counter so many times under its mutex.
fn raise_locked<R: Wait>(rt: &R, counter: &Mutex<Counter>, turns: u32, rounds: u32) {
    for _ in 0..turns {
        counter.lock(rt).play(Call::Raise(rounds));
    }
}

// Runs the load under a plain mutex, and gives what the counter has come to.
pub fn by_mutex<R: Threads + Wait + Sync>(
    rt: &R,
    alloc: Global,
    load: &Load,
) -> Result<u64, AllocError> {
    let counter = Mutex::new(Counter::new());
    let threads = load.threads as usize;
    thread::map_indices(
        rt,
        alloc,
        threads,
        &|_| { raise_locked(rt, &counter, load.turns, load.rounds) },
    )?;
    Ok(counter.into_inner().count())
}
