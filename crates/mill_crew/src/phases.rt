// A phase: its workers get their passes, do what they have to do, and give their passes back.
ghost use Rattle.std.specs.Prelude.{◌≡◌, ◌≤◌, ◌<◌, ◌+◌, All, IfOk, length};
ghost use Rattle.turn_hall.specs.Handles.{IsPassOf, first_of};
ghost use Rattle.mill_crew.specs.Contents.{AreFetched, file_sums};
ghost use Rattle.mill_crew.specs.Posts.{AreDrives, IsFetcher, IsJob, IsTask, IsUnloaded};

use crate::calls::MillFront;
use crate::fetching::{Fetching, run_fetching};
use crate::gathering::{gather, gather_fetched};
use crate::passes::{join_passes, next_pass, split_passes};
use crate::posts::{Fetcher, Job, Task};
use crate::shares::share_of;
use crate::storing::{Storing, run_storing};
use blob::Sum256;
use cta_model::Told;
use cta_site::NoMemory;
use drive_turns::DriveFront;
use media::TapeDrive;
use outside::Gate;
use std::alloc::Global;
use std::mem;
use std::sync::Wait;
use std::sync::atomic::Ordering;
use std::thread::Threads;
use turn_hall::{Hall, Keeps, Pass};

// A job for each caller, with numbers from `first` on, where there are so many drives.
fn caller_jobs<T: Keeps, D: TapeDrive + Drop>(
    alloc: Global,
    hall: &Hall<T>,
    passes: &mut Vec<Pass<T>>,
    files: u32,
    callers: u32,
    first: u32,
) -> Result<Vec<Job<Pass<T>, D>>, NoMemory>
    requires few { (files ≤ 10000) × (callers ≤ 64) × (first ≤ 64) }
    requires passes { All (IsPassOf T.site hall.now) passes.old.items }
    ensures passes { IfOk result (λ _. All (IsPassOf T.site hall.now) passes.new.items) }
    ensures jobs { IfOk result (λ v. All (IsJob T.site hall.now D.seen first) v.items) }
{
    let mut jobs = Vec::new(alloc);
    for caller in 0..callers {
        let pass = next_pass(hall, passes)?;
        jobs.push(Job {
            worker: first + caller,
            pass,
            task: Task::Puts(share_of(files, callers, caller)),
        })?;
    }
    Ok(jobs)
}

// The task of a drive, of so many.
fn drive_task<D: TapeDrive>(count: usize, number: u32, drive: D) -> Task<D>
    requires number { number < count }
    requires drive { IsUnloaded D.seen drive }
    ensures { IsTask D.seen count result }
{
    let _count = count;
    Task::Steps { number, drive }
}

// A job for each drive, in order of their numbers, from 0 on.
fn drive_jobs<T: Keeps, D: TapeDrive + Drop>(
    alloc: Global,
    hall: &Hall<T>,
    passes: &mut Vec<Pass<T>>,
    drives: Vec<D>,
) -> Result<Vec<Job<Pass<T>, D>>, NoMemory>
    requires few { length drives.items ≤ 64 }
    requires passes { All (IsPassOf T.site hall.now) passes.old.items }
    requires drives { All (IsUnloaded D.seen) drives.items }
    ensures passes { IfOk result (λ _. All (IsPassOf T.site hall.now) passes.new.items) }
    ensures jobs { IfOk result (λ v. All (IsJob T.site hall.now D.seen (length drives.items)) v.items) }
{
    let mut jobs = Vec::new(alloc);
    let count = drives.len();
    let mut number: u32 = 0;
    for drive in drives {
        let pass = next_pass(hall, passes)?;
        let task = drive_task(count, number, drive);
        jobs.push(Job {
            worker: number,
            pass,
            task,
        })?;
        number += 1;
    }
    Ok(jobs)
}

// A phase in which so many callers put the files and drives step, each in a thread of its own, until no caller is left and each drive has
// found nothing to do and its session is Free. It adds the sums of the files. After NoMemory passes and drives may be lost.
pub(crate) fn store_phase<
    R: Threads + Wait + Sync,
    T: Keeps + Send,
    M: Told + Send + Drop,
    D: TapeDrive<Medium = M> + Send + Drop,
    F: MillFront<T> + Sync,
    X: DriveFront<T, M> + Sync,
    G: Gate + Sync,
>(
    rt: &R,
    at: &Storing<'_, F, X, G>,
    hall: &Hall<T>,
    pass: &mut Pass<T>,
    drives: &mut Vec<D>,
    files: u32,
    callers: u32,
    sums: &mut Vec<Sum256>,
) -> Result<(), NoMemory>
    requires here { IsPassOf T.site hall.now pass.old }
    requires phase { at.now.phase ≤ 9 }
    requires few { (files ≤ 10000) × (callers ≤ 64) }
    requires drives { AreDrives D.seen (length (X.site (T.site (first_of hall.now))).drives.items) drives.old.items }
    requires sums { sums.old.items ≡ file_sums at.now.seed 0 (length sums.old.items) }
    ensures here { IfOk result (λ _. IsPassOf T.site hall.entry.now pass.new) }
    ensures drives { IfOk result (λ _. AreDrives D.seen (length (X.site (T.site (first_of hall.entry.now))).drives.items) drives.new.items) }
    ensures sums { IfOk result (λ _. sums.new.items ≡ file_sums at.entry.now.seed 0 (length sums.new.items)) }
{
    let count = drives.len();
    let taken = mem::replace(drives, Vec::new(at.alloc));
    let mut passes = split_passes(at.alloc, hall, pass)?;
    let first = count as u32;
    let callers = caller_jobs::<T, D>(at.alloc, hall, &mut passes, files, callers, first)?;
    let stepping = drive_jobs::<T, D>(at.alloc, hall, &mut passes, taken)?;
    at.ended.store(false, Ordering::SeqCst);
    let (put, stepped) = run_storing::<R, T, M, D, F, X, G>(rt, at, hall, callers, stepping);
    join_passes(hall, pass, passes);
    gather::<T, D>(hall, pass, at.seed, put?, drives, sums)?;
    gather::<T, D>(hall, pass, at.seed, stepped?, drives, sums)?;
    if drives.len() == count {
        Ok(())
    } else {
        Err(NoMemory)
    }
}

// A job for each caller that fetches, with numbers from `first` on.
fn fetchers<T: Keeps>(
    alloc: Global,
    hall: &Hall<T>,
    passes: &mut Vec<Pass<T>>,
    files: u32,
    callers: u32,
    first: u32,
) -> Result<Vec<Fetcher<Pass<T>>>, NoMemory>
    requires few { (files ≤ 10000) × (callers ≤ 64) × (first ≤ 64) }
    requires passes { All (IsPassOf T.site hall.now) passes.old.items }
    ensures passes { IfOk result (λ _. All (IsPassOf T.site hall.now) passes.new.items) }
    ensures jobs { IfOk result (λ v. All (IsFetcher T.site hall.now) v.items) }
{
    let mut jobs = Vec::new(alloc);
    for caller in 0..callers {
        let pass = next_pass(hall, passes)?;
        jobs.push(Fetcher {
            worker: first + caller,
            pass,
            share: share_of(files, callers, caller),
        })?;
    }
    Ok(jobs)
}

// The phase in which so many callers fetch the files, each in a thread of its own: the total of their bytes modulo 2^64. After NoMemory passes
// may be lost.
pub(crate) fn fetch_phase<
    R: Threads + Wait + Sync,
    T: Keeps + Send,
    F: MillFront<T> + Sync,
    G: Gate + Sync,
>(
    rt: &R,
    at: &Fetching<'_, F, G>,
    hall: &Hall<T>,
    pass: &mut Pass<T>,
    files: u32,
    callers: u32,
    first: u32,
) -> Result<u64, NoMemory>
    requires here { IsPassOf T.site hall.now pass.old }
    requires phase { at.now.phase ≤ 9 }
    requires few { (files ≤ 10000) × (callers ≤ 64) × (first ≤ 64) }
    ensures here { IfOk result (λ _. IsPassOf T.site hall.entry.now pass.new) }
    ensures fetched { IfOk result (AreFetched at.entry.now.sums.now) }
{
    let mut passes = split_passes(at.alloc, hall, pass)?;
    let jobs = fetchers(at.alloc, hall, &mut passes, files, callers, first)?;
    let done = run_fetching::<R, T, F, G>(rt, at, hall, jobs)?;
    join_passes(hall, pass, passes);
    gather_fetched(hall, pass, at.sums, done)
}
