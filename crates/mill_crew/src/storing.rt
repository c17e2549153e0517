// The workers of a phase in which drives step: callers that put files, and drives.
ghost use Rattle.std.specs.Prelude.{◌≡◌, ◌≤◌, ◌<◌, All, IfOk, length};
ghost use Rattle.turn_hall.specs.Handles.{IsPassOf, first_of};
ghost use Rattle.mill_crew.specs.Posts.{IsDone, IsJob, IsUnloaded};

use crate::calls::MillFront;
use crate::phase_clock::PhaseClock;
use crate::posts::{Done, Job, Made, Task};
use crate::puts::put_share;
use crate::shares::Share;
use crate::stepping::drive_phase;
use crate::threads::{Work, run_both};
use cta_model::Told;
use drive_turns::DriveFront;
use media::TapeDrive;
use outside::Gate;
use std::alloc::{AllocError, Global};
use std::sync::Wait;
use std::sync::atomic::AtomicBool;
use std::thread::Threads;
use turn_hall::{Hall, Keeps, Pass};

// What the workers of such a phase share beside the hall.
#[derive(Drop)]
pub(crate) struct Storing<'a, F, X, G> {
    // The allocator of what workers allocate.
    pub(crate) alloc: Global,
    // The front of what the hall keeps for callers.
    pub(crate) front: &'a F,
    // The front of what the hall keeps for drives.
    pub(crate) drives: &'a X,
    // What each worker asks before it goes on.
    pub(crate) gate: &'a G,
    // Whether all callers of the phase have ended.
    pub(crate) ended: &'a AtomicBool,
    // What the files are made from.
    pub(crate) seed: u64,
    // The number of the phase, which is its moment.
    pub(crate) phase: u64,
}

// A caller puts its files.
fn put_job<R: Wait, T: Keeps, D: TapeDrive, F: MillFront<T>, X, G: Gate>(
    rt: &R,
    at: &Storing<'_, F, X, G>,
    hall: &Hall<T>,
    worker: u32,
    pass: Pass<T>,
    share: Share,
) -> Done<Pass<T>, D>
    requires phase { at.now.phase ≤ 9 }
    requires here { IsPassOf T.site hall.now pass }
    ensures { IsDone T.site hall.entry.now D.seen at.entry.now.seed result }
{
    let mut pass = pass;
    let sums = put_share(
        rt, at.alloc, hall, at.front, at.gate, worker, &mut pass, at.phase, at.seed, share,
    );
    Done {
        pass,
        made: Made::Sums { share, sums },
    }
}

// A drive steps.
fn step_job<
    R: Wait,
    T: Keeps,
    M: Told + Drop,
    D: TapeDrive<Medium = M> + Drop,
    F,
    X: DriveFront<T, M>,
    G: Gate,
>(
    rt: &R,
    at: &Storing<'_, F, X, G>,
    hall: &Hall<T>,
    worker: u32,
    pass: Pass<T>,
    number: u32,
    drive: D,
) -> Done<Pass<T>, D>
    requires here { IsPassOf T.site hall.now pass }
    requires number { number < length (X.site (T.site (first_of hall.now))).drives.items }
    requires unloaded { IsUnloaded D.seen drive }
    ensures { IsDone T.site hall.entry.now D.seen at.entry.now.seed result }
{
    let mut pass = pass;
    let clock = PhaseClock { phase: at.phase };
    let drive = drive_phase(
        rt, at.alloc, hall, at.gate, at.drives, at.ended, worker, number, &mut pass, drive, clock,
    );
    Done {
        pass,
        made: Made::Drive(drive),
    }
}

// One worker.
fn store_job<
    R: Wait,
    T: Keeps,
    M: Told + Drop,
    D: TapeDrive<Medium = M> + Drop,
    F: MillFront<T>,
    X: DriveFront<T, M>,
    G: Gate,
>(rt: &R, at: &Storing<'_, F, X, G>, hall: &Hall<T>, job: Job<Pass<T>, D>) -> Done<Pass<T>, D>
    requires phase { at.now.phase ≤ 9 }
    requires job { IsJob T.site hall.now D.seen (length (X.site (T.site (first_of hall.now))).drives.items) job }
    ensures { IsDone T.site hall.entry.now D.seen at.entry.now.seed result }
{
    let Job { worker, pass, task } = job;
    match task {
        Task::Puts(share) => put_job::<R, T, D, F, X, G>(rt, at, hall, worker, pass, share),
        Task::Steps { number, drive } => {
            step_job::<R, T, M, D, F, X, G>(rt, at, hall, worker, pass, number, drive)
        }
    }
}

impl<
    T: Keeps,
    M: Told + Drop,
    D: TapeDrive<Medium = M> + Drop,
    F: MillFront<T>,
    X: DriveFront<T, M>,
    G: Gate,
> Work<Hall<T>, Job<Pass<T>, D>, Done<Pass<T>, D>> for Storing<'_, F, X, G> {
    ghost use Rattle.std.specs.Prelude.{◌≤◌, length};
    ghost use Rattle.turn_hall.specs.Handles.{first_of};
    ghost use Rattle.mill_crew.specs.Posts.{IsDone, IsJob};

    ghost is_job = { λ at hall job. (at.phase ≤ 9) × IsJob T.site hall D.seen (length (X.site (T.site (first_of hall))).drives.items) job };

    ghost is_done = { λ at hall done. IsDone T.site hall D.seen at.seed done };

    fn work<R: Wait>(&self, rt: &R, hall: &Hall<T>, job: Job<Pass<T>, D>) -> Done<Pass<T>, D> {
        store_job::<R, T, M, D, F, X, G>(rt, self, hall, job)
    }
}

// What the callers and the drives of a phase give back, where memory was enough for their threads.
pub(crate) type Both<P, D> = (
    Result<Vec<Done<P, D>>, AllocError>,
    Result<Vec<Done<P, D>>, AllocError>,
);

// Runs workers with any passes. That a job may cross threads is found where what it holds is a type parameter.
fn run_jobs<
    R: Threads + Wait + Sync,
    H: Sync,
    P: Send + Drop,
    D: Send + Drop,
    W: Work<H, Job<P, D>, Done<P, D>> + Sync,
>(
    rt: &R,
    work: &W,
    hall: &H,
    callers: Vec<Job<P, D>>,
    drives: Vec<Job<P, D>>,
    ended: &AtomicBool,
) -> Both<P, D>
    requires callers { All (W.is_job work.now hall.now) callers.items }
    requires drives { All (W.is_job work.now hall.now) drives.items }
    ensures callers { IfOk result.0 (λ v. All (W.is_done work.now hall.now) v.items) }
    ensures drives { IfOk result.1 (λ v. All (W.is_done work.now hall.now) v.items) }
{
    run_both(rt, work, hall, callers, drives, ended)
}

// Runs workers with passes of one hall.
fn run_passes<
    R: Threads + Wait + Sync,
    T: Keeps + Send,
    D: Send + Drop,
    W: Work<Hall<T>, Job<Pass<T>, D>, Done<Pass<T>, D>> + Sync,
>(
    rt: &R,
    work: &W,
    hall: &Hall<T>,
    callers: Vec<Job<Pass<T>, D>>,
    drives: Vec<Job<Pass<T>, D>>,
    ended: &AtomicBool,
) -> Both<Pass<T>, D>
    requires callers { All (W.is_job work.now hall.now) callers.items }
    requires drives { All (W.is_job work.now hall.now) drives.items }
    ensures callers { IfOk result.0 (λ v. All (W.is_done work.now hall.now) v.items) }
    ensures drives { IfOk result.1 (λ v. All (W.is_done work.now hall.now) v.items) }
{
    run_jobs(rt, work, hall, callers, drives, ended)
}

// Runs callers and drives, each in a thread of its own.
pub(crate) fn run_storing<
    R: Threads + Wait + Sync,
    T: Keeps + Send,
    M: Told + Send + Drop,
    D: TapeDrive<Medium = M> + Send + Drop,
    F: MillFront<T> + Sync,
    X: DriveFront<T, M> + Sync,
    G: Gate + Sync,
>(
    rt: &R,
    at: &Storing<'_, F, X, G>,
    hall: &Hall<T>,
    callers: Vec<Job<Pass<T>, D>>,
    drives: Vec<Job<Pass<T>, D>>,
) -> Both<Pass<T>, D>
    requires phase { at.now.phase ≤ 9 }
    requires callers { All (IsJob T.site hall.now D.seen (length (X.site (T.site (first_of hall.now))).drives.items)) callers.items }
    requires drives { All (IsJob T.site hall.now D.seen (length (X.site (T.site (first_of hall.now))).drives.items)) drives.items }
    ensures callers { IfOk result.0 (λ v. All (IsDone T.site hall.entry.now D.seen at.entry.now.seed) v.items) }
    ensures drives { IfOk result.1 (λ v. All (IsDone T.site hall.entry.now D.seen at.entry.now.seed) v.items) }
{
    run_passes(rt, at, hall, callers, drives, at.ended)
}
