// The callers of the phase in which files are fetched.
ghost use Rattle.std.specs.Prelude.{◌≤◌, All, IfOk};
ghost use Rattle.mill_crew.specs.Posts.{HasFetched, IsFetcher};

use crate::calls::MillFront;
use crate::fetches::fetch_share;
use crate::posts::{Fetched, Fetcher};
use crate::threads::{Work, run_all};
use blob::Sum256;
use outside::Gate;
use std::alloc::{AllocError, Global};
use std::sync::Wait;
use std::thread::Threads;
use turn_hall::{Hall, Keeps, Pass};

// What the callers of that phase share beside the hall.
#[derive(Drop)]
pub(crate) struct Fetching<'a, F, G> {
    // The allocator of what callers allocate.
    pub(crate) alloc: Global,
    // The front of what the hall keeps for callers.
    pub(crate) front: &'a F,
    // What each caller asks before it goes on.
    pub(crate) gate: &'a G,
    // The sums of all files, in order.
    pub(crate) sums: &'a [Sum256],
    // The number of the phase, which is its moment.
    pub(crate) phase: u64,
}

// A caller fetches its files.
fn fetch_job<R: Wait, T: Keeps, F: MillFront<T>, G: Gate>(
    rt: &R,
    at: &Fetching<'_, F, G>,
    hall: &Hall<T>,
    job: Fetcher<Pass<T>>,
) -> Fetched<Pass<T>>
    requires phase { at.now.phase ≤ 9 }
    requires job { IsFetcher T.site hall.now job }
    ensures { HasFetched T.site hall.entry.now at.entry.now.sums.now result }
{
    let Fetcher {
        worker,
        mut pass,
        share,
    } = job;
    let total = fetch_share(
        rt, at.alloc, hall, at.front, at.gate, worker, &mut pass, at.phase, at.sums, share,
    );
    Fetched { pass, share, total }
}

impl<T: Keeps, F: MillFront<T>, G: Gate> Work<Hall<T>, Fetcher<Pass<T>>, Fetched<Pass<T>>>
    for Fetching<'_, F, G> {
    ghost use Rattle.std.specs.Prelude.{◌≤◌};
    ghost use Rattle.mill_crew.specs.Posts.{HasFetched, IsFetcher};

    ghost is_job = { λ at hall job. (at.phase ≤ 9) × IsFetcher T.site hall job };

    ghost is_done = { λ at hall done. HasFetched T.site hall at.sums.now done };

    fn work<R: Wait>(&self, rt: &R, hall: &Hall<T>, job: Fetcher<Pass<T>>) -> Fetched<Pass<T>> {
        fetch_job::<R, T, F, G>(rt, self, hall, job)
    }
}

// Runs callers with any passes.
fn run_fetchers<
    R: Threads + Wait + Sync,
    H: Sync,
    P: Send + Drop,
    W: Work<H, Fetcher<P>, Fetched<P>> + Sync,
>(rt: &R, work: &W, hall: &H, jobs: Vec<Fetcher<P>>) -> Result<Vec<Fetched<P>>, AllocError>
    requires { All (W.is_job work.now hall.now) jobs.items }
    ensures { IfOk result (λ v. All (W.is_done work.now hall.now) v.items) }
{
    run_all(rt, work, hall, jobs)
}

// Runs callers with passes of one hall.
fn run_passes<
    R: Threads + Wait + Sync,
    T: Keeps + Send,
    W: Work<Hall<T>, Fetcher<Pass<T>>, Fetched<Pass<T>>> + Sync,
>(
    rt: &R,
    work: &W,
    hall: &Hall<T>,
    jobs: Vec<Fetcher<Pass<T>>>,
) -> Result<Vec<Fetched<Pass<T>>>, AllocError>
    requires { All (W.is_job work.now hall.now) jobs.items }
    ensures { IfOk result (λ v. All (W.is_done work.now hall.now) v.items) }
{
    run_fetchers(rt, work, hall, jobs)
}

// Runs callers that fetch, each in a thread of its own.
pub(crate) fn run_fetching<
    R: Threads + Wait + Sync,
    T: Keeps + Send,
    F: MillFront<T> + Sync,
    G: Gate + Sync,
>(
    rt: &R,
    at: &Fetching<'_, F, G>,
    hall: &Hall<T>,
    jobs: Vec<Fetcher<Pass<T>>>,
) -> Result<Vec<Fetched<Pass<T>>>, AllocError>
    requires phase { at.now.phase ≤ 9 }
    requires jobs { All (IsFetcher T.site hall.now) jobs.items }
    ensures { IfOk result (λ v. All (HasFetched T.site hall.entry.now at.entry.now.sums.now) v.items) }
{
    run_passes(rt, at, hall, jobs)
}
