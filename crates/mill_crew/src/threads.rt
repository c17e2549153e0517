// Workers in threads.
ghost use denote.Param.Send.{IsSend, IsSync};
ghost use Rattle.std.specs.Prelude.{All, IfOk};

use std::alloc::AllocError;
use std::sync::Wait;
use std::sync::atomic::{AtomicBool, Ordering};
use std::thread;
use std::thread::{Threads, join};

/// What workers do at a hall: each has a job, and gives something back at its end. It does not name the hall, so that where threads are started it
/// need not be known what that is.
pub trait Work<H, J, Y> {
    // Whether this is a job.
    ghost is_job: { Self → H → J → Type 0 };

    // What a worker may give back.
    ghost is_done: { Self → H → Y → Type 0 };

    /// Does one job, whatever others do meanwhile. It may wait.
    fn work<R: Wait>(&self, rt: &R, hall: &H, job: J) -> Y
        requires { is_job self.now hall.now job }
        ensures { is_done self.entry.now hall.entry.now result };
}

// Does all jobs, each in a thread of its own, and waits for all of them. They give their results in the order of the jobs; where memory runs
// out for the threads, all are lost. Where the machine gives no thread, a job is done by the thread of another, the earlier ones first.
pub(crate) fn run_all<
    R: Threads + Wait + Sync,
    H: Sync,
    J: Send + Drop,
    Y: Send + Drop,
    W: Work<H, J, Y> + Sync,
>(rt: &R, work: &W, hall: &H, jobs: Vec<J>) -> Result<Vec<Y>, AllocError>
    requires { All (W.is_job work.now hall.now) jobs.items }
    ensures { IfOk result (λ v. All (W.is_done work.now hall.now) v.items) }
{
    thread::map_vec(rt, jobs, &|job| work.work(rt, hall, job))
}

// Does all jobs as `run_all`, and then says so.
fn run_told<
    R: Threads + Wait + Sync,
    H: Sync,
    J: Send + Drop,
    Y: Send + Drop,
    W: Work<H, J, Y> + Sync,
>(rt: &R, work: &W, hall: &H, jobs: Vec<J>, ended: &AtomicBool) -> Result<Vec<Y>, AllocError>
    requires { All (W.is_job work.now hall.now) jobs.items }
    ensures { IfOk result (λ v. All (W.is_done work.now hall.now) v.items) }
{
    let done = run_all(rt, work, hall, jobs);
    ended.store(true, Ordering::SeqCst);
    done
}

// Does all jobs of two lists at once, each in a thread of its own. Once all of the first list are done, or were lost as memory ran out, it says
// so: those of the second list may wait for that. So where the machine gives no thread, those of the first list are done first.
pub(crate) fn run_both<
    R: Threads + Wait + Sync,
    H: Sync,
    J: Send + Drop,
    Y: Send + Drop,
    W: Work<H, J, Y> + Sync,
>(
    rt: &R,
    work: &W,
    hall: &H,
    first: Vec<J>,
    second: Vec<J>,
    ended: &AtomicBool,
) -> (Result<Vec<Y>, AllocError>, Result<Vec<Y>, AllocError>)
    requires first { All (W.is_job work.now hall.now) first.items }
    requires second { All (W.is_job work.now hall.now) second.items }
    ensures first { IfOk result.0 (λ v. All (W.is_done work.now hall.now) v.items) }
    ensures second { IfOk result.1 (λ v. All (W.is_done work.now hall.now) v.items) }
{
    // What `join` is handed first runs last where no thread can be made for it.
    let (second, first) = join(
        rt,
        || -> Result<Vec<Y>, AllocError>
            requires { IsSync R.row × IsSync H.row × IsSync W.row × IsSend J.row × IsSend Y.row × All (W.is_job work.now hall.now) second.items }
            ensures { IfOk result (λ v. All (W.is_done work.entry.now hall.entry.now) v.items) }
        { run_all(rt, work, hall, second) },
        || -> Result<Vec<Y>, AllocError>
            requires { IsSync R.row × IsSync H.row × IsSync W.row × IsSend J.row × IsSend Y.row × All (W.is_job work.now hall.now) first.items }
            ensures { IfOk result (λ v. All (W.is_done work.entry.now hall.entry.now) v.items) }
        { run_told(rt, work, hall, first, ended) },
    );
    (first, second)
}
