// Workers in threads of their own, and one more call beside them.
ghost use denote.Param.Send.{IsSend, IsSync};
ghost use Rattle.std.specs.Prelude.{◌≡◌, IfOk, IfSome, vec_len};
ghost use Rattle.std.specs.Fork.{AcceptsJobs, GivesJobs};

use std::alloc::AllocError;
use std::thread;
use std::thread::{Threads, join_mut};

// All jobs that lie in a place, each in a thread.
fn map_taken<R: Threads + Sync, J: Send + Drop, X: Send + Drop, F: Fn(J) -> X + Sync>(
    rt: &R,
    jobs: &mut Option<Vec<J>>,
    f: &F,
) -> Result<Vec<X>, AllocError>
    requires { IfSome jobs.old (λ v. AcceptsJobs F.Fn f.now v.items) }
    ensures len { IfOk result (λ v. IfSome jobs.old (λ w. vec_len v ≡ vec_len w)) }
    ensures each { IfOk result (λ v. IfSome jobs.old (λ w. GivesJobs F.Fn f.now w.items v.items)) }
{
    match jobs.take() {
        Some(jobs) => thread::map_vec(rt, jobs, f),
        None => Err(AllocError),
    }
}

// All jobs, each in a thread of its own, and one more call beside them.
pub(crate) fn beside<
    R: Threads + Sync,
    J: Send + Drop,
    X: Send + Drop,
    F: Fn(J) -> X + Sync,
    G: FnMut() -> B,
    B,
>(rt: &R, jobs: Vec<J>, f: &F, g: &mut G) -> (Result<Vec<X>, AllocError>, B)
    requires jobs { AcceptsJobs F.Fn f.now jobs.items }
    requires beside { G.pre g.old }
    ensures len { IfOk result.0 (λ v. vec_len v ≡ vec_len jobs) }
    ensures each { IfOk result.0 (λ v. GivesJobs F.Fn f.now jobs.items v.items) }
    ensures beside { G.step g.old result.1 g.new }
{
    let mut jobs = Some(jobs);
    join_mut(
        rt,
        &mut || -> Result<Vec<X>, AllocError>
            requires { IsSync R.row × IsSync F.row × IsSend J.row × IsSend X.row × IfSome jobs (λ v. AcceptsJobs F.Fn f.now v.items) }
            ensures { IfOk result (λ v. IfSome jobs.entry (λ w. (vec_len v ≡ vec_len w) × GivesJobs F.Fn f.entry.now w.items v.items)) }
        { map_taken(rt, &mut jobs, f) },
        g,
    )
}
