// The place of a server's workers, and what each does there.
ghost use Rattle.std.specs.Prelude.{◌≡◌, ◌<◌, ℕ, List, [], false, length};
ghost use Rattle.turn_hall.specs.Handles.{first_of, view};
ghost use Rattle.turn_hall.specs.declared.view.Made.{Made};
ghost use Rattle.link_loop.specs.declared.front.Routed.{Routed};
ghost use Rattle.link_pool.specs.declared.views.Passed.{Passed};
ghost use Rattle.link_pool.specs.Entries.{links_of};
ghost use Rattle.crossbeam_queue.specs.Passes.{view as pool_view};
ghost use Rattle.wire_http.specs.declared.request.Request.{Request};
ghost use Rattle.drive_turns.specs.Turns.{AreOfSessions};
ghost use Rattle.link_crew.specs.Accounts.{Accounted};
ghost use Rattle.server_crew.specs.Jobs.{AreApart, IsDone, IsJob, IsPost};

use crate::post::{Done, Job, Post, Task};
use crate::threads::Work;
use cta_model::Told;
use drive_turns::{DriveFront, work_drive};
use link_crew::{Callers, Served, no_links_are_asked, work_busy, work_links};
use link_pool::{Pool, PoolPass};
use media::TapeDrive;
use outside::{Clock, Gate, Link};
use std::alloc::Global;
use std::sync::Wait;
use turn_hall::{Hall, Keeps, Pass};

/// What workers of a server share beside the hall and the pools.
#[derive(Drop)]
pub(crate) struct Place<'a, F, X, C, G> {
    /// The allocator of what workers allocate.
    pub(crate) alloc: Global,
    /// What tells the moment.
    pub(crate) clock: C,
    /// What tells a worker to go on.
    pub(crate) gate: &'a G,
    /// The front of what the hall keeps for links.
    pub(crate) front: &'a F,
    /// The front of what the hall keeps for drives.
    pub(crate) drives: &'a X,
    /// The most bytes of a body that is put.
    pub(crate) file_limit: u64,
}

// That calls of sessions are those of no link: a law, which does nothing when it runs.
#[tactic(auto, using(crate::proofs::Drives::only_sessions))]
fn sessions_ask_on_no_link<T: Keeps, M: Told, N: Callers<T>, X: DriveFront<T, M>, L: Link>()
    ensures { (file_limit : ℕ) (needs : Request → Routed N.Question) (mine : List (Made T.Call T.Back)) (got : List (Passed L)) → AreApart N.question N.is_callers X.asking → AreOfSessions X.asking mine → got ≡ []
        → Accounted N.question N.is_callers L.left L.firm file_limit needs mine (links_of got) 0 }
{}

// The worker of a drive.
fn work_at_drive<
    R: Wait,
    T: Keeps,
    M: Told + Drop,
    D: TapeDrive<Medium = M> + Drop,
    F: Callers<T>,
    X: DriveFront<T, M>,
    L: Link,
    C: Clock + Copy + Drop,
    G: Gate,
>(
    rt: &R,
    at: &Place<'_, F, X, C, G>,
    hall: &Hall<T>,
    pool: &Pool<L>,
    full: &Pool<L>,
    post: Post<Pass<T>, PoolPass<L>>,
    number: u32,
    drive: D,
) -> Done<Pass<T>, PoolPass<L>>
    requires apart { AreApart F.question F.is_callers X.asking }
    requires post { IsPost T.site hall.now pool.now.queue full.now.queue post }
    requires calls { (view post.pass).mine ≡ [] }
    requires links { (pool_view post.seat).got ≡ [] }
    requires drive { (number < length (X.site (T.site (first_of hall.now))).drives.items) × ((D.seen drive).loaded ≡ false) }
    ensures { IsDone T.site hall.entry.now pool.entry.now.queue full.entry.now.queue F.question F.is_callers L.left L.firm at.entry.now.file_limit (F.needs (T.site (first_of hall.entry.now))) result }
{
    sessions_ask_on_no_link::<T, M, F, X, L>();
    let Post {
        worker,
        pass,
        seat,
        full_seat,
    } = post;
    let pass = work_drive(
        rt, at.alloc, hall, at.gate, at.drives, worker, number, pass, drive, at.clock,
    );
    Done {
        post: Post {
            worker,
            pass,
            seat,
            full_seat,
        },
        unserved: 0,
    }
}

// A worker of links.
fn work_at_links<
    R: Wait,
    T: Keeps,
    F: Callers<T>,
    X,
    L: Link + Drop,
    C: Clock + Copy + Drop,
    G: Gate,
>(
    rt: &R,
    at: &Place<'_, F, X, C, G>,
    hall: &Hall<T>,
    pool: &Pool<L>,
    full: &Pool<L>,
    post: Post<Pass<T>, PoolPass<L>>,
) -> Done<Pass<T>, PoolPass<L>>
    requires site { F.site at.now.front.now ≡ T.site (first_of hall.now) }
    requires post { IsPost T.site hall.now pool.now.queue full.now.queue post }
    requires calls { (view post.pass).mine ≡ [] }
    requires links { (pool_view post.seat).got ≡ [] }
    ensures { IsDone T.site hall.entry.now pool.entry.now.queue full.entry.now.queue F.question F.is_callers L.left L.firm at.entry.now.file_limit (F.needs (T.site (first_of hall.entry.now))) result }
{
    no_links_are_asked::<T, F, L>();
    let Post {
        worker,
        pass,
        seat,
        full_seat,
    } = post;
    let Served {
        pass,
        seat,
        unserved,
    } = work_links(
        rt,
        at.alloc,
        hall,
        pool,
        at.gate,
        at.front,
        at.file_limit,
        worker,
        pass,
        seat,
        at.clock,
    );
    Done {
        post: Post {
            worker,
            pass,
            seat,
            full_seat,
        },
        unserved,
    }
}

// The worker of links for which there is no room.
fn work_at_full<R: Wait, T: Keeps, F: Callers<T>, X, L: Link + Drop, C, G: Gate>(
    rt: &R,
    at: &Place<'_, F, X, C, G>,
    hall: &Hall<T>,
    pool: &Pool<L>,
    full: &Pool<L>,
    post: Post<Pass<T>, PoolPass<L>>,
) -> Done<Pass<T>, PoolPass<L>>
    requires post { IsPost T.site hall.now pool.now.queue full.now.queue post }
    requires calls { (view post.pass).mine ≡ [] }
    requires links { (pool_view post.seat).got ≡ [] }
    ensures { IsDone T.site hall.entry.now pool.entry.now.queue full.entry.now.queue F.question F.is_callers L.left L.firm at.entry.now.file_limit (F.needs (T.site (first_of hall.entry.now))) result }
{
    no_links_are_asked::<T, F, L>();
    let Post {
        worker,
        pass,
        seat,
        full_seat,
    } = post;
    let full_seat = work_busy(rt, at.alloc, full, at.gate, worker, full_seat);
    Done {
        post: Post {
            worker,
            pass,
            seat,
            full_seat,
        },
        unserved: 0,
    }
}

// One worker.
fn work_job<
    R: Wait,
    T: Keeps,
    M: Told + Drop,
    D: TapeDrive<Medium = M> + Drop,
    F: Callers<T>,
    X: DriveFront<T, M>,
    L: Link + Drop,
    C: Clock + Copy + Drop,
    G: Gate,
>(
    rt: &R,
    at: &Place<'_, F, X, C, G>,
    hall: &Hall<T>,
    pool: &Pool<L>,
    full: &Pool<L>,
    job: Job<Pass<T>, PoolPass<L>, D>,
) -> Done<Pass<T>, PoolPass<L>>
    requires site { F.site at.now.front.now ≡ T.site (first_of hall.now) }
    requires apart { AreApart F.question F.is_callers X.asking }
    requires job { IsJob T.site hall.now pool.now.queue full.now.queue D.seen (length (X.site (T.site (first_of hall.now))).drives.items) job }
    ensures { IsDone T.site hall.entry.now pool.entry.now.queue full.entry.now.queue F.question F.is_callers L.left L.firm at.entry.now.file_limit (F.needs (T.site (first_of hall.entry.now))) result }
{
    let Job { post, task } = job;
    match task {
        Task::Drive { number, drive } => {
            work_at_drive::<R, T, M, D, F, X, L, C, G>(
                rt, at, hall, pool, full, post, number, drive,
            )
        }
        Task::Links => work_at_links::<R, T, F, X, L, C, G>(rt, at, hall, pool, full, post),
        Task::Busy => work_at_full::<R, T, F, X, L, C, G>(rt, at, hall, pool, full, post),
    }
}

impl<
    T: Keeps,
    M: Told + Drop,
    D: TapeDrive<Medium = M> + Drop,
    F: Callers<T>,
    X: DriveFront<T, M>,
    L: Link + Drop,
    C: Clock + Copy + Drop,
    G: Gate,
> Work<Hall<T>, Pool<L>, Job<Pass<T>, PoolPass<L>, D>, Done<Pass<T>, PoolPass<L>>>
    for Place<'_, F, X, C, G> {
    ghost use Rattle.std.specs.Prelude.{◌≡◌, length};
    ghost use Rattle.turn_hall.specs.Handles.{first_of};
    ghost use Rattle.server_crew.specs.Jobs.{AreApart, IsDone, IsJob};

    ghost is_job = { λ at hall pool busy job. (F.site at.front.now ≡ T.site (first_of hall)) × AreApart F.question F.is_callers X.asking
        × IsJob T.site hall pool.queue busy.queue D.seen (length (X.site (T.site (first_of hall))).drives.items) job };

    ghost is_done = { λ at hall pool busy done. IsDone T.site hall pool.queue busy.queue F.question F.is_callers L.left L.firm at.file_limit (F.needs (T.site (first_of hall))) done };

    fn work<R: Wait>(
        &self,
        rt: &R,
        hall: &Hall<T>,
        pool: &Pool<L>,
        full: &Pool<L>,
        job: Job<Pass<T>, PoolPass<L>, D>,
    ) -> Done<Pass<T>, PoolPass<L>> {
        work_job::<R, T, M, D, F, X, L, C, G>(rt, self, hall, pool, full, job)
    }
}
