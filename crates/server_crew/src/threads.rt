// Workers in threads, and the thread that accepts links beside them.
ghost use Rattle.std.specs.Prelude.{◌≡◌, All, IfOk, Some, List, OnErr, true, vec_len};
ghost use Rattle.crossbeam_queue.specs.Passes.{view, IsPassOf};
ghost use Rattle.outside.specs.Causes.{Rose};
ghost use Rattle.link_crew.specs.Seats.{HavePutAll, IsSameDoor};

use crate::beside::beside;
use link_crew::accept_all;
use link_pool::{Pool, PoolPass};
use outside::{Failed, Link, Listener};
use std::alloc::AllocError;
use std::sync::Wait;
use std::thread::Threads;

/// What workers do at a hall and two pools: each has a job, and gives something back at its end. It names neither halls nor pools, so that where
/// threads are started it need not be known what they are.
pub trait Work<H, O, J, Y> {
    // Whether this is a job.
    ghost is_job: { Self → H → O → O → J → Type 0 };

    // What a worker may give back.
    ghost is_done: { Self → H → O → O → Y → Type 0 };

    /// Does one job, whatever others do meanwhile. It may wait.
    fn work<R: Wait>(&self, rt: &R, hall: &H, pool: &O, full: &O, job: J) -> Y
        requires { is_job self.now hall.now pool.now full.now job }
        ensures { is_done self.entry.now hall.entry.now pool.entry.now full.entry.now result };
}

/// Runs workers in threads of their own, each with a job, and accepts links beside them, until the listener ends or fails and each worker has
/// come to its end. It gives how accepting ended, and what the workers give back; where memory runs out for the threads, the jobs are lost.
/// It waits for all of them.
pub fn run_crew<
    R: Threads + Wait + Sync,
    H: Sync,
    O: Sync,
    J: Send + Drop,
    Y: Send + Drop,
    W: Work<H, O, J, Y> + Sync,
    K: Link + Send + Drop,
    L: Listener<L = K> + Send,
>(
    rt: &R,
    work: &W,
    hall: &H,
    seats: &O,
    full_seats: &O,
    jobs: Vec<J>,
    pool: &Pool<K>,
    door: &mut PoolPass<K>,
    full: &Pool<K>,
    full_door: &mut PoolPass<K>,
    listener: &mut L,
) -> (Result<(), Failed>, Result<Vec<Y>, AllocError>)
    requires jobs { All (W.is_job work.now hall.now seats.now full_seats.now) jobs.items }
    requires door { IsPassOf pool.now.queue door.old × ((view door.old).door ≡ true) }
    requires full { IsPassOf full.now.queue full_door.old × ((view full_door.old).door ≡ true) }
    ensures count { IfOk result.1 (λ v. vec_len v ≡ vec_len jobs) }
    ensures done { IfOk result.1 (λ v. All (W.is_done work.now hall.now seats.now full_seats.now) v.items) }
    ensures door { IsPassOf pool.now.queue door.new × IsSameDoor (view door.old) (view door.new) }
    ensures full { IsPassOf full.now.queue full_door.new × IsSameDoor (view full_door.old) (view full_door.new) }
    ensures ended { IfOk result.0 (λ _. L.ended listener.new ≡ true) }
    ensures cause { OnErr result.0 (Rose (L.faults listener.old) (L.faults listener.new)) }
    ensures put { (links : List K) → L.left listener.old ≡ Some links → IfOk result.0 (λ _. HavePutAll pool.now.queue.cap links (view door.old) (view door.new)) }
{
    let (done, accepted) = beside(
        rt,
        jobs,
        &|job| work.work(rt, hall, seats, full_seats, job),
        &mut || -> Result<(), Failed>
            requires { IsPassOf pool.now.queue door.now × ((view door.now).door ≡ true) × IsPassOf full.now.queue full_door.now × ((view full_door.now).door ≡ true) }
            ensures { IsPassOf pool.entry.now.queue door.exit.now × IsSameDoor (view door.entry.now) (view door.exit.now)
                × IsPassOf full.entry.now.queue full_door.exit.now × IsSameDoor (view full_door.entry.now) (view full_door.exit.now)
                × IfOk result (λ _. L.ended listener.exit.now ≡ true) × OnErr result (Rose (L.faults listener.entry.now) (L.faults listener.exit.now))
                × ((links : List K) → L.left listener.entry.now ≡ Some links → IfOk result (λ _. HavePutAll pool.entry.now.queue.cap links (view door.entry.now) (view door.exit.now))) }
        { accept_all(rt, pool, door, full, full_door, listener) },
    );
    (accepted, done)
}
