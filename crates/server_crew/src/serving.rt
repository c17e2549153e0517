// A server at one hall, from its first link to its last.
ghost use Rattle.std.specs.Prelude.{◌≡◌, ◌+◌, ◌≤◌, All, IfOk, List, OnErr, Some, [], false, length, true, vec_len};
ghost use Rattle.outside.specs.Causes.{Rose};
ghost use Rattle.turn_hall.specs.Handles.{IsPassOf, first_of, view};
ghost use Rattle.link_crew.specs.Accounts.{Accounted};
ghost use Rattle.crossbeam_queue.specs.Passes.{view as pool_view, IsPassOf as IsPoolPassOf};
ghost use Rattle.link_pool.specs.Entries.{links_of};
ghost use Rattle.link_pool.specs.Pooled.{fresh, whole};
ghost use Rattle.link_crew.specs.Seats.{HavePutAll, IsSameDoor};
ghost use Rattle.server_crew.specs.Jobs.{AreApart, IsDone, IsJob, IsNewPass};
ghost use Rattle.server_crew.specs.Musters.{IsMuster};

use crate::crew::Place;
use crate::gathering::gather_crew;
use crate::muster::{Muster, deal, jobs_of};
use crate::post::{Done, Job};
use crate::threads::{Work, run_crew};
use cta_model::Told;
use cta_site::NoMemory;
use drive_turns::DriveFront;
use link_crew::{Callers, no_links_are_asked, refuse_rest, serve_rest};
use link_pool::{Pool, PoolPass};
use media::TapeDrive;
use outside::{Clock, Failed, Gate, Link, Listener};
use std::alloc::{AllocError, Global};
use std::sync::Wait;
use std::thread::Threads;
use turn_hall::{Hall, Keeps, Pass};

// How many links each pool holds.
const ROOM: u32 = 64;

/// How a server came to its end.
#[derive(Drop)]
pub struct Served<P> {
    /// A pass with all seats that went into the server.
    pub pass: P,
    /// How many links were left unserved: served neither to an end nor to a fault of their own, since memory ran out or a call said so.
    pub unserved: u64,
    /// Whether the listener ended, or failed.
    pub accepted: Result<(), Failed>,
}

// What the posts of all workers are made of, and one pass more, out of a pass with as many seats.
fn muster_of<T: Keeps, L>(
    alloc: Global,
    hall: &Hall<T>,
    pool: &Pool<L>,
    full: &Pool<L>,
    pass: Pass<T>,
    door: PoolPass<L>,
    full_door: PoolPass<L>,
) -> Result<(Pass<T>, Muster<Pass<T>, PoolPass<L>>), NoMemory>
    requires here { IsPassOf T.site hall.now pass }
    requires new { ((view pass).mine ≡ []) × (1 ≤ pass.seats) }
    requires door { IsPoolPassOf pool.now.queue door × (pool_view door ≡ fresh) }
    requires full { IsPoolPassOf full.now.queue full_door × (pool_view full_door ≡ fresh) }
    ensures own { IfOk result (λ r. IsNewPass T.site hall.now r.0) }
    ensures muster { IfOk result (λ r. IsMuster T.site hall.now pool.now.queue full.now.queue r.1 × (r.1.posts ≡ 0)) }
    ensures count { IfOk result (λ r. length r.1.passes.items + 1 ≡ pass.seats) }
{
    let _pool = pool;
    let _full = full;
    let mut passes = Vec::new(alloc);
    deal(hall, pass, &mut passes)?;
    let Some(own) = passes.pop() else {
        unreachable!()
    };
    let muster = Muster {
        passes,
        door,
        full_door,
        posts: 0,
    };
    Ok((own, muster))
}

// Runs workers of any posts. That a job may cross threads is found where what it holds is a type parameter.
fn run_posts<
    R: Threads + Wait + Sync,
    H: Sync,
    O: Sync,
    P: Send + Drop,
    Q: Send + Drop,
    D: Send + Drop,
    W: Work<H, O, Job<P, Q, D>, Done<P, Q>> + Sync,
    K: Link + Send + Drop,
    L: Listener<L = K> + Send,
>(
    rt: &R,
    work: &W,
    hall: &H,
    seats: &O,
    full_seats: &O,
    jobs: Vec<Job<P, Q, D>>,
    pool: &Pool<K>,
    door: &mut PoolPass<K>,
    full: &Pool<K>,
    full_door: &mut PoolPass<K>,
    listener: &mut L,
) -> (Result<(), Failed>, Result<Vec<Done<P, Q>>, AllocError>)
    requires jobs { All (W.is_job work.now hall.now seats.now full_seats.now) jobs.items }
    requires door { IsPoolPassOf pool.now.queue door.old × ((pool_view door.old).door ≡ true) }
    requires full { IsPoolPassOf full.now.queue full_door.old × ((pool_view full_door.old).door ≡ true) }
    ensures count { IfOk result.1 (λ v. vec_len v ≡ vec_len jobs) }
    ensures done { IfOk result.1 (λ v. All (W.is_done work.now hall.now seats.now full_seats.now) v.items) }
    ensures door { IsPoolPassOf pool.now.queue door.new × IsSameDoor (pool_view door.old) (pool_view door.new) }
    ensures full { IsPoolPassOf full.now.queue full_door.new × IsSameDoor (pool_view full_door.old) (pool_view full_door.new) }
    ensures ended { IfOk result.0 (λ _. L.ended listener.new ≡ true) }
    ensures cause { OnErr result.0 (Rose (L.faults listener.old) (L.faults listener.new)) }
    ensures put { (links : List K) → L.left listener.old ≡ Some links → IfOk result.0 (λ _. HavePutAll pool.now.queue.cap links (pool_view door.old) (pool_view door.new)) }
{
    run_crew(
        rt, work, hall, seats, full_seats, jobs, pool, door, full, full_door, listener,
    )
}

// Runs workers whose posts have passes of one hall and seats at pools of one kind of link.
fn run_passes<
    R: Threads + Wait + Sync,
    T: Keeps + Send,
    D: Send + Drop,
    W: Work<Hall<T>, Pool<K>, Job<Pass<T>, PoolPass<K>, D>, Done<Pass<T>, PoolPass<K>>> + Sync,
    K: Link + Send + Drop,
    L: Listener<L = K> + Send,
>(
    rt: &R,
    work: &W,
    hall: &Hall<T>,
    jobs: Vec<Job<Pass<T>, PoolPass<K>, D>>,
    pool: &Pool<K>,
    door: &mut PoolPass<K>,
    full: &Pool<K>,
    full_door: &mut PoolPass<K>,
    listener: &mut L,
) -> (
    Result<(), Failed>,
    Result<Vec<Done<Pass<T>, PoolPass<K>>>, AllocError>,
)
    requires jobs { All (W.is_job work.now hall.now pool.now full.now) jobs.items }
    requires door { IsPoolPassOf pool.now.queue door.old × ((pool_view door.old).door ≡ true) }
    requires full { IsPoolPassOf full.now.queue full_door.old × ((pool_view full_door.old).door ≡ true) }
    ensures count { IfOk result.1 (λ v. vec_len v ≡ vec_len jobs) }
    ensures done { IfOk result.1 (λ v. All (W.is_done work.now hall.now pool.now full.now) v.items) }
    ensures door { IsPoolPassOf pool.now.queue door.new × IsSameDoor (pool_view door.old) (pool_view door.new) }
    ensures full { IsPoolPassOf full.now.queue full_door.new × IsSameDoor (pool_view full_door.old) (pool_view full_door.new) }
    ensures ended { IfOk result.0 (λ _. L.ended listener.new ≡ true) }
    ensures cause { OnErr result.0 (Rose (L.faults listener.old) (L.faults listener.new)) }
    ensures put { (links : List K) → L.left listener.old ≡ Some links → IfOk result.0 (λ _. HavePutAll pool.now.queue.cap links (pool_view door.old) (pool_view door.new)) }
{
    run_posts(
        rt, work, hall, pool, full, jobs, pool, door, full, full_door, listener,
    )
}

// Runs workers of a server.
fn run_place<
    R: Threads + Wait + Sync,
    T: Keeps + Send,
    M: Told + Send + Drop,
    D: TapeDrive<Medium = M> + Send + Drop,
    F: Callers<T> + Sync,
    X: DriveFront<T, M> + Sync,
    K: Link + Send + Drop,
    L: Listener<L = K> + Send,
    C: Clock + Copy + Send + Sync + Drop,
    G: Gate + Sync,
>(
    rt: &R,
    at: &Place<'_, F, X, C, G>,
    hall: &Hall<T>,
    pool: &Pool<K>,
    full: &Pool<K>,
    jobs: Vec<Job<Pass<T>, PoolPass<K>, D>>,
    door: &mut PoolPass<K>,
    full_door: &mut PoolPass<K>,
    listener: &mut L,
) -> (
    Result<(), Failed>,
    Result<Vec<Done<Pass<T>, PoolPass<K>>>, AllocError>,
)
    requires site { F.site at.now.front.now ≡ T.site (first_of hall.now) }
    requires apart { AreApart F.question F.is_callers X.asking }
    requires jobs { All (IsJob T.site hall.now pool.now.queue full.now.queue D.seen (length (X.site (T.site (first_of hall.now))).drives.items)) jobs.items }
    requires door { IsPoolPassOf pool.now.queue door.old × ((pool_view door.old).door ≡ true) }
    requires full { IsPoolPassOf full.now.queue full_door.old × ((pool_view full_door.old).door ≡ true) }
    ensures count { IfOk result.1 (λ v. vec_len v ≡ vec_len jobs) }
    ensures done { IfOk result.1 (λ v. All (IsDone T.site hall.entry.now pool.entry.now.queue full.entry.now.queue F.question F.is_callers K.left K.firm at.entry.now.file_limit (F.needs (T.site (first_of hall.entry.now)))) v.items) }
    ensures door { IsPoolPassOf pool.entry.now.queue door.new × IsSameDoor (pool_view door.old) (pool_view door.new) }
    ensures full { IsPoolPassOf full.entry.now.queue full_door.new × IsSameDoor (pool_view full_door.old) (pool_view full_door.new) }
    ensures ended { IfOk result.0 (λ _. L.ended listener.new ≡ true) }
    ensures cause { OnErr result.0 (Rose (L.faults listener.old) (L.faults listener.new)) }
    ensures put { (links : List K) → L.left listener.old ≡ Some links → IfOk result.0 (λ _. HavePutAll pool.entry.now.queue.cap links (pool_view door.old) (pool_view door.new)) }
{
    run_passes(rt, at, hall, jobs, pool, door, full, full_door, listener)
}

// Runs all workers and accepts links beside them, and puts together what they give back: how many links they left unserved, and how
// accepting ended.
fn run_workers<
    R: Threads + Wait + Sync,
    T: Keeps + Send,
    M: Told + Send + Drop,
    D: TapeDrive<Medium = M> + Send + Drop,
    F: Callers<T> + Sync,
    X: DriveFront<T, M> + Sync,
    K: Link + Send + Drop,
    L: Listener<L = K> + Send,
    C: Clock + Copy + Send + Sync + Drop,
    G: Gate + Sync,
>(
    rt: &R,
    at: &Place<'_, F, X, C, G>,
    hall: &Hall<T>,
    pool: &Pool<K>,
    full: &Pool<K>,
    pass: &mut Pass<T>,
    muster: &mut Muster<Pass<T>, PoolPass<K>>,
    drives: Vec<D>,
    workers: u32,
    listener: &mut L,
) -> Result<(u64, Result<(), Failed>), NoMemory>
    requires site { F.site at.now.front.now ≡ T.site (first_of hall.now) }
    requires apart { AreApart F.question F.is_callers X.asking }
    requires own { IsNewPass T.site hall.now pass.old }
    requires muster { IsMuster T.site hall.now pool.now.queue full.now.queue muster.old × (muster.old.posts ≡ 0) }
    requires workers { (workers ≤ 64) × (length drives.items + workers + 1 ≡ length muster.old.passes.items) }
    requires drives { (length drives.items ≤ 64) × (length drives.items ≡ length (X.site (T.site (first_of hall.now))).drives.items) × All (λ d. (D.seen d).loaded ≡ false) drives.items }
    ensures own { IfOk result (λ r. IsPassOf T.site hall.entry.now pass.new × (pass.new.seats ≡ length drives.items + workers + 2)) }
    ensures door { IfOk result (λ r. IsPoolPassOf pool.entry.now.queue muster.new.door × ((pool_view muster.new.door).parts ≡ whole)) }
    ensures full { IfOk result (λ r. IsPoolPassOf full.entry.now.queue muster.new.full_door × ((pool_view muster.new.full_door).parts ≡ whole)) }
    ensures accounted { IfOk result (λ r. Accounted F.question F.is_callers K.left K.firm at.entry.now.file_limit (F.needs (T.site (first_of hall.entry.now))) (view pass.new).mine (links_of (pool_view muster.new.door).got) r.0) }
    ensures put { (links : List K) → L.left listener.old ≡ Some links → length links ≤ pool.entry.now.queue.cap → IfOk result (λ r. IfOk r.1 (λ _. links_of (pool_view muster.new.door).put ≡ links)) }
    ensures ended { IfOk result (λ r. IfOk r.1 (λ _. L.ended listener.new ≡ true)) }
    ensures cause { IfOk result (λ r. OnErr r.1 (Rose (L.faults listener.old) (L.faults listener.new))) }
{
    no_links_are_asked::<T, F, K>();
    let mut jobs = Vec::new(at.alloc);
    jobs_of::<T, K, D>(hall, pool, full, muster, drives, workers, &mut jobs)?;
    let (accepted, done) = run_place(
        rt,
        at,
        hall,
        pool,
        full,
        jobs,
        &mut muster.door,
        &mut muster.full_door,
        listener,
    );
    let done = done?;
    let unserved = gather_crew::<T, F, K>(
        hall,
        pool,
        full,
        at.file_limit,
        pass,
        &mut muster.door,
        &mut muster.full_door,
        done,
    );
    Ok((unserved, accepted))
}

/// Serves a hall: a worker for each drive and so many for links, each in a thread of its own, one more that tells links for which there is no
/// room that the server is busy, and this thread, which accepts links. It goes on until the listener ends or fails and the gate has told each
/// worker to stop; then it serves the links that are still waiting.
///
/// The drives of the site come by number, and none is loaded; there are at most 64, and at most 64 workers. The pass that goes in has made
/// no call, and has a seat for each worker, for the thread that tells that the server is busy, and for this one. A link that finds 64 links
/// waiting gets 503 with `busy`, and is let go without it where 64 wait for that.
///
/// Where the listener told its links, and these are at most 64, the pass that comes out accounts for all of them (`Accounted`): what callers
/// asked is what is asked on these links, each as often. It is promised where the listener ended; `unserved` is 0 only where each link was
/// served to an end or to a fault of its own. After NoMemory the passes are lost, and the hall can be let go but not closed. It waits for
/// links, at the gate and at the hall. Whether threads overlap, no clause can say.
pub fn serve_hall<
    R: Threads + Wait + Sync,
    T: Keeps + Send,
    M: Told + Send + Drop,
    D: TapeDrive<Medium = M> + Send + Drop,
    F: Callers<T> + Sync,
    X: DriveFront<T, M> + Sync,
    K: Link + Send + Drop,
    L: Listener<L = K> + Send,
    C: Clock + Copy + Send + Sync + Drop,
    G: Gate + Sync,
>(
    rt: &R,
    alloc: Global,
    hall: &Hall<T>,
    pass: Pass<T>,
    front: &F,
    drive_front: &X,
    file_limit: u64,
    drives: Vec<D>,
    workers: u32,
    listener: &mut L,
    clock: C,
    gate: &G,
) -> Result<Served<Pass<T>>, NoMemory>
    requires here { IsPassOf T.site hall.now pass }
    requires new { (view pass).mine ≡ [] }
    requires site { F.site front.now ≡ T.site (first_of hall.now) }
    requires apart { AreApart F.question F.is_callers X.asking }
    requires workers { (workers ≤ 64) × (pass.seats ≡ length drives.items + workers + 2) }
    requires drives { (length drives.items ≤ 64) × (length drives.items ≡ length (X.site (T.site (first_of hall.now))).drives.items) × All (λ d. (D.seen d).loaded ≡ false) drives.items }
    ensures here { IfOk result (λ s. IsPassOf T.site hall.now s.pass) }
    ensures seats { IfOk result (λ s. s.pass.seats ≡ pass.seats) }
    ensures asked { (links : List K) → L.left listener.old ≡ Some links → length links ≤ 64
        → IfOk result (λ s. IfOk s.accepted (λ _. Accounted F.question F.is_callers K.left K.firm file_limit (F.needs (T.site (first_of hall.now))) (view s.pass).mine links s.unserved)) }
    ensures ended { IfOk result (λ s. IfOk s.accepted (λ _. L.ended listener.new ≡ true)) }
    ensures cause { IfOk result (λ s. OnErr s.accepted (Rose (L.faults listener.old) (L.faults listener.new))) }
{
    let (pool, door) = Pool::new(alloc, ROOM)?;
    let (full, full_door) = Pool::new(alloc, ROOM)?;
    let (mut own, mut muster) = muster_of(alloc, hall, &pool, &full, pass, door, full_door)?;
    let at = Place {
        alloc,
        gate,
        clock,
        front,
        drives: drive_front,
        file_limit,
    };
    let tools = front.tools(alloc)?;
    let run = run_workers::<R, T, M, D, F, X, K, L, C, G>(
        rt,
        &at,
        hall,
        &pool,
        &full,
        &mut own,
        &mut muster,
        drives,
        workers,
        listener,
    );
    let (unserved, accepted) = match run {
        Ok(run) => run,
        Err(error) => {
            F::put_away(tools);
            return Err(error);
        }
    };
    let mut clock = clock;
    let left = serve_rest(
        rt,
        alloc,
        hall,
        &pool,
        front,
        &tools,
        file_limit,
        &mut own,
        &mut muster.door,
        unserved,
        &mut clock,
    );
    refuse_rest(rt, alloc, &full, &mut muster.full_door);
    F::put_away(tools);
    Ok(Served {
        pass: own,
        unserved: left,
        accepted,
    })
}
