// The posts of a server's workers, and their jobs.
ghost use Rattle.std.specs.Prelude.{◌≡◌, ◌+◌, ◌<◌, ◌≤◌, All, IfOk, [], false, length};
ghost use Rattle.crossbeam_queue.specs.Passes.{view as pool_view};
ghost use Rattle.turn_hall.specs.Handles.{IsPassOf, view};
ghost use Rattle.server_crew.specs.Jobs.{IsJob, IsNewPass, IsPost, IsTask};
ghost use Rattle.server_crew.specs.Musters.{IsMuster};

use crate::post::{Job, Post, Task};
use cta_site::NoMemory;
use link_pool::{Pool, PoolPass};
use media::TapeDrive;
use turn_hall::{Hall, Keeps, Pass};

/// What the posts of workers are made of: passes with one seat each, and the doors of both pools, behind so many posts.
#[derive(Drop)]
pub(crate) struct Muster<P, Q> {
    pub(crate) passes: Vec<P>,
    pub(crate) door: Q,
    pub(crate) full_door: Q,
    pub(crate) posts: u32,
}

// Cuts a pass into passes with one seat each.
pub(crate) fn deal<T: Keeps>(
    hall: &Hall<T>,
    pass: Pass<T>,
    passes: &mut Vec<Pass<T>>,
) -> Result<(), NoMemory>
    requires here { IsPassOf T.site hall.now pass }
    requires new { (view pass).mine ≡ [] }
    requires passes { All (IsNewPass T.site hall.now) passes.old.items }
    ensures passes { IfOk result (λ _. All (IsNewPass T.site hall.now) passes.new.items) }
    ensures count { IfOk result (λ _. length passes.new.items ≡ length passes.old.items + pass.seats) }
{
    let mut pass = pass;
    match hall.split(&mut pass) {
        Some(other) => {
            deal(hall, pass, passes)?;
            deal(hall, other, passes)
        }
        None => {
            passes.push(pass)?;
            Ok(())
        }
    }
}

// One more post. The workers are numbered in the order of their posts, from 0.
fn post<T: Keeps, L>(
    hall: &Hall<T>,
    pool: &Pool<L>,
    full: &Pool<L>,
    muster: &mut Muster<Pass<T>, PoolPass<L>>,
) -> Post<Pass<T>, PoolPass<L>>
    requires muster { IsMuster T.site hall.now pool.now.queue full.now.queue muster.old }
    requires most { muster.old.posts < 1000 }
    requires some { 0 < length muster.old.passes.items }
    ensures post { IsPost T.site hall.now pool.now.queue full.now.queue result }
    ensures calls { (view result.pass).mine ≡ [] }
    ensures links { (pool_view result.seat).got ≡ [] }
    ensures worker { result.worker ≡ muster.old.posts }
    ensures muster { IsMuster T.site hall.now pool.now.queue full.now.queue muster.new }
    ensures count { (muster.new.posts ≡ muster.old.posts + 1) × (length muster.new.passes.items + 1 ≡ length muster.old.passes.items) }
{
    let _hall = hall;
    let worker = muster.posts;
    let Some(pass) = muster.passes.pop() else {
        unreachable!()
    };
    let seat = pool.split(&mut muster.door);
    let full_seat = full.split(&mut muster.full_door);
    muster.posts += 1;
    Post {
        worker,
        pass,
        seat,
        full_seat,
    }
}

// The task of the drive of this number, of so many.
fn drive_task<D: TapeDrive>(count: usize, number: u32, drive: D) -> Task<D>
    requires number { number < count }
    requires drive { (D.seen drive).loaded ≡ false }
    ensures { IsTask D.seen count result }
{
    let _count = count;
    Task::Drive { number, drive }
}

// A job for each drive, in order of their numbers.
fn muster_drives<T: Keeps, L, D: TapeDrive + Drop>(
    hall: &Hall<T>,
    pool: &Pool<L>,
    full: &Pool<L>,
    muster: &mut Muster<Pass<T>, PoolPass<L>>,
    drives: Vec<D>,
    jobs: &mut Vec<Job<Pass<T>, PoolPass<L>, D>>,
) -> Result<(), NoMemory>
    requires muster { IsMuster T.site hall.now pool.now.queue full.now.queue muster.old }
    requires first { muster.old.posts ≡ 0 }
    requires most { length drives.items ≤ 64 }
    requires passes { length drives.items ≤ length muster.old.passes.items }
    requires drives { All (λ d. (D.seen d).loaded ≡ false) drives.items }
    requires jobs { jobs.old.items ≡ [] }
    ensures muster { IfOk result (λ _. IsMuster T.site hall.now pool.now.queue full.now.queue muster.new) }
    ensures count { IfOk result (λ _. (muster.new.posts ≡ length drives.items) × (length muster.new.passes.items + length drives.items ≡ length muster.old.passes.items)) }
    ensures jobs { IfOk result (λ _. All (IsJob T.site hall.now pool.now.queue full.now.queue D.seen (length drives.items)) jobs.new.items) }
    ensures len { IfOk result (λ _. length jobs.new.items ≡ length drives.items) }
{
    let count = drives.len();
    for drive in drives {
        let task = drive_task(count, muster.posts, drive);
        let post = post(hall, pool, full, muster);
        jobs.push(Job { post, task })?;
    }
    Ok(())
}

// A job for each worker of links.
fn muster_links<T: Keeps, L, D: TapeDrive + Drop>(
    hall: &Hall<T>,
    pool: &Pool<L>,
    full: &Pool<L>,
    muster: &mut Muster<Pass<T>, PoolPass<L>>,
    workers: u32,
    jobs: &mut Vec<Job<Pass<T>, PoolPass<L>, D>>,
) -> Result<(), NoMemory>
    requires muster { IsMuster T.site hall.now pool.now.queue full.now.queue muster.old }
    requires most { (muster.old.posts ≤ 64) × (workers ≤ 64) }
    requires passes { workers ≤ length muster.old.passes.items }
    requires jobs { All (IsJob T.site hall.now pool.now.queue full.now.queue D.seen muster.old.posts) jobs.old.items }
    ensures muster { IfOk result (λ _. IsMuster T.site hall.now pool.now.queue full.now.queue muster.new) }
    ensures count { IfOk result (λ _. (muster.new.posts ≡ muster.old.posts + workers) × (length muster.new.passes.items + workers ≡ length muster.old.passes.items)) }
    ensures jobs { IfOk result (λ _. All (IsJob T.site hall.now pool.now.queue full.now.queue D.seen muster.old.posts) jobs.new.items) }
    ensures len { IfOk result (λ _. length jobs.new.items ≡ length jobs.old.items + workers) }
{
    for _worker in 0..workers {
        let post = post(hall, pool, full, muster);
        jobs.push(Job {
            post,
            task: Task::Links,
        })?;
    }
    Ok(())
}

// The jobs of all workers: one for each drive, so many for links, and one for links that find no room.
pub(crate) fn jobs_of<T: Keeps, L, D: TapeDrive + Drop>(
    hall: &Hall<T>,
    pool: &Pool<L>,
    full: &Pool<L>,
    muster: &mut Muster<Pass<T>, PoolPass<L>>,
    drives: Vec<D>,
    workers: u32,
    jobs: &mut Vec<Job<Pass<T>, PoolPass<L>, D>>,
) -> Result<(), NoMemory>
    requires muster { IsMuster T.site hall.now pool.now.queue full.now.queue muster.old }
    requires first { muster.old.posts ≡ 0 }
    requires most { (length drives.items ≤ 64) × (workers ≤ 64) }
    requires passes { length drives.items + workers + 1 ≤ length muster.old.passes.items }
    requires drives { All (λ d. (D.seen d).loaded ≡ false) drives.items }
    requires jobs { jobs.old.items ≡ [] }
    ensures muster { IfOk result (λ _. IsMuster T.site hall.now pool.now.queue full.now.queue muster.new) }
    ensures count { IfOk result (λ _. (muster.new.posts ≡ length drives.items + workers + 1) × (length muster.new.passes.items + muster.new.posts ≡ length muster.old.passes.items)) }
    ensures jobs { IfOk result (λ _. All (IsJob T.site hall.now pool.now.queue full.now.queue D.seen (length drives.items)) jobs.new.items) }
    ensures len { IfOk result (λ _. length jobs.new.items ≡ muster.new.posts) }
{
    muster_drives::<T, L, D>(hall, pool, full, muster, drives, jobs)?;
    muster_links::<T, L, D>(hall, pool, full, muster, workers, jobs)?;
    let post = post(hall, pool, full, muster);
    jobs.push(Job {
        post,
        task: Task::Busy,
    })?;
    Ok(())
}
