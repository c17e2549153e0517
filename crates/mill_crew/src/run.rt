// The run of a mill at one hall, phase by phase.
ghost use Rattle.std.specs.Prelude.{◌≡◌, ◌≤◌, ◌<◌, IfOk, length};
ghost use Rattle.turn_hall.specs.Handles.{IsPassOf, first_of};
ghost use Rattle.mill_crew.specs.Contents.{AreFetched, file_sums};
ghost use Rattle.mill_crew.specs.Posts.{AreDrives};

use crate::calls::MillFront;
use crate::fetching::Fetching;
use crate::phases::{fetch_phase, store_phase};
use crate::rounds::{evict_all, keep_all, recall_all};
use crate::storing::Storing;
use blob::Sum256;
use cta_model::Told;
use cta_site::NoMemory;
use drive_turns::DriveFront;
use media::TapeDrive;
use outside::Gate;
use std::alloc::Global;
use std::sync::Wait;
use std::sync::atomic::AtomicBool;
use std::thread::Threads;
use turn_hall::{Hall, Keeps, Pass};

/// What a mill does.
#[derive(Clone, Copy, Debug, PartialEq, Eq)]
pub struct Load {
    /// What its files are made from.
    pub seed: u64,
    /// How many files it has, at most 10,000.
    pub files: u32,
    /// How many callers put and fetch them, from 1 to 64.
    pub workers: u32,
}

/// What the callers of a mill know.
#[derive(Drop)]
pub struct Ran {
    /// The sums of the files that they put, in the order of their indices.
    pub sums: Vec<Sum256>,
    /// The total of the bytes of the files that they fetched, modulo 2^64.
    pub total: u64,
}

// The phases in which drives step, and the one between them, which evicts all files. It gives the sums of the files.
fn store_all<
    R: Threads + Wait + Sync,
    T: Keeps + Send,
    M: Told + Send + Drop,
    D: TapeDrive<Medium = M> + Send + Drop,
    F: MillFront<T> + Sync,
    X: DriveFront<T, M> + Sync,
    G: Gate + Sync,
>(
    rt: &R,
    at: &mut Storing<'_, F, X, G>,
    hall: &Hall<T>,
    pass: &mut Pass<T>,
    drives: Vec<D>,
    load: Load,
) -> Result<Vec<Sum256>, NoMemory>
    requires here { IsPassOf T.site hall.now pass.old }
    requires few { (load.files ≤ 10000) × (load.workers ≤ 64) }
    requires drives { AreDrives D.seen (length (X.site (T.site (first_of hall.now))).drives.items) drives.items }
    ensures here { IfOk result (λ _. IsPassOf T.site hall.entry.now pass.new) }
    ensures sums { IfOk result (λ v. v.items ≡ file_sums at.old.seed 0 (length v.items)) }
{
    let Load {
        seed: _,
        files,
        workers,
    } = load;
    let mut drives = drives;
    let mut sums = Vec::new(at.alloc);
    at.phase = 1;
    store_phase::<R, T, M, D, F, X, G>(rt, at, hall, pass, &mut drives, files, workers, &mut sums)?;
    at.phase = 2;
    keep_all::<R, T, M, D, F, X, G>(rt, at, hall, pass, &mut drives, files, &mut sums)?;
    evict_all(rt, at.alloc, hall, at.front, pass, 3)?;
    at.phase = 4;
    recall_all::<R, T, M, D, F, X, G>(rt, at, hall, pass, &mut drives, files, &mut sums)?;
    Ok(sums)
}

/// Runs a mill at a hall, in five phases, each of which ends before the next begins and whose number is its moment. First callers put the files
/// while drives step; then drives step until each file is on disk and on tape; then a file that fills the buffer is put, for which all others
/// are evicted, and deleted; then one Stage wants all files, and drives step until each is; then callers fetch the files. Callers and drives
/// run in threads of their own, with numbers at the gate: drives by their numbers, and then callers. They don't look at what the gate answers.
///
/// It gives the sums of the files, and the total of the bytes of what was fetched, each content with the sum of its file. The pass is then again
/// one that holds all seats which it had, as long as each worker gave its own back; no clause says that it does. NoMemory comes where memory was
/// wanted, and where anything was not as it should be; passes and drives may be lost then. The number of seats of the pass is twice that of
/// workers and drives, or more. It waits at the gate and at the hall. That threads overlap, no clause can say.
pub fn run_phases<
    R: Threads + Wait + Sync,
    T: Keeps + Send,
    M: Told + Send + Drop,
    D: TapeDrive<Medium = M> + Send + Drop,
    F: MillFront<T> + Sync,
    X: DriveFront<T, M> + Sync,
    G: Gate + Sync,
>(
    rt: &R,
    alloc: Global,
    hall: &Hall<T>,
    pass: &mut Pass<T>,
    front: &F,
    drive_front: &X,
    drives: Vec<D>,
    gate: &G,
    load: Load,
) -> Result<Ran, NoMemory>
    requires here { IsPassOf T.site hall.now pass.old }
    requires few { (load.files ≤ 10000) × (load.workers ≤ 64) }
    requires drives { AreDrives D.seen (length (X.site (T.site (first_of hall.now))).drives.items) drives.items }
    ensures here { IfOk result (λ _. IsPassOf T.site hall.now pass.new) }
    ensures sums { IfOk result (λ r. r.sums.items ≡ file_sums load.seed 0 load.files) }
    ensures fetched { IfOk result (λ r. AreFetched (file_sums load.seed 0 load.files) r.total) }
{
    let first = drives.len() as u32;
    let ended = AtomicBool::new(false);
    let mut at = Storing {
        alloc,
        front,
        drives: drive_front,
        gate,
        ended: &ended,
        seed: load.seed,
        phase: 1,
    };
    let sums = store_all::<R, T, M, D, F, X, G>(rt, &mut at, hall, pass, drives, load)?;
    if sums.len() != load.files as usize {
        return Err(NoMemory);
    }
    let fetching = Fetching {
        alloc,
        front,
        gate,
        sums: &sums,
        phase: 5,
    };
    let total = fetch_phase::<R, T, F, G>(
        rt,
        &fetching,
        hall,
        pass,
        load.files,
        load.workers,
        first,
    )?;
    Ok(Ran { sums, total })
}
