// The phases of one caller: what it asks of all files, and the rounds in which drives step until it is told what it wants.
ghost use Rattle.std.specs.Prelude.{◌≡◌, ◌≤◌, IfOk, length};
ghost use Rattle.cta_model.specs.Legal.{greatest_moment};
ghost use Rattle.turn_hall.specs.Handles.{IsPassOf, first_of};
ghost use Rattle.mill_crew.specs.Contents.{file_sums};
ghost use Rattle.mill_crew.specs.Posts.{AreDrives};

use crate::calls::{Heard, MillCall, MillFront};
use crate::lists::{file_paths, wanted_files};
use crate::phases::store_phase;
use crate::puts::put_blob;
use crate::storing::Storing;
use blob::{Blob, Sum256};
use cta_model::{Answer, Told};
use cta_site::NoMemory;
use drive_turns::DriveFront;
use load_mill::big_path;
use media::TapeDrive;
use mill_history::{tells_completed, tells_kept};
use outside::Gate;
use std::alloc::Global;
use std::sync::{Arc, Wait};
use std::thread::Threads;
use turn_hall::{Hall, Keeps, Pass};

// How often drives may stop with something left to do. Over drives without a fault one round is enough.
const ROUNDS: u32 = 100;

// The size of the file that fills the buffer, in bytes.
const BUFFER: usize = 67108864;

// One call of the caller, and what it hears.
fn called<R: Wait, T: Keeps, F: MillFront<T>>(
    rt: &R,
    hall: &Hall<T>,
    front: &F,
    pass: &mut Pass<T>,
    at: u64,
    call: MillCall,
) -> Heard
    requires here { IsPassOf T.site hall.now pass.old }
    requires at { at ≤ greatest_moment }
    ensures { IsPassOf T.site hall.now pass.new }
{
    let call = front.call(at, call);
    front.hear(hall.turn(rt, pass, call))
}

// Whether each file is on disk and on tape.
fn are_kept<R: Wait, T: Keeps, F: MillFront<T>>(
    rt: &R,
    alloc: Global,
    hall: &Hall<T>,
    front: &F,
    pass: &mut Pass<T>,
    at: u64,
    files: u32,
) -> Result<bool, NoMemory>
    requires here { IsPassOf T.site hall.now pass.old }
    requires at { at ≤ greatest_moment }
    ensures { IsPassOf T.site hall.now pass.new }
{
    let paths = file_paths(alloc, files)?;
    match called(rt, hall, front, pass, at, MillCall::Places { paths }) {
        Heard::Answer(answer) => Ok(tells_kept(&answer, files)),
        _ => Err(NoMemory),
    }
}

// Whether each file of the request is completed.
fn are_completed<R: Wait, T: Keeps, F: MillFront<T>>(
    rt: &R,
    hall: &Hall<T>,
    front: &F,
    pass: &mut Pass<T>,
    at: u64,
    id: u32,
    files: u32,
) -> Result<bool, NoMemory>
    requires here { IsPassOf T.site hall.now pass.old }
    requires at { at ≤ greatest_moment }
    ensures { IsPassOf T.site hall.now pass.new }
{
    match called(rt, hall, front, pass, at, MillCall::Report { id }) {
        Heard::Answer(answer) => Ok(tells_completed(&answer, files)),
        _ => Err(NoMemory),
    }
}

// The content that fills the buffer.
fn big_blob(alloc: Global) -> Result<Arc<Blob, Global>, NoMemory> {
    let bytes = vec![in alloc; 0u8; BUFFER]?;
    let Ok(blob) = Blob::of(bytes) else {
        return Err(NoMemory);
    };
    Ok(Arc::new(alloc, blob)?)
}

// Puts the file that fills the buffer, for which all others are evicted.
fn put_big<R: Wait, T: Keeps, F: MillFront<T>>(
    rt: &R,
    alloc: Global,
    hall: &Hall<T>,
    front: &F,
    pass: &mut Pass<T>,
    at: u64,
) -> Result<(), NoMemory>
    requires here { IsPassOf T.site hall.now pass.old }
    requires at { at ≤ greatest_moment }
    ensures { IsPassOf T.site hall.now pass.new }
{
    let path = big_path(alloc)?;
    let blob = big_blob(alloc)?;
    if put_blob(rt, hall, front, pass, at, MillCall::Put { path, blob }) {
        Ok(())
    } else {
        Err(NoMemory)
    }
}

// Puts the file that fills the buffer, and deletes it.
pub(crate) fn evict_all<R: Wait, T: Keeps, F: MillFront<T>>(
    rt: &R,
    alloc: Global,
    hall: &Hall<T>,
    front: &F,
    pass: &mut Pass<T>,
    at: u64,
) -> Result<(), NoMemory>
    requires here { IsPassOf T.site hall.now pass.old }
    requires at { at ≤ greatest_moment }
    ensures { IsPassOf T.site hall.now pass.new }
{
    put_big(rt, alloc, hall, front, pass, at)?;
    let path = big_path(alloc)?;
    match called(rt, hall, front, pass, at, MillCall::Delete { path }) {
        Heard::Answer(Answer::Done) => Ok(()),
        _ => Err(NoMemory),
    }
}

// Wants all files on disk, and gives the number of the request.
fn stage_all<R: Wait, T: Keeps, F: MillFront<T>>(
    rt: &R,
    alloc: Global,
    hall: &Hall<T>,
    front: &F,
    pass: &mut Pass<T>,
    at: u64,
    files: u32,
) -> Result<u32, NoMemory>
    requires here { IsPassOf T.site hall.now pass.old }
    requires at { at ≤ greatest_moment }
    ensures { IsPassOf T.site hall.now pass.new }
{
    let files = wanted_files(alloc, files)?;
    match called(rt, hall, front, pass, at, MillCall::Stage { files }) {
        Heard::Answer(Answer::Staged { id }) => Ok(id),
        _ => Err(NoMemory),
    }
}

// Drives step until each file is on disk and on tape. After NoMemory passes and drives may be lost.
pub(crate) fn keep_all<
    R: Threads + Wait + Sync,
    T: Keeps + Send,
    M: Told + Send + Drop,
    D: TapeDrive<Medium = M> + Send + Drop,
    F: MillFront<T> + Sync,
    X: DriveFront<T, M> + Sync,
    G: Gate + Sync,
>(
    rt: &R,
    at: &Storing<'_, F, X, G>,
    hall: &Hall<T>,
    pass: &mut Pass<T>,
    drives: &mut Vec<D>,
    files: u32,
    sums: &mut Vec<Sum256>,
) -> Result<(), NoMemory>
    requires here { IsPassOf T.site hall.now pass.old }
    requires phase { at.now.phase ≤ 9 }
    requires few { files ≤ 10000 }
    requires drives { AreDrives D.seen (length (X.site (T.site (first_of hall.now))).drives.items) drives.old.items }
    requires sums { sums.old.items ≡ file_sums at.now.seed 0 (length sums.old.items) }
    ensures here { IfOk result (λ _. IsPassOf T.site hall.entry.now pass.new) }
    ensures drives { IfOk result (λ _. AreDrives D.seen (length (X.site (T.site (first_of hall.entry.now))).drives.items) drives.new.items) }
    ensures sums { IfOk result (λ _. sums.new.items ≡ file_sums at.entry.now.seed 0 (length sums.new.items)) }
{
    for _round in 0..ROUNDS {
        if are_kept(rt, at.alloc, hall, at.front, pass, at.phase, files)? {
            return Ok(());
        }
        store_phase::<R, T, M, D, F, X, G>(rt, at, hall, pass, drives, files, 0, sums)?;
    }
    Err(NoMemory)
}

// Wants all files on disk, and drives step until each is. After NoMemory passes and drives may be lost.
pub(crate) fn recall_all<
    R: Threads + Wait + Sync,
    T: Keeps + Send,
    M: Told + Send + Drop,
    D: TapeDrive<Medium = M> + Send + Drop,
    F: MillFront<T> + Sync,
    X: DriveFront<T, M> + Sync,
    G: Gate + Sync,
>(
    rt: &R,
    at: &Storing<'_, F, X, G>,
    hall: &Hall<T>,
    pass: &mut Pass<T>,
    drives: &mut Vec<D>,
    files: u32,
    sums: &mut Vec<Sum256>,
) -> Result<(), NoMemory>
    requires here { IsPassOf T.site hall.now pass.old }
    requires phase { at.now.phase ≤ 9 }
    requires few { files ≤ 10000 }
    requires drives { AreDrives D.seen (length (X.site (T.site (first_of hall.now))).drives.items) drives.old.items }
    requires sums { sums.old.items ≡ file_sums at.now.seed 0 (length sums.old.items) }
    ensures here { IfOk result (λ _. IsPassOf T.site hall.entry.now pass.new) }
    ensures drives { IfOk result (λ _. AreDrives D.seen (length (X.site (T.site (first_of hall.entry.now))).drives.items) drives.new.items) }
    ensures sums { IfOk result (λ _. sums.new.items ≡ file_sums at.entry.now.seed 0 (length sums.new.items)) }
{
    let id = stage_all(rt, at.alloc, hall, at.front, pass, at.phase, files)?;
    for _round in 0..ROUNDS {
        if are_completed(rt, hall, at.front, pass, at.phase, id, files)? {
            return Ok(());
        }
        store_phase::<R, T, M, D, F, X, G>(rt, at, hall, pass, drives, files, 0, sums)?;
    }
    Err(NoMemory)
}
