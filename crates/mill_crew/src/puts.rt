// Files that a caller puts.
ghost use Rattle.std.specs.Prelude.{◌≡◌, ◌+◌, ◌-◌, ◌≤◌, ◌++◌, ◌∷◌, [], IfSome};
ghost use Rattle.cta_model.specs.Legal.{greatest_moment};
ghost use Rattle.blob.specs.Sums.{sum_of};
ghost use Rattle.load_mill.specs.Numbers.{bytes_by, length_by, number_behind};
ghost use Rattle.turn_hall.specs.Handles.{IsPassOf};
ghost use Rattle.mill_crew.specs.Contents.{file_sums};

use crate::calls::{Heard, MillCall, MillFront};
use crate::shares::Share;
use blob::{Blob, Sum256};
use cta_model::Answer;
use load_mill::{Numbers, file_path};
use outside::Gate;
use std::alloc::Global;
use std::sync::{Arc, Wait};
use turn_hall::{Hall, Keeps, Pass};

// Puts a content, and says whether it was put.
pub(crate) fn put_blob<R: Wait, T: Keeps, F: MillFront<T>>(
    rt: &R,
    hall: &Hall<T>,
    front: &F,
    pass: &mut Pass<T>,
    at: u64,
    call: MillCall,
) -> bool
    requires here { IsPassOf T.site hall.now pass.old }
    requires at { at ≤ greatest_moment }
    ensures here { IsPassOf T.site hall.now pass.new }
    ensures seats { pass.new.seats ≡ pass.old.seats }
{
    let call = front.call(at, call);
    let heard = front.hear(hall.turn(rt, pass, call));
    matches!(heard, Heard::Answer(Answer::Stored { .. }))
}

// The content of the file of this number.
fn blob_of(alloc: Global, numbers: Numbers) -> Option<Blob>
    ensures { IfSome result (λ blob. blob ≡ bytes_by numbers.x (length_by numbers.x)) }
{
    let bytes = numbers.file_bytes(alloc).ok()?;
    Blob::of(bytes).ok()
}

// Puts one file, and gives its sum; None where it was not put, or memory was wanted.
fn put_file<R: Wait, T: Keeps, F: MillFront<T>>(
    rt: &R,
    alloc: Global,
    hall: &Hall<T>,
    front: &F,
    pass: &mut Pass<T>,
    at: u64,
    numbers: Numbers,
    index: u32,
) -> Option<Sum256>
    requires here { IsPassOf T.site hall.now pass.old }
    requires at { at ≤ greatest_moment }
    ensures here { IsPassOf T.site hall.now pass.new }
    ensures seats { pass.new.seats ≡ pass.old.seats }
    ensures sum { IfSome result (λ s. s ≡ sum_of (bytes_by numbers.x (length_by numbers.x))) }
{
    let path = file_path(alloc, index).ok()?;
    let blob = blob_of(alloc, numbers)?;
    let sum = blob.sum();
    let blob = Arc::new(alloc, blob).ok()?;
    if put_blob(rt, hall, front, pass, at, MillCall::Put { path, blob }) {
        Some(sum)
    } else {
        None
    }
}

// Puts a sum behind others; None where memory was wanted.
fn add_sum(sums: &mut Vec<Sum256>, sum: Sum256) -> Option<()>
    ensures { IfSome result (λ _. sums.new.items ≡ sums.old.items ++ sum ∷ []) }
{
    match sums.push(sum) {
        Ok(()) => Some(()),
        Err(_) => None,
    }
}

// Puts the files of a share, and gives their sums in order; None where one was not put, or memory was wanted.
pub(crate) fn put_share<R: Wait, T: Keeps, F: MillFront<T>, G: Gate>(
    rt: &R,
    alloc: Global,
    hall: &Hall<T>,
    front: &F,
    gate: &G,
    worker: u32,
    pass: &mut Pass<T>,
    at: u64,
    seed: u64,
    share: Share,
) -> Option<Vec<Sum256>>
    requires here { IsPassOf T.site hall.now pass.old }
    requires at { at ≤ greatest_moment }
    ensures here { IsPassOf T.site hall.now pass.new }
    ensures seats { pass.new.seats ≡ pass.old.seats }
    ensures sums { IfSome result (λ v. v.items ≡ file_sums seed share.from (share.to - share.from)) }
{
    if share.from > share.to {
        return None;
    }
    let mut sums = Vec::new(alloc);
    let mut numbers = Numbers::behind(seed, share.from);
    for index in share.from..share.to {
        gate.pass(worker, false);
        numbers.next();
        let sum = put_file(rt, alloc, hall, front, pass, at, numbers, index)?;
        add_sum(&mut sums, sum)?;
    }
    Some(sums)
}
