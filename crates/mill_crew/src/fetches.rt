// Files that a caller fetches.
ghost use Rattle.std.specs.Prelude.{◌≡◌, ◌-◌, ◌≤◌, IfSome, drop, take};
ghost use Rattle.cta_model.specs.Legal.{greatest_moment};
ghost use Rattle.turn_hall.specs.Handles.{IsPassOf};
ghost use Rattle.mill_crew.specs.Contents.{AreFetched, HasTotal};

use crate::calls::{Heard, MillCall, MillFront};
use crate::contents::checked_total;
use crate::shares::Share;
use blob::Sum256;
use load_mill::file_path;
use outside::Gate;
use std::alloc::Global;
use std::sync::Wait;
use turn_hall::{Hall, Keeps, Pass};

// Fetches one file, and gives the total of its bytes; None where it was not fetched, has another sum, or memory was wanted.
fn fetch_file<R: Wait, T: Keeps, F: MillFront<T>>(
    rt: &R,
    alloc: Global,
    hall: &Hall<T>,
    front: &F,
    pass: &mut Pass<T>,
    at: u64,
    index: u32,
    wanted: &Sum256,
) -> Option<u64>
    requires here { IsPassOf T.site hall.now pass.old }
    requires at { at ≤ greatest_moment }
    ensures here { IsPassOf T.site hall.now pass.new }
    ensures seats { pass.new.seats ≡ pass.old.seats }
    ensures total { IfSome result (HasTotal wanted.now) }
{
    let path = file_path(alloc, index).ok()?;
    let call = front.call(at, MillCall::Fetch { path });
    match front.hear(hall.turn(rt, pass, call)) {
        Heard::Content(blob) => checked_total(wanted, &blob),
        _ => None,
    }
}

// Fetches the files of a share, whose sums stand among those of all files, and adds their bytes up modulo 2^64; None where one was not
// fetched or has another sum, or memory was wanted.
pub(crate) fn fetch_share<R: Wait, T: Keeps, F: MillFront<T>, G: Gate>(
    rt: &R,
    alloc: Global,
    hall: &Hall<T>,
    front: &F,
    gate: &G,
    worker: u32,
    pass: &mut Pass<T>,
    at: u64,
    sums: &[Sum256],
    share: Share,
) -> Option<u64>
    requires here { IsPassOf T.site hall.now pass.old }
    requires at { at ≤ greatest_moment }
    ensures here { IsPassOf T.site hall.now pass.new }
    ensures seats { pass.new.seats ≡ pass.old.seats }
    ensures fetched { IfSome result (AreFetched (take (share.to - share.from) (drop share.from sums.now))) }
{
    if share.from > share.to || share.to as usize > sums.len() {
        return None;
    }
    let wanted = &sums[share.from as usize..share.to as usize];
    let mut total: u64 = 0;
    let mut index = share.from;
    for sum in wanted {
        gate.pass(worker, false);
        let bytes = fetch_file(rt, alloc, hall, front, pass, at, index, sum)?;
        total = total.wrapping_add(bytes);
        index = index.wrapping_add(1);
    }
    Some(total)
}
