// Three failed copies of two files.
ghost use Rattle.std.specs.Prelude.{◌≡◌, ◌<◌, ◌≤◌, [], IfSome};

use cta_model::Job;
use failed_copies::FailedCopies;
use std::alloc::Global;
use std::process::Abort;
use std::test::Fail;

// The copy of a job.
fn job(birth: u32, file: u32, copy: u8) -> Job
    ensures { result ≡ record { birth = birth; file = file; copy = copy } }
{
    Job { birth, file, copy }
}

// Two copies of the file 7 and one of the file 3.
fn filled(alloc: Global) -> Option<FailedCopies> {
    let mut copies = FailedCopies::new(alloc).ok()?;
    copies.reserve(3).ok()?;
    add_all(&mut copies);
    Some(copies)
}

// Adds them out of their order.
fn add_all(copies: &mut FailedCopies)
    requires room { 3 ≤ copies.old.room }
    requires empty { copies.old.value ≡ [] }
{
    copies.add(job(9, 7, 2));
    copies.add(job(4, 7, 1));
    copies.add(job(8, 3, 1));
}

// The first copy, and those that come after a job of each of the three.
fn walk(copies: &FailedCopies) -> [Option<Job>; 4] {
    [
        copies.first(),
        copies.after(job(5, 3, 1)),
        copies.after(job(0, 7, 1)),
        copies.after(job(0, 7, 2)),
    ]
}

// Copies leave, one by one and with their file.
fn play(rt: &impl Abort, copies: &mut FailedCopies) {
    let [of_three, first, second] = [job(0, 3, 1), job(0, 7, 1), job(0, 7, 2)];
    let want = [Some(of_three), Some(first), Some(second), None];
    assert_eq!(rt; walk(copies), want);
    let taken = [copies.take(job(1, 3, 1)), copies.take(job(1, 3, 1))];
    assert_eq!(rt; taken, [true, false]);
    let left = copies.first();
    copies.take_file(7);
    assert_eq!(rt; [left, copies.first()], [Some(first), None]);
}

#[test]
fn copies_stand_in_order(rt: HostRuntime) -> Result<(), Fail> {
    let mut copies = filled(rt.alloc()).ok_or("no memory")?;
    play(&rt, &mut copies);
    Ok(())
}
