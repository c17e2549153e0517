use cta_model::{Fault, Job};
use cta_site::{NoMemory, Rows};
use job_book::JobBook;
use std::alloc::Global;
use std::process::Abort;
use std::test::Fail;

fn job(birth: u32, copy: u8) -> Job {
    Job {
        birth,
        file: 9,
        copy,
    }
}

// What is told of the file 9 and its first copy.
fn compare(rt: &impl Abort, book: &JobBook, recall: Option<u32>, archive: Option<u32>, waits: u64) {
    assert_eq!(rt;
        [book.live_recall(9), book.archive(9, 1)],
        [recall, archive]
    );
    assert_eq!(rt; book.waiting_count(9), waits);
}

// Charges a job of which a count of charges is known.
fn charge(rt: &impl Abort, book: &mut JobBook, count: u8) {
    let charged = job(3, 0);
    assert!(rt; book.room() > 0 && book.charge_count(charged) == count && count < 9);
    assert_eq!(rt; book.charge(charged, 1, 2, Fault::Read), count + 1);
}

// A job is claimed, and charged twice.
fn claim(rt: &impl Abort, book: &mut JobBook) {
    assert!(rt; book.room() > 0 && !book.named(job(3, 0)));
    assert!(rt; book.is_live(job(3, 0)) && !book.is_live(job(4, 1)));
    book.claim(job(3, 0), 5);
    assert!(rt; book.has_claims(5) && !book.has_claims(6));
    charge(rt, book, 0);
    charge(rt, book, 1);
}

// A job that is claimed and was charged twice is given back.
fn give_back(rt: &impl Abort, book: &mut JobBook) {
    let claimed = book.claimer(job(3, 0));
    assert!(rt; book.charge_at(job(3, 0), 1).is_some() && book.charge_at(job(3, 0), 2).is_none());
    book.give_back(job(3, 0));
    assert_eq!(rt; [claimed, book.claimer(job(3, 0))], [Some(5), None]);
    assert!(rt; book.named(job(3, 0)));
}

// Jobs are born.
fn bear(rt: &impl Abort, book: &mut JobBook) {
    assert!(rt; book.room() > 2);
    book.born(job(2, 1));
    assert!(rt; book.room() > 0);
    book.born(job(3, 0));
    assert!(rt; book.room() > 0);
    book.subscribe(9, 4);
    compare(rt, book, Some(3), Some(2), 2);
    assert_eq!(rt; book.last_birth(9, 1), Some(2));
}

// Those that wait are told.
fn tell(rt: &impl Abort, book: &JobBook, alloc: Global) -> Result<(), NoMemory> {
    let mut out = Rows::of(Vec::new(alloc));
    out.reserve(2)?;
    assert!(rt; book.waiting_count(9) == 2);
    book.waiting(9, &mut out);
    assert_eq!(rt; out.as_slice(), [3, 4].as_slice());
    Ok(())
}

// Those that wait do so no longer.
fn wait(rt: &impl Abort, book: &mut JobBook) {
    assert!(rt; !book.unsubscribe(9, 3));
    compare(rt, book, Some(3), Some(2), 1);
    assert!(rt; book.unsubscribe(9, 4));
    compare(rt, book, None, Some(2), 0);
    book.end(job(2, 1));
    book.end(job(3, 0));
    compare(rt, book, None, None, 0);
}

// Each call once.
fn play(rt: &impl Abort, alloc: Global, book: &mut JobBook) -> Result<(), NoMemory> {
    book.reserve(6)?;
    bear(rt, book);
    claim(rt, book);
    give_back(rt, book);
    tell(rt, book, alloc)?;
    wait(rt, book);
    Ok(())
}

#[test]
fn jobs_live_and_end(rt: HostRuntime) -> Result<(), Fail> {
    let mut book = JobBook::new(rt.alloc());
    play(&rt, rt.alloc(), &mut book)?;
    Ok(())
}
