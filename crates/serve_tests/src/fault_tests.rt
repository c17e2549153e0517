// A listener that fails.

use crate::gate_tests::two_links;
use crate::gates::{CountingGate, LastingGate};
use crate::links::{ToldListener, no_calls};
use crate::site::served;
use archive_opening::Status;
use std::alloc::{AllocError, Global};
use std::hash::RandomState;
use std::sync::Arc;
use std::sync::atomic::{AtomicU64, Ordering};
use std::test::Fail;
use std::thread;
use told_links::{Counts, Tally};

// How often the gate lets workers go on behind the fault.
const MORE: u64 = 100;

// The number of the one call that fails.
fn only(alloc: Global, call: u64) -> Result<Vec<u64>, AllocError> {
    let mut failing = Vec::new(alloc);
    failing.push(call)?;
    Ok(failing)
}

#[test]
fn listener_fails_at_once(rt: HostRuntime) -> Result<(), Fail> {
    let alloc = rt.alloc();
    let keys = RandomState::new(&rt)?;
    let tally = Tally::new();
    let asked = no_calls(alloc)?;
    let gate = CountingGate {
        asked: AtomicU64::new(0),
        most: 100,
    };
    let mut listener = ToldListener::new(Vec::new(alloc), only(alloc, 1)?, Arc::clone(&asked)?);
    let ended = served(&rt, alloc, keys, &mut listener, &gate)?;
    assert_eq!(rt; ended, (Status::ListenFault, None));
    assert_eq!(rt; asked.load(Ordering::SeqCst), 1);
    // Each of the four workers was told to stop.
    assert_eq!(rt; gate.asked.load(Ordering::SeqCst), 104);
    assert_eq!(rt; tally.counts(), Counts::all_right(0));
    Ok(())
}

// The third call fails, behind two links, which are served. Each of the four workers goes on until the gate tells it to stop, and then nobody
// asks the gate any more.
#[test]
fn workers_go_on_behind_a_fault(rt: HostRuntime) -> Result<(), Fail> {
    let alloc = rt.alloc();
    let keys = RandomState::new(&rt)?;
    let tally = Tally::new();
    let listened = no_calls(alloc)?;
    let gate = LastingGate::new(Arc::clone(&listened)?, 3, MORE);
    let mut listener = ToldListener::new(two_links(alloc, &tally)?, only(alloc, 3)?, listened);
    let ended = served(&rt, alloc, keys, &mut listener, &gate)?;
    let (asked, since) = gate.counts();
    assert_eq!(rt; ended, (Status::ListenFault, None));
    assert_eq!(rt; since, MORE + 4);
    assert_eq!(rt; gate.workers(), 0b1111);
    assert_eq!(rt; tally.counts(), Counts::all_right(2));
    for _ in 0..1000 {
        thread::yield_now();
    }
    assert_eq!(rt; gate.counts().0, asked);
    Ok(())
}
