// Runs of a mill.

use crate::gate::MeetingGate;
use crate::running::run;
use mill::Status;
use outside::OpenGate;
use std::alloc::{AllocError, Global};
use std::hash::RandomState;
use std::test::Fail;

const LINES: &[u8] = b"files 1\nbytes 1404\narchived 2\nrecalled 1\nsum 180622\n";

// The worker that asks first is held until another asks, so a run on one thread would not let it go in time.
#[test]
fn workers_run_at_once(rt: HostRuntime) -> Result<(), Fail> {
    let alloc = rt.alloc();
    let keys = RandomState::new(&rt)?;
    let gate = MeetingGate::new();
    let ran = run(
        &rt,
        alloc,
        keys,
        &["mill", "1", "20", "2"],
        Vec::new(alloc),
        &gate,
    )?;
    assert!(rt; gate.has_met());
    assert_eq!(rt; ran.status, Status::Ok);
    assert!(rt; ran.entries.is_some());
    Ok(())
}

// Where nothing fails, the five lines are written, and an archive comes back.
#[test]
fn lines_are_written(rt: HostRuntime) -> Result<(), Fail> {
    let alloc = rt.alloc();
    let keys = RandomState::new(&rt)?;
    let ran = run(
        &rt,
        alloc,
        keys,
        &["mill", "0", "1", "2"],
        Vec::new(alloc),
        &OpenGate,
    )?;
    assert_eq!(rt; ran.status, Status::Ok);
    assert!(rt; ran.entries.is_some());
    assert!(rt; ran.out.bytes() == LINES);
    Ok(())
}

fn first_call(alloc: Global) -> Result<Vec<u64>, AllocError> {
    let mut failing = Vec::new(alloc);
    failing.push(1)?;
    Ok(failing)
}

// A sink that fails is told, and no archive comes back.
#[test]
fn write_fault_is_told(rt: HostRuntime) -> Result<(), Fail> {
    let alloc = rt.alloc();
    let keys = RandomState::new(&rt)?;
    let ran = run(
        &rt,
        alloc,
        keys,
        &["mill", "0", "1", "1"],
        first_call(alloc)?,
        &OpenGate,
    )?;
    assert_eq!(rt; ran.status, Status::WriteFault);
    assert_eq!(rt; ran.entries, None);
    Ok(())
}

// Words of another form are told before anything runs.
#[test]
fn other_words_are_refused(rt: HostRuntime) -> Result<(), Fail> {
    let alloc = rt.alloc();
    let keys = RandomState::new(&rt)?;
    let ran = run(
        &rt,
        alloc,
        keys,
        &["mill", "0", "0", "1"],
        Vec::new(alloc),
        &OpenGate,
    )?;
    assert_eq!(rt; ran.status, Status::Usage);
    assert_eq!(rt; ran.entries, None);
    assert!(rt; ran.out.bytes().is_empty());
    Ok(())
}
