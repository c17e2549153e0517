// The gate of the tests.

use outside::Gate;
use std::sync::atomic::{AtomicBool, AtomicU64, Ordering};
use std::thread;

// How often the first worker looks before it goes on.
const TURNS: u64 = 1_000_000;

// A gate at which the first worker that asks is held until one of another number has asked, but not for ever.
#[derive(Drop)]
pub(crate) struct MeetingGate {
    // One more than the number of the first worker, 0 as long as none has asked.
    first: AtomicU64,
    // Whether a worker of another number has asked while the first one was held.
    met: AtomicBool,
    // Whether the first one has waited in vain.
    over: AtomicBool,
}

impl MeetingGate {
    pub(crate) fn new() -> MeetingGate {
        MeetingGate {
            first: AtomicU64::new(0),
            met: AtomicBool::new(false),
            over: AtomicBool::new(false),
        }
    }

    // Whether a second worker has asked while the first one was held.
    pub(crate) fn has_met(&self) -> bool {
        self.met.load(Ordering::SeqCst)
    }

    // Waits for a second worker.
    fn wait(&self) {
        for _ in 0..TURNS {
            if self.has_met() {
                return;
            }
            thread::yield_now();
        }
        self.over.store(true, Ordering::SeqCst);
    }
}

impl Gate for MeetingGate {
    fn pass(&self, worker: u32, _idle: bool) -> bool {
        let name = u64::from(worker) + 1;
        match self
            .first
            .compare_exchange(0, name, Ordering::SeqCst, Ordering::SeqCst)
        {
            Ok(_) => self.wait(),
            Err(first) => {
                if first != name && !self.over.load(Ordering::SeqCst) {
                    self.met.store(true, Ordering::SeqCst);
                }
            }
        }
        // What the gate answers is ignored.
        false
    }
}
