// A gate that lets workers go on for a while.

use outside::Gate;
use std::sync::atomic::{AtomicU64, Ordering};
use std::thread;

// A gate that tells workers to go on so often, and lets others run first where one has nothing to do.
#[derive(Drop)]
pub(crate) struct CountingGate {
    asked: AtomicU64,
    most: u64,
}

impl CountingGate {
    pub(crate) fn new(most: u64) -> CountingGate {
        CountingGate {
            asked: AtomicU64::new(0),
            most,
        }
    }
}

impl Gate for CountingGate {
    fn pass(&self, _worker: u32, idle: bool) -> bool {
        if idle {
            thread::yield_now();
        }
        self.asked.fetch_add(1, Ordering::SeqCst) < self.most
    }
}
