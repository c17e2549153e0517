// Gates of the tests.

use outside::Gate;
use std::alloc::Global;
use std::sync::Arc;
use std::sync::atomic::{AtomicBool, AtomicU64, Ordering};
use std::thread;

// How often a worker that is held looks before it goes on.
const TURNS: u64 = 1_000_000;

// A gate at which the first worker is held until one of another number has asked, and which lets workers go on so often.
#[derive(Drop)]
pub(crate) struct MeetingGate {
    // One more than the number of the first worker, 0 as long as none has asked.
    first: AtomicU64,
    met: AtomicBool,
    asked: AtomicU64,
    most: u64,
}

impl MeetingGate {
    pub(crate) fn new(most: u64) -> MeetingGate {
        MeetingGate {
            first: AtomicU64::new(0),
            met: AtomicBool::new(false),
            asked: AtomicU64::new(0),
            most,
        }
    }

    // Whether a second worker has asked.
    pub(crate) fn has_met(&self) -> bool {
        self.met.load(Ordering::SeqCst)
    }

    // Waits for a second worker, but not for ever.
    fn wait(&self) {
        for _ in 0..TURNS {
            if self.has_met() {
                return;
            }
            thread::yield_now();
        }
    }
}

impl Gate for MeetingGate {
    fn pass(&self, worker: u32, _idle: bool) -> bool {
        let name = u64::from(worker) + 1;
        let first = match self
            .first
            .compare_exchange(0, name, Ordering::SeqCst, Ordering::SeqCst)
        {
            Ok(_) => name,
            Err(first) => first,
        };
        if first == name {
            self.wait();
        } else {
            self.met.store(true, Ordering::SeqCst);
        }
        self.asked.fetch_add(1, Ordering::SeqCst) < self.most
    }
}

// A gate at which each worker is held until a listener was asked so often, and which then tells it to stop.
#[derive(Drop)]
pub(crate) struct LateGate {
    pub(crate) asked: Arc<AtomicU64, Global>,
    pub(crate) calls: u64,
}

impl Gate for LateGate {
    fn pass(&self, _worker: u32, _idle: bool) -> bool {
        for _ in 0..TURNS {
            if self.asked.load(Ordering::SeqCst) >= self.calls {
                return false;
            }
            thread::yield_now();
        }
        false
    }
}

// A gate that tells each worker to go on so often, and counts how often it was asked.
#[derive(Drop)]
pub(crate) struct CountingGate {
    pub(crate) asked: AtomicU64,
    pub(crate) most: u64,
}

impl Gate for CountingGate {
    fn pass(&self, _worker: u32, _idle: bool) -> bool {
        self.asked.fetch_add(1, Ordering::SeqCst) < self.most
    }
}

// A gate that lets workers go on until a listener was asked so often, and then so many times more. It notes which workers have asked since.
#[derive(Drop)]
pub(crate) struct LastingGate {
    listened: Arc<AtomicU64, Global>,
    calls: u64,
    more: u64,
    asked: AtomicU64,
    since: AtomicU64,
    // The workers, by number, a bit each.
    workers: AtomicU64,
}

impl LastingGate {
    pub(crate) fn new(listened: Arc<AtomicU64, Global>, calls: u64, more: u64) -> LastingGate {
        LastingGate {
            listened,
            calls,
            more,
            asked: AtomicU64::new(0),
            since: AtomicU64::new(0),
            workers: AtomicU64::new(0),
        }
    }

    // How often it was asked, and how often of that since the listener was asked so often.
    pub(crate) fn counts(&self) -> (u64, u64) {
        (
            self.asked.load(Ordering::SeqCst),
            self.since.load(Ordering::SeqCst),
        )
    }

    // Which workers have asked since, a bit each.
    pub(crate) fn workers(&self) -> u64 {
        self.workers.load(Ordering::SeqCst)
    }
}

impl Gate for LastingGate {
    fn pass(&self, worker: u32, _idle: bool) -> bool {
        self.asked.fetch_add(1, Ordering::SeqCst);
        if self.listened.load(Ordering::SeqCst) < self.calls {
            thread::yield_now();
            return true;
        }
        self.workers
            .fetch_or(1u64 << (worker % 64), Ordering::SeqCst);
        self.since.fetch_add(1, Ordering::SeqCst) < self.more
    }
}
