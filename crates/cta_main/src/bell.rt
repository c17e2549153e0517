// A bell that wakes workers who wait for a link.
use std::array;
use std::sync::Wait;
use std::sync::atomic::{AtomicU64, Ordering};
use std::time::Duration;

// How long a worker waits for the bell before it looks without one, in seconds.
const REST: u64 = 1;

// The bell is rung once a link waits. So that no ring is missed between a look that found nothing and the wait, each worker waits for a ring
// that came after what it had heard before it looked.
#[derive(Drop)]
pub(crate) struct Bell {
    // How often it was rung.
    rung: AtomicU64,
    // What of that each worker had heard before it last looked, by number.
    heard: [AtomicU64; 64],
}

impl Bell {
    pub(crate) fn new() -> Bell {
        Bell {
            rung: AtomicU64::new(0),
            heard: array::from_fn(|_| AtomicU64::new(0)),
        }
    }

    // Wakes one worker that waits.
    pub(crate) fn ring(&self) {
        self.rung.fetch_add(1, Ordering::SeqCst);
        self.rung.wake_one();
    }

    // Wakes all workers that wait.
    pub(crate) fn ring_for_all(&self) {
        self.rung.fetch_add(1, Ordering::SeqCst);
        self.rung.wake_all();
    }

    // Lets the worker of this number look, an idle one once the bell is rung or its rest is over.
    pub(crate) fn attend<R: Wait>(&self, rt: &R, worker: usize, idle: bool) {
        let Some(heard) = self.heard.get(worker) else {
            return;
        };
        if idle {
            let before = heard.load(Ordering::SeqCst) & 0xffff_ffff;
            self.rung
                .park_timeout(rt, before as u32, Duration::from_secs(REST));
        }
        heard.store(self.rung.load(Ordering::SeqCst), Ordering::SeqCst);
    }
}
