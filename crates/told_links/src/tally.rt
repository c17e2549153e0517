// What links were sent, counted over all threads.
ghost use Rattle.std.specs.Prelude.{◌≡◌};

use std::sync::atomic::{AtomicU64, Ordering};

/// How many links were closed, and of them: those that were sent exactly what they were to get, those that were told that memory ran out, and
/// those that were sent a front of what they were to get and no more.
#[derive(Clone, Copy, Debug, PartialEq, Eq)]
pub struct Counts {
    pub closed: u64,
    pub right: u64,
    pub without_memory: u64,
    pub cut: u64,
}

impl Counts {
    /// So many links, all of which were sent exactly what they were to get.
    pub fn all_right(links: u64) -> Counts
        ensures { result ≡ record { closed = links; right = links; without_memory = 0; cut = 0 } }
    {
        Counts {
            closed: links,
            right: links,
            without_memory: 0,
            cut: 0,
        }
    }
}

/// Counts links as they are closed, from any thread.
#[derive(Drop)]
pub struct Tally {
    closed: AtomicU64,
    right: AtomicU64,
    without_memory: AtomicU64,
    cut: AtomicU64,
}

// Whether a reply is among the bytes that says that memory ran out.
fn says_no_memory(sent: &[u8]) -> bool {
    match str::from_utf8(sent) {
        Ok(text) => text.contains("HTTP/1.1 500 "),
        Err(_) => false,
    }
}

impl Tally {
    /// A tally in which nothing was counted.
    pub fn new() -> Tally {
        Tally {
            closed: AtomicU64::new(0),
            right: AtomicU64::new(0),
            without_memory: AtomicU64::new(0),
            cut: AtomicU64::new(0),
        }
    }

    /// What was counted so far.
    pub fn counts(&self) -> Counts {
        Counts {
            closed: self.closed.load(Ordering::SeqCst),
            right: self.right.load(Ordering::SeqCst),
            without_memory: self.without_memory.load(Ordering::SeqCst),
            cut: self.cut.load(Ordering::SeqCst),
        }
    }

    // Counts a link that is closed: it was to get `due`, and was sent these bytes.
    pub(crate) fn count(&self, due: &[u8], sent: &[u8]) {
        let kind = if sent == due {
            Some(&self.right)
        } else if says_no_memory(sent) {
            Some(&self.without_memory)
        } else if due.starts_with(sent) {
            Some(&self.cut)
        } else {
            None
        };
        if let Some(kind) = kind {
            kind.fetch_add(1, Ordering::SeqCst);
        }
        self.closed.fetch_add(1, Ordering::SeqCst);
    }
}
