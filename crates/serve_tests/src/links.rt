// A listener over links in memory that tells how often it was asked.
ghost use Rattle.std.specs.Prelude.{◌≡◌};

use outside::{Failed, Listener, MemListener};
use std::alloc::{AllocError, Global};
use std::sync::Arc;
use std::sync::atomic::{AtomicU64, Ordering};
use told_links::ToldLink;

// A listener over links in memory, which tells how often it was asked for a link.
#[derive(Drop)]
pub(crate) struct ToldListener<'a> {
    links: MemListener<ToldLink<'a>>,
    asked: Arc<AtomicU64, Global>,
}

impl<'a> ToldListener<'a> {
    // A listener that has these links left, and fails at these calls, counted from 1.
    pub(crate) fn new(
        links: Vec<ToldLink<'a>>,
        failing: Vec<u64>,
        asked: Arc<AtomicU64, Global>,
    ) -> ToldListener<'a> {
        ToldListener {
            links: MemListener::new(links, failing),
            asked,
        }
    }
}

impl<'a> Listener for ToldListener<'a> {
    ghost use Rattle.std.specs.Prelude.{None};
    ghost use Rattle.outside.specs.Listeners.{listener_ended, listener_faults};

    type L = ToldLink<'a>;

    ghost left = { λ _. None };

    ghost ended = { λ l. listener_ended l.links };

    ghost faults = { λ l. listener_faults l.links };

    fn next(&mut self) -> Result<Option<ToldLink<'a>>, Failed> {
        let next = self.links.next();
        self.asked.fetch_add(1, Ordering::SeqCst);
        next
    }
}

// How often a listener was asked: not yet.
pub(crate) fn no_calls(alloc: Global) -> Result<Arc<AtomicU64, Global>, AllocError> {
    match Arc::new(alloc, AtomicU64::new(0)) {
        Ok(asked) => Ok(asked),
        Err(_) => Err(AllocError),
    }
}
