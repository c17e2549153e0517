// Counts of a drive's calls.
ghost use Rattle.std.specs.Prelude.{◌≡◌};
ghost use Rattle.media.specs.Counted.{count_of, counted, no_counts};

use cta_site::CallKind;

/// A count for each kind of call of a drive. A count that has reached 2^64 - 1 stands there. This project's own.
#[derive(Clone, Copy, Debug, PartialEq, Eq)]
pub struct Counts {
    pub load: u64,
    pub write: u64,
    pub flush: u64,
    pub read: u64,
    pub unload: u64,
}

impl Counts {
    /// Counts of no call. It takes no memory and constant time.
    pub fn new() -> Counts
        ensures { result ≡ no_counts }
    {
        Counts {
            load: 0,
            write: 0,
            flush: 0,
            read: 0,
            unload: 0,
        }
    }

    // The count of calls of this kind.
    pub(crate) fn of(&self, kind: CallKind) -> u64
        ensures { result ≡ count_of kind self.now }
    {
        match kind {
            CallKind::Load => self.load,
            CallKind::Write => self.write,
            CallKind::Flush => self.flush,
            CallKind::Read => self.read,
            CallKind::Unload => self.unload,
        }
    }

    /// Counts one more call of this kind, in constant time.
    pub fn raise(&mut self, kind: CallKind)
        ensures { self.new ≡ counted kind self.old }
    {
        match kind {
            CallKind::Load => self.load = self.load.saturating_add(1),
            CallKind::Write => self.write = self.write.saturating_add(1),
            CallKind::Flush => self.flush = self.flush.saturating_add(1),
            CallKind::Read => self.read = self.read.saturating_add(1),
            CallKind::Unload => self.unload = self.unload.saturating_add(1),
        }
    }
}
