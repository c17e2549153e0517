// A link in memory that is read by pieces, in turn with another.
ghost use Rattle.std.specs.Prelude.{◌≡◌};

use outside::{Failed, Link, MemLink};
use std::sync::atomic::{AtomicU64, Ordering};
use std::thread;

// The most bytes that one read gives.
const PIECE: usize = 50;

// How often a read looks whether the other link had its piece, before it goes on without.
const LOOKS: u64 = 100_000;

// One of two links whose reads take turns, each by a piece: the first link's with an even number of reads before it, the other's with
// an odd one. A read that has waited long goes on out of its turn, so that each comes to its end.
#[derive(Drop)]
pub(crate) struct PieceLink<'a> {
    link: MemLink,
    reads: &'a AtomicU64,
    is_first: bool,
}

impl<'a> PieceLink<'a> {
    pub(crate) fn new(link: MemLink, reads: &'a AtomicU64, is_first: bool) -> PieceLink<'a> {
        PieceLink {
            link,
            reads,
            is_first,
        }
    }

    // The bytes that were written, None where there was no memory for a piece.
    pub(crate) fn written(&self) -> Option<&[u8]> {
        self.link.written()
    }

    // Waits for its turn, but not for ever.
    fn wait(&self) {
        for _ in 0..LOOKS {
            if (self.reads.load(Ordering::SeqCst) % 2 == 0) == self.is_first {
                return;
            }
            thread::yield_now();
        }
    }
}

impl Link for PieceLink<'_> {
    ghost use Rattle.std.specs.Prelude.{None, false};
    ghost use Rattle.outside.specs.Links.{link_read_faults, link_write_faults};

    ghost left = { λ _. None };

    ghost written = { λ _. None };

    ghost read_faults = { λ l. link_read_faults l.link };

    ghost write_faults = { λ l. link_write_faults l.link };

    ghost firm = { λ _. false };

    fn read(&mut self, to: &mut [u8]) -> Result<usize, Failed> {
        self.wait();
        let most = to.len().min(PIECE);
        let given = self.link.read(&mut to[..most]);
        self.reads.fetch_add(1, Ordering::SeqCst);
        given
    }

    fn write_all_of(&mut self, piece: &[u8]) -> Result<(), Failed> {
        self.link.write_all_of(piece)
    }

    fn close(&mut self) {
        self.link.close();
    }
}
