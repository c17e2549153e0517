// Contents that were put, and their calls.
ghost use Rattle.std.specs.Prelude.{◌≡◌, [], None};
ghost use Rattle.loop_tests.specs.Contents.{Plays, adds};

use blob::Blob;
use std::alloc::Global;
use std::sync::Arc;
use turn_hall::Keeps;

/// The lengths of the contents that were put, until there are as many as there may be.
#[derive(Drop)]
pub struct Contents {
    lengths: Vec<u64>,
    most: usize,
}

/// A content is put at a moment, in seconds since 1970.
#[derive(Drop)]
pub struct Put {
    pub at: u64,
    pub blob: Arc<Blob>,
}

/// What comes back: the content, once it is counted; how many there are, where no more may be; or word that there was no memory.
#[derive(Drop)]
pub enum Back {
    Counted(Arc<Blob>),
    Full(u64),
    NoMemory,
}

impl Contents {
    /// No contents, of which there may be so many.
    pub fn new(alloc: Global, most: usize) -> Contents
        ensures { result.lengths.items ≡ [] }
    {
        Contents {
            lengths: Vec::new(alloc),
            most,
        }
    }

    /// Their lengths in bytes, in the order in which they were put.
    pub fn lengths(&self) -> &[u64]
        ensures { result.now ≡ self.now.lengths.items }
    {
        &self.lengths
    }
}

impl Keeps for Contents {
    type Site = ();

    type Entry = u64;

    type Call = Put;

    type Back = Back;

    ghost site = { λ t. tt };

    ghost history = { λ t. t.lengths.items };

    ghost legal = { λ s h. Unit {0} };

    ghost can_play = { λ s h call. Unit {0} };

    ghost plays = { λ s. Plays };

    ghost adds = { adds };

    ghost topic = { λ e. None };

    ghost asks = { λ call. None };

    ghost fits = { λ s h call. Unit {0} };

    fn play(&mut self, call: Put) -> Back {
        let count = self.lengths.len();
        if count >= self.most {
            return Back::Full(count as u64);
        }
        match self.lengths.push(call.blob.sum().len) {
            Ok(()) => Back::Counted(call.blob),
            Err(_) => Back::NoMemory,
        }
    }

    fn keeps_history(&self) {}

    fn keeps_laws() {}
}
