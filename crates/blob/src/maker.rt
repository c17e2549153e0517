// Contents that come in pieces.
ghost use Rattle.std.specs.Prelude.{◌≡◌, ◌++◌, [], length, MatchResult};

use crate::blobs::Blob;
use crate::no_memory::NoMemory;
use crate::sum::Sum256;
use sha2::{Digest, Sha256};
use std::alloc::Global;
use std::marker::Model;

/// A content that is still coming. Contracts see the bytes that came. Each byte is hashed as it comes, so that no byte is
/// looked at again when the content is whole.
#[derive(Drop)]
pub struct BlobMaker {
    content: Vec<u8>,
    hasher: Sha256,
}

impl Model for BlobMaker {
    ghost use Rattle.std.specs.Prelude.{List, ℕ};
    ghost use Rattle.sha2.specs.Hashers.{Holds256};

    ghost Value = { List ℕ };

    ghost view = { λ m. m.content.items };

    ghost invariant = { λ m. Holds256 m.hasher m.content.items };
}

impl BlobMaker {
    /// A content of which nothing came. It takes no memory and constant time.
    pub fn new(alloc: Global) -> BlobMaker
        ensures { result ≡ [] }
    {
        BlobMaker {
            content: Vec::new(alloc),
            hasher: Sha256::new(),
        }
    }

    /// How many bytes came, in constant time.
    pub fn len(&self) -> u64
        ensures { result ≡ length self.now }
    {
        self.content.len() as u64
    }

    /// Adds a piece, which may be empty, behind what came. NoMemory leaves the maker unchanged. Its cost is the length of the
    /// piece, and over all pieces of a content together a further copy of it.
    pub fn push(&mut self, piece: &[u8]) -> Result<(), NoMemory>
        ensures { MatchResult result (λ _. self.new ≡ self.old ++ piece.now) (λ _. self.new ≡ self.old) }
    {
        self.content.extend_from_slice(piece)?;
        self.hasher.update(piece);
        Ok(())
    }

    /// The blob of what came, in constant time. NoMemory, which this way of keeping bytes never answers, gives the maker back
    /// unchanged.
    pub fn finish(self) -> Result<Blob, (NoMemory, BlobMaker)>
        ensures { MatchResult result (λ blob. blob ≡ self) (λ error. error.1 ≡ self) }
    {
        let len = self.len();
        let BlobMaker { content, hasher } = self;
        let kept_sum = Sum256 {
            len,
            digest: hasher.finalize(),
        };
        Ok(Blob { content, kept_sum })
    }
}
