// Contents that are whole.
ghost use Rattle.std.specs.Prelude.{◌≡◌, ◌-◌, ◌++◌, IfOk, length, min, take, drop};
ghost use Rattle.blob.specs.Sums.{sum_of};

use crate::no_memory::NoMemory;
use crate::sum::{Sum256, sum_of};
use std::cmp;
use std::marker::Model;

/// The bytes of one content, with their sum, which is made once. Contracts see the bytes.
#[derive(Drop)]
pub struct Blob {
    pub(crate) content: Vec<u8>,
    pub(crate) kept_sum: Sum256,
}

impl Model for Blob {
    ghost use Rattle.std.specs.Prelude.{◌≡◌, List, ℕ};
    ghost use Rattle.blob.specs.Sums.{sum_of};

    ghost Value = { List ℕ };

    ghost view = { λ b. b.content.items };

    ghost invariant = { λ b. b.kept_sum ≡ sum_of b.content.items };
}

impl Blob {
    /// The blob of these bytes, of any number. It hashes them, so its cost is their number; the vector is taken over. The
    /// bytes are dropped after NoMemory, which this way of keeping them never answers.
    pub fn of(bytes: Vec<u8>) -> Result<Blob, NoMemory>
        ensures { IfOk result (λ blob. blob ≡ bytes.items) }
    {
        let kept_sum = sum_of(bytes.as_slice());
        Ok(Blob {
            content: bytes,
            kept_sum,
        })
    }

    /// The sum of the bytes: their number and their SHA-256 (FIPS 180-4). It takes no memory and constant time.
    pub fn sum(&self) -> Sum256
        ensures { result ≡ sum_of self.now }
    {
        self.kept_sum
    }

    /// Copies the bytes from the place `from`, counted from 0, to the front of `to`, as many as there are and fit, and gives
    /// their number: 0 exactly where the blob ends at or before that place, or `to` is empty. What stands behind them in `to`
    /// stays. It takes no memory; its cost is that number.
    pub fn piece(&self, from: u64, to: &mut [u8]) -> usize
        ensures count { result ≡ min (length to.old) (length self.now - from) }
        ensures bytes { to.new ≡ take result (drop from self.now) ++ drop result to.old }
    {
        let held = self.content.len() as u64;
        if from >= held {
            return 0;
        }
        let rest = &self.content[from as usize..];
        let count = cmp::min(to.len(), rest.len());
        to[..count].copy_from_slice(&rest[..count]);
        count
    }
}
