// The numbers from which the files are made.
ghost use Rattle.std.specs.Prelude.{◌≡◌, ◌≤◌, IfOk};
ghost use Rattle.load_mill.specs.Numbers.{bytes_by, length_by, number_after, number_behind};

use cta_site::NoMemory;
use std::alloc::Global;

const MULTIPLIER: u64 = 6364136223846793005;

const INCREMENT: u64 = 1442695040888963407;

// The number that comes after this one.
fn number_after(x: u64) -> u64
    ensures { result ≡ number_after x }
{
    x.wrapping_mul(MULTIPLIER).wrapping_add(INCREMENT)
}

/// The number of a file, from which its length and its bytes are made, and from which one goes on to the next file's
/// (this project's own). The step is that of a linear congruential generator modulo 2^64.
#[derive(Clone, Copy)]
pub struct Numbers {
    /// The number itself. Before the first file's it is the seed.
    pub x: u64,
}

impl Numbers {
    /// The number after so many steps from a seed. The file of index k, counted from 0, has the number after k + 1
    /// steps, so after k steps one call of `next` gives it. Its cost is the number of steps.
    pub fn behind(seed: u64, steps: u32) -> Numbers
        ensures { result.x ≡ number_behind seed steps }
    {
        let mut x = seed;
        for _step in 0..steps {
            x = number_after(x);
        }
        Numbers { x }
    }

    /// Goes on to the next file's number, in constant time.
    pub fn next(&mut self)
        ensures { self.new.x ≡ number_after self.old.x }
    {
        self.x = number_after(self.x);
    }

    /// The length of the file of this number: 1 to 4096 bytes. Its cost is constant.
    pub fn file_len(self) -> u64
        ensures len { result ≡ length_by self.x }
        ensures few { result ≤ 4096 }
    {
        1 + (self.x >> 40) % 4096
    }

    /// The bytes of the file of this number. Its cost is the length; NoMemory leaves nothing.
    #[tactic(auto, using(crate::proofs::Bytes::bytes_more))]
    pub fn file_bytes(self, alloc: Global) -> Result<Vec<u8>, NoMemory>
        ensures { IfOk result (λ bytes. bytes.items ≡ bytes_by self.x (length_by self.x)) }
    {
        let low = self.x % 256;
        let len = self.file_len();
        let mut bytes = Vec::with_capacity(alloc, len as usize)?;
        for at in 0..len {
            bytes.push(((low + at) % 256) as u8)?;
        }
        Ok(bytes)
    }
}
