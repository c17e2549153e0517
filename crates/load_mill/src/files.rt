// The files by their index.
ghost use Rattle.std.specs.Prelude.{◌≡◌, [], ◌∷◌, ◌^◌, ◌-◌, IfOk, map, sum};
ghost use Rattle.load_mill.specs.Files.{file_bytes, file_len};
ghost use Rattle.load_mill.specs.Numbers.{number_of};

use crate::numbers::Numbers;
use cta_site::NoMemory;
use std::alloc::Global;

// The number of the file of this index.
fn number_of(seed: u64, index: u32) -> Numbers
    ensures { result.x ≡ number_of seed index }
{
    let mut numbers = Numbers::behind(seed, index);
    numbers.next();
    numbers
}

/// The length of the file of this index, counted from 0: 1 to 4096 bytes. Its cost is the index; who goes through the
/// files in order takes `Numbers`.
pub fn file_len(seed: u64, index: u32) -> u64
    ensures { result ≡ file_len seed index }
{
    number_of(seed, index).file_len()
}

/// The bytes of the file of this index, counted from 0. Its cost is the index and the length; who goes through the
/// files in order takes `Numbers`. NoMemory leaves nothing.
pub fn file_bytes(alloc: Global, seed: u64, index: u32) -> Result<Vec<u8>, NoMemory>
    ensures { IfOk result (λ bytes. bytes.items ≡ file_bytes seed index) }
{
    number_of(seed, index).file_bytes(alloc)
}

/// The lengths of the first files of three seeds, and the sum of the bytes of one of them, as another program computed
/// them: a law, which does nothing when it runs.
pub fn first_files_are_known()
    ensures least { map (file_len 0) (0 ∷ 1 ∷ 2 ∷ 3 ∷ 4 ∷ []) ≡ 1404 ∷ 2287 ∷ 1657 ∷ 1563 ∷ 1357 ∷ [] }
    ensures next { map (file_len 1) (0 ∷ 1 ∷ 2 ∷ 3 ∷ 4 ∷ []) ≡ 1904 ∷ 2183 ∷ 2786 ∷ 854 ∷ 631 ∷ [] }
    ensures greatest { map (file_len (2 ^ 64 - 1)) (0 ∷ 1 ∷ 2 ∷ 3 ∷ 4 ∷ []) ≡ 904 ∷ 2390 ∷ 527 ∷ 2273 ∷ 2084 ∷ [] }
    ensures bytes { sum (file_bytes 0 0) ≡ 180622 }
{}
