// The hash of numbers.
ghost use Rattle.std.specs.Prelude.{◌≡◌};
ghost use Rattle.number_map.specs.Numbers.{fed, number_of, told, unfed};

use std::hash::Hasher;

/// Hashes a key of numbers that are given in turn, so that neighbours stand in neighbouring groups of a map's table: a map of many keys
/// that is gone over in their order is read from memory in its order too. A number of 32 bits, as that of an entry or a file, is added to
/// twice what was there, and any other, as that of a copy or a place, by the golden ratio, which lays the keys of each evenly between those
/// of the others. This project's own.
#[derive(Clone, Copy)]
pub struct NumberHasher {
    sum: u32,
}

// The golden ratio of 2^32.
const RATIO: u32 = 2_654_435_761;

// How many groups are told apart by the bits below; those above tell apart the keys of one group.
const GROUPS: u32 = 16_777_216;

// The number that bytes spell, the lowest first; of more than four the first four, and of fewer the first.
fn number_of(bytes: &[u8]) -> u32
    ensures { result ≡ number_of bytes.now }
{
    match bytes {
        [a, b, c, d, ..] => u32::from_le_bytes([*a, *b, *c, *d]),
        [a, ..] => *a as u32,
        [] => 0,
    }
}

impl Default for NumberHasher {
    ghost is_default = { λ h. h ≡ unfed };

    fn default() -> NumberHasher {
        NumberHasher { sum: 0 }
    }
}

impl Hasher for NumberHasher {
    ghost write = { fed };

    ghost finish = { told };

    fn finish(&self) -> u64 {
        (self.sum % GROUPS + self.sum.wrapping_mul(RATIO) / GROUPS * GROUPS) as u64
    }

    fn write(&mut self, bytes: &[u8]) {
        let number = number_of(bytes);
        self.sum = if bytes.len() == 4 {
            self.sum.wrapping_mul(2).wrapping_add(number)
        } else {
            self.sum.wrapping_add(number.wrapping_mul(RATIO))
        };
    }
}
