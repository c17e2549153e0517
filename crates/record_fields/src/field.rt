// What has bytes of its own in a record.
ghost use Rattle.std.specs.Prelude.{◌≡◌, ◌++◌, List, ℕ, OnOk};
ghost use Rattle.record_fields.specs.Fields.{TookRightly, TookUpTo};
ghost use Rattle.record_fields.specs.declared.field.TakeError.TheVariants as error;

use cta_values::NoMemory;
use std::alloc::{AllocError, AllocFailed, Global};

/// Why no value was taken off the front of some bytes: out of memory, or no value's bytes stand there.
#[derive(Clone, Copy, Debug, PartialEq, Eq)]
pub enum TakeError {
    NoMemory,
    Bad,
}

impl From<AllocError> for TakeError {
    ghost from_gives = { λ _ e. e ≡ error.NoMemory };

    fn from(_error: AllocError) -> TakeError {
        TakeError::NoMemory
    }
}

impl<T: Drop> From<AllocFailed<T>> for TakeError {
    ghost from_gives = { λ _ e. e ≡ error.NoMemory };

    fn from(_failed: AllocFailed<T>) -> TakeError {
        TakeError::NoMemory
    }
}

/// A value that has bytes in a record. This project's own.
pub trait Field: Drop {
    /// Its bytes, with these behind them.
    ghost before: { Self → List ℕ → List ℕ };

    /// That it has bytes: each number has the width of its type, each text and list a length of four bytes.
    ghost fits: { Self → Type 0 };

    /// Adds its bytes behind those that came. `NoMemory` leaves some of them there; it is the answer too where the value
    /// has no bytes.
    fn put_field(&self, out: &mut Vec<u8>) -> Result<(), NoMemory>
        ensures fits { OnOk result (fits self.now) }
        ensures bytes { OnOk result ((rest : List ℕ) → out.new.items ++ rest ≡ out.old.items ++ before self.now rest) };

    /// The value whose bytes stand at the front, and what follows them. `Bad` comes only where no value's bytes stand
    /// there.
    fn take_field(alloc: Global, bytes: &[u8]) -> Result<(Self, &[u8]), TakeError>
        ensures right { TookRightly before fits (λ rest. rest.now) bytes.now result }
        ensures again { (v : Self) (rest : List ℕ) → fits v → bytes.now ≡ before v rest → TookUpTo (λ rest. rest.now) rest result };
}
