// Why a log isn't taken up.
ghost use Rattle.std.specs.Prelude.{◌≡◌};
ghost use Rattle.archive_restore.specs.declared.error.RestoreError.TheVariants as error;

use cta_model::NoMemory;
use std::alloc::{AllocError, AllocFailed};

/// Why no archive was made of a log.
#[derive(Clone, Copy, Debug, PartialEq, Eq)]
pub enum RestoreError {
    /// The record of this number, from 1, is the first that is wrong: its entry may not follow those before it, or it hasn't exactly
    /// the content that it is to have.
    Differs { entry: u32 },
    /// Out of memory.
    NoMemory,
}

impl From<NoMemory> for RestoreError {
    ghost from_gives = { λ _ e. e ≡ error.NoMemory };

    fn from(_error: NoMemory) -> RestoreError {
        RestoreError::NoMemory
    }
}

impl From<AllocError> for RestoreError {
    ghost from_gives = { λ _ e. e ≡ error.NoMemory };

    fn from(_error: AllocError) -> RestoreError {
        RestoreError::NoMemory
    }
}

impl<T: Drop> From<AllocFailed<T>> for RestoreError {
    ghost from_gives = { λ _ e. e ≡ error.NoMemory };

    fn from(_failed: AllocFailed<T>) -> RestoreError {
        RestoreError::NoMemory
    }
}
