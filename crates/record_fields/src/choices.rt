// Directions, fates and states.
ghost use Rattle.record_fields.specs.Numbers.{IsAny};
ghost use Rattle.record_fields.specs.Choices.{direction_before, fate_before, file_state_before, item_state_before, locality_before, tape_state_before};

use crate::field::{Field, TakeError};
use cta_model::{Direction, Fate, FileState, ItemState, Locality, TapeState};
use cta_values::NoMemory;
use std::alloc::Global;

impl Field for Direction {
    ghost before = { direction_before };

    ghost fits = { IsAny };

    fn put_field(&self, out: &mut Vec<u8>) -> Result<(), NoMemory> {
        let place = match self {
            Direction::Archive => 0,
            Direction::Retrieve => 1,
        };
        out.push(place)?;
        Ok(())
    }

    fn take_field(_alloc: Global, bytes: &[u8]) -> Result<(Direction, &[u8]), TakeError> {
        match bytes {
            [0, rest @ ..] => Ok((Direction::Archive, rest)),
            [1, rest @ ..] => Ok((Direction::Retrieve, rest)),
            _ => Err(TakeError::Bad),
        }
    }
}

impl Field for Fate {
    ghost before = { fate_before };

    ghost fits = { IsAny };

    fn put_field(&self, out: &mut Vec<u8>) -> Result<(), NoMemory> {
        let place = match self {
            Fate::Done => 0,
            Fate::Stale => 1,
        };
        out.push(place)?;
        Ok(())
    }

    fn take_field(_alloc: Global, bytes: &[u8]) -> Result<(Fate, &[u8]), TakeError> {
        match bytes {
            [0, rest @ ..] => Ok((Fate::Done, rest)),
            [1, rest @ ..] => Ok((Fate::Stale, rest)),
            _ => Err(TakeError::Bad),
        }
    }
}

impl Field for TapeState {
    ghost before = { tape_state_before };

    ghost fits = { IsAny };

    fn put_field(&self, out: &mut Vec<u8>) -> Result<(), NoMemory> {
        let place = match self {
            TapeState::Active => 0,
            TapeState::Disabled => 1,
            TapeState::Broken => 2,
            TapeState::Repacking => 3,
        };
        out.push(place)?;
        Ok(())
    }

    fn take_field(_alloc: Global, bytes: &[u8]) -> Result<(TapeState, &[u8]), TakeError> {
        match bytes {
            [0, rest @ ..] => Ok((TapeState::Active, rest)),
            [1, rest @ ..] => Ok((TapeState::Disabled, rest)),
            [2, rest @ ..] => Ok((TapeState::Broken, rest)),
            [3, rest @ ..] => Ok((TapeState::Repacking, rest)),
            _ => Err(TakeError::Bad),
        }
    }
}

impl Field for FileState {
    ghost before = { file_state_before };

    ghost fits = { IsAny };

    fn put_field(&self, out: &mut Vec<u8>) -> Result<(), NoMemory> {
        let place = match self {
            FileState::Submitted => 0,
            FileState::Started => 1,
            FileState::Completed => 2,
            FileState::Failed => 3,
            FileState::Cancelled => 4,
        };
        out.push(place)?;
        Ok(())
    }

    fn take_field(_alloc: Global, bytes: &[u8]) -> Result<(FileState, &[u8]), TakeError> {
        match bytes {
            [0, rest @ ..] => Ok((FileState::Submitted, rest)),
            [1, rest @ ..] => Ok((FileState::Started, rest)),
            [2, rest @ ..] => Ok((FileState::Completed, rest)),
            [3, rest @ ..] => Ok((FileState::Failed, rest)),
            [4, rest @ ..] => Ok((FileState::Cancelled, rest)),
            _ => Err(TakeError::Bad),
        }
    }
}

impl Field for Locality {
    ghost before = { locality_before };

    ghost fits = { IsAny };

    fn put_field(&self, out: &mut Vec<u8>) -> Result<(), NoMemory> {
        let place = match self {
            Locality::DiskAndTape => 0,
            Locality::Tape => 1,
            Locality::Disk => 2,
            Locality::Unavailable => 3,
            Locality::Lost => 4,
        };
        out.push(place)?;
        Ok(())
    }

    fn take_field(_alloc: Global, bytes: &[u8]) -> Result<(Locality, &[u8]), TakeError> {
        match bytes {
            [0, rest @ ..] => Ok((Locality::DiskAndTape, rest)),
            [1, rest @ ..] => Ok((Locality::Tape, rest)),
            [2, rest @ ..] => Ok((Locality::Disk, rest)),
            [3, rest @ ..] => Ok((Locality::Unavailable, rest)),
            [4, rest @ ..] => Ok((Locality::Lost, rest)),
            _ => Err(TakeError::Bad),
        }
    }
}

impl Field for ItemState {
    ghost before = { item_state_before };

    ghost fits = { IsAny };

    fn put_field(&self, out: &mut Vec<u8>) -> Result<(), NoMemory> {
        let place = match self {
            ItemState::Reading => 0,
            ItemState::Writing => 1,
            ItemState::Done => 2,
            ItemState::Failed => 3,
            ItemState::Gone => 4,
        };
        out.push(place)?;
        Ok(())
    }

    fn take_field(_alloc: Global, bytes: &[u8]) -> Result<(ItemState, &[u8]), TakeError> {
        match bytes {
            [0, rest @ ..] => Ok((ItemState::Reading, rest)),
            [1, rest @ ..] => Ok((ItemState::Writing, rest)),
            [2, rest @ ..] => Ok((ItemState::Done, rest)),
            [3, rest @ ..] => Ok((ItemState::Failed, rest)),
            [4, rest @ ..] => Ok((ItemState::Gone, rest)),
            _ => Err(TakeError::Bad),
        }
    }
}
