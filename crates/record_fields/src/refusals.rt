// Refusals.
ghost use Rattle.record_fields.specs.Numbers.{IsAny};
ghost use Rattle.record_fields.specs.Choices.{refusal_before};

use crate::field::{Field, TakeError};
use cta_model::Refusal;
use cta_values::NoMemory;
use std::alloc::Global;

impl Field for Refusal {
    ghost before = { refusal_before };

    ghost fits = { IsAny };

    fn put_field(&self, out: &mut Vec<u8>) -> Result<(), NoMemory> {
        let place = match self {
            Refusal::BadPath => 0,
            Refusal::NoDirectory => 1,
            Refusal::PathTaken => 2,
            Refusal::NoSpace => 3,
            Refusal::HistoryFull => 4,
            Refusal::NoFile => 5,
            Refusal::NotResident => 6,
            Refusal::NoRequest => 7,
            Refusal::ForeignPath => 8,
            Refusal::NoDrive => 9,
            Refusal::NoTape => 10,
            Refusal::TapeMounted => 11,
            Refusal::TapeBroken => 12,
            Refusal::LiveFiles => 13,
            Refusal::NotRepacking => 14,
            Refusal::RepackLive => 15,
            Refusal::NoRepack => 16,
            Refusal::Unknown => 17,
        };
        out.push(place)?;
        Ok(())
    }

    fn take_field(_alloc: Global, bytes: &[u8]) -> Result<(Refusal, &[u8]), TakeError> {
        match bytes {
            [0, rest @ ..] => Ok((Refusal::BadPath, rest)),
            [1, rest @ ..] => Ok((Refusal::NoDirectory, rest)),
            [2, rest @ ..] => Ok((Refusal::PathTaken, rest)),
            [3, rest @ ..] => Ok((Refusal::NoSpace, rest)),
            [4, rest @ ..] => Ok((Refusal::HistoryFull, rest)),
            [5, rest @ ..] => Ok((Refusal::NoFile, rest)),
            [6, rest @ ..] => Ok((Refusal::NotResident, rest)),
            [7, rest @ ..] => Ok((Refusal::NoRequest, rest)),
            [8, rest @ ..] => Ok((Refusal::ForeignPath, rest)),
            [9, rest @ ..] => Ok((Refusal::NoDrive, rest)),
            [10, rest @ ..] => Ok((Refusal::NoTape, rest)),
            [11, rest @ ..] => Ok((Refusal::TapeMounted, rest)),
            [12, rest @ ..] => Ok((Refusal::TapeBroken, rest)),
            [13, rest @ ..] => Ok((Refusal::LiveFiles, rest)),
            [14, rest @ ..] => Ok((Refusal::NotRepacking, rest)),
            [15, rest @ ..] => Ok((Refusal::RepackLive, rest)),
            [16, rest @ ..] => Ok((Refusal::NoRepack, rest)),
            [17, rest @ ..] => Ok((Refusal::Unknown, rest)),
            _ => Err(TakeError::Bad),
        }
    }
}
