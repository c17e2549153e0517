// What is kept, as a record of a journal.
ghost use Rattle.cta_records.specs.Records.{body_of, KeptFits};

use crate::kept::{Kept, RecordRead};
use crate::reading::read_record;
use crate::writing::write_record;
use cta_journal::{Record, RecordRead as Found};
use record_fields::NoMemory;
use std::alloc::{AllocError, Global};

/// A journal keeps entries with their contents, in the format of `write_record`.
impl Record for Kept {
    ghost body = { body_of };

    ghost fits = { KeptFits };

    fn write_record(&self, alloc: Global) -> Result<Vec<u8>, AllocError> {
        match write_record(alloc, self) {
            Ok(bytes) => Ok(bytes),
            Err(NoMemory) => Err(AllocError),
        }
    }

    fn read_record(alloc: Global, bytes: &[u8]) -> Result<Found<Kept>, AllocError> {
        match read_record(alloc, bytes) {
            Ok(RecordRead::Need) => Ok(Found::Need),
            Ok(RecordRead::Record { kept, len }) => Ok(Found::Record { kept, len }),
            Ok(RecordRead::Bad) => Ok(Found::Bad),
            Err(NoMemory) => Err(AllocError),
        }
    }
}
