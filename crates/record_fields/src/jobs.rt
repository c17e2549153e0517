// Jobs, the items of a batch, and the files that a stage request wants.
ghost use Rattle.record_fields.specs.Values.{job_before, JobFits, item_before, ItemFits, wanted_before, WantedFits};

use crate::field::{Field, TakeError};
use blob::Sum256;
use cta_model::{Item, Job, Wanted};
use cta_values::{NoMemory, Text};
use std::alloc::Global;

impl Field for Job {
    ghost before = { job_before };

    ghost fits = { JobFits };

    fn put_field(&self, out: &mut Vec<u8>) -> Result<(), NoMemory> {
        self.birth.put_field(out)?;
        self.file.put_field(out)?;
        self.copy.put_field(out)
    }

    fn take_field(alloc: Global, bytes: &[u8]) -> Result<(Job, &[u8]), TakeError> {
        let (birth, rest) = u32::take_field(alloc, bytes)?;
        let (file, rest) = u32::take_field(alloc, rest)?;
        let (copy, rest) = u8::take_field(alloc, rest)?;
        Ok((Job { birth, file, copy }, rest))
    }
}

impl Field for Item {
    ghost before = { item_before };

    ghost fits = { ItemFits };

    fn put_field(&self, out: &mut Vec<u8>) -> Result<(), NoMemory> {
        self.job.put_field(out)?;
        self.fseq.put_field(out)?;
        self.sum.put_field(out)
    }

    fn take_field(alloc: Global, bytes: &[u8]) -> Result<(Item, &[u8]), TakeError> {
        let (job, rest) = Job::take_field(alloc, bytes)?;
        let (fseq, rest) = u32::take_field(alloc, rest)?;
        let (sum, rest) = Sum256::take_field(alloc, rest)?;
        Ok((Item { job, fseq, sum }, rest))
    }
}

impl Field for Wanted {
    ghost before = { wanted_before };

    ghost fits = { WantedFits };

    fn put_field(&self, out: &mut Vec<u8>) -> Result<(), NoMemory> {
        self.path.put_field(out)?;
        self.lifetime.put_field(out)
    }

    fn take_field(alloc: Global, bytes: &[u8]) -> Result<(Wanted, &[u8]), TakeError> {
        let (path, rest) = Text::take_field(alloc, bytes)?;
        let (lifetime, rest) = Option::<u64>::take_field(alloc, rest)?;
        Ok((Wanted { path, lifetime }, rest))
    }
}
