// A medium in memory.
ghost use Rattle.std.specs.Prelude.{◌+◌, ◌<◌, ◌≡◌, ◌≤◌, IfOk, IfSome, MatchResult, set, vec_len};
ghost use Rattle.std.specs.Arc.{arc_value};
ghost use Rattle.blob.specs.Sums.{sum_of};

use blob::{Blob, NoMemory, Told};
use std::alloc::Global;
use std::sync::Arc;

/// A medium in memory, labelled with the number of its tape, which tells its records. It shares the contents that were written to it with whoever has them.
#[derive(Drop)]
pub struct MemMedium {
    pub(crate) tape: u32,
    pub(crate) records: Vec<Arc<Blob>>,
    pub(crate) safe: usize,
    ghost within: { safe ≤ vec_len records },
}

impl Told for MemMedium {
    ghost use Rattle.media.specs.Memory.{mem_medium};

    ghost told = { λ m. mem_medium m };
}

impl MemMedium {
    ghost use Rattle.blob.specs.Records.{with_records};
    ghost use Rattle.media.specs.Memory.{mem_medium, mem_tape, new_medium};
    ghost use Rattle.media.specs.Reads.{HasSafe, IsReadOf, record_at};
    ghost use Rattle.media.specs.Records.{flushed, unloaded, written};

    /// The medium of the tape of this number, with no records. It takes no memory and constant time.
    pub fn new(alloc: Global, tape: u32) -> MemMedium
        ensures { mem_medium result ≡ new_medium tape }
    {
        MemMedium {
            tape,
            records: Vec::new(alloc),
            safe: 0,
        }
    }

    // Drops the records from `fseq` on and adds the content as a pending one. NoMemory leaves the records.
    pub(crate) fn write(&mut self, fseq: u32, blob: &Arc<Blob>) -> Result<(), NoMemory>
        requires from { 1 ≤ fseq }
        requires to { fseq ≤ vec_len self.old.records + 1 }
        ensures { MatchResult result (λ _. mem_medium self.new ≡ with_records (written fseq (sum_of (arc_value blob.now))) (mem_medium self.old)) (λ _. mem_medium self.new ≡ mem_medium self.old) }
    {
        let Ok(kept) = Arc::try_clone(blob) else {
            return Err(NoMemory);
        };
        let at = fseq as usize - 1;
        if at < self.records.len() {
            self.safe = self.safe.min(at);
            put(&mut self.records, at, kept);
            self.records.truncate(at + 1);
            return Ok(());
        }
        match self.records.push(kept) {
            Ok(()) => Ok(()),
            Err(_) => Err(NoMemory),
        }
    }

    // Makes all records safe.
    pub(crate) fn flush(&mut self)
        ensures { mem_medium self.new ≡ with_records flushed (mem_medium self.old) }
    {
        self.safe = self.records.len();
    }

    // Drops the pending records.
    pub(crate) fn unload(&mut self)
        ensures { mem_medium self.new ≡ with_records unloaded (mem_medium self.old) }
    {
        self.records.truncate(self.safe);
    }

    // The bytes of a safe record, altered or not.
    pub(crate) fn read(&self, alloc: Global, fseq: u32, alter: bool) -> Result<Blob, NoMemory>
        requires { HasSafe fseq (mem_tape self.now) }
        ensures { IfSome (record_at (mem_tape self.now) fseq) (λ sum. IfOk result (IsReadOf alter sum)) }
    {
        let blob: &Blob = &self.records[fseq as usize - 1];
        let mut bytes = copy_of(alloc, blob)?;
        if alter {
            if let Some(first) = bytes.first_mut() {
                *first = first.wrapping_add(1);
            }
        }
        Blob::of(bytes)
    }
}

// A copy of a content's bytes.
fn copy_of(alloc: Global, blob: &Blob) -> Result<Vec<u8>, NoMemory>
    ensures { IfOk result (λ bytes. bytes.items ≡ blob.now) }
{
    let len = blob.sum().len as usize;
    let Ok(mut bytes) = vec![in alloc; 0u8; len] else {
        return Err(NoMemory);
    };
    blob.piece(0, &mut bytes);
    Ok(bytes)
}

// Puts a content in the place of another.
fn put(records: &mut Vec<Arc<Blob>>, at: usize, kept: Arc<Blob>)
    requires { at < vec_len records.old }
    ensures { records.new.items ≡ set records.old.items at kept }
{
    records[at] = kept;
}
