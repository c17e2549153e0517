// The Recalled of a mount that reads.
ghost use Rattle.std.specs.Prelude.{◌≡◌, IfErr};
ghost use Rattle.blob.specs.Sums.{sum_of};
ghost use Rattle.cta_model.specs.Files as files;
ghost use Rattle.archive_parts.specs.Carrying.{CanCarryOut, IsCarriedOut};

use crate::done::read_done;
use crate::stale::read_stale;
use archive_parts::ArchiveParts;
use blob::Blob;
use cta_model::{Answer, Ask, Direction, Job};
use cta_site::NoMemory;
use kept_history::KeptHistory;
use site_index::SiteIndex;
use std::alloc::Global;
use std::sync::Arc;

/// Takes a file that a mount has read: carries out the accepted `Recalled` of a job of the mount at a moment, in seconds since 1970, with
/// the content of the job's file. The answer tells whether the recall was live (Done) or had ended (Stale). The mount claims the job no
/// more, and the bytes that were set aside for it are free again. Where it is Done, the content comes into the buffer, with its flag,
/// whether it is safe on tape; the recall ends; the files of stage requests that waited are COMPLETED; items of repacks that were READING
/// the file are WRITING, and an archive job of each of their copies waits in the queue of its pool; and the requests and repacks that
/// waited pin the file. NoMemory changes nothing, and gives the content back. Its cost is that of the rooms that it makes, the number of
/// open mounts, and the number of entries that wait for the recall, each with the logarithm of the number of files, pins and items of
/// repacks. CTA; what is pinned, and for how long, is this project's own.
pub fn recall_file(
    alloc: Global,
    site: &SiteIndex,
    history: &mut KeptHistory,
    parts: &mut ArchiveParts,
    at: u64,
    mount: u32,
    job: Job,
    blob: Arc<Blob>,
) -> Result<Answer, (NoMemory, Arc<Blob>)>
    requires carrying { CanCarryOut site.now history.old.value parts.old at (Ask.Recalled mount job) }
    requires content { sum_of blob.value ≡ files.sum_of history.old.value job.file }
    ensures carried { IsCarriedOut site.now history.old.value at (Ask.Recalled mount job) result history.new.value parts.new }
    ensures back { IfErr result (λ e. e.1 ≡ blob) }
{
    if parts.book.is_live(job) {
        return read_done(alloc, site, history, parts, at, mount, job, blob);
    }
    let len = blob.sum().len;
    match read_stale(site, history, parts, at, mount, job, len) {
        Ok(answer) => Ok(answer),
        Err(error) => Err((error, blob)),
    }
}
