// A file that was read for a recall which had ended.
ghost use Rattle.std.specs.Prelude.{◌≡◌, ◌≤◌, ℕ, false};
ghost use Rattle.cta_site.specs.declared.site.Site.{Site};
ghost use Rattle.cta_model.specs.Files.{size_of};
ghost use Rattle.cta_model.specs.History.{History};
ghost use Rattle.job_book.specs.Live.{lives};
ghost use Rattle.part_model.specs.JobRows.{book_in};
ghost use Rattle.archive_parts.specs.Called.{AreKeptCalled};
ghost use Rattle.archive_parts.specs.Carrying.{CanCarryOut, IsCarriedOut};
ghost use Rattle.archive_parts.specs.PartsKept.{ArePartsKept};

use archive_parts::{ArchiveParts, Needs, kept_parts_move, same_parts_are_kept};
use cta_laws::{claimed_bytes_move, stays_short};
use cta_model::{Actor, Answer, Ask, Direction, Fate, Job};
use cta_site::NoMemory;
use kept_history::KeptHistory;
use part_moves::mount_at;
use site_index::SiteIndex;

// A mount gives back a recall that had ended, for which so many bytes were set aside.
fn give_back_stale(parts: &mut ArchiveParts, job: Job, len: u64)
    requires { len ≤ parts.old.buffer.held.value.aside }
    ensures { (site : Site) (h : History) (t mount drive : ℕ) → ArePartsKept site h parts.old → len ≡ size_of h job.file
        → AreKeptCalled site h (record { at = t; actor = Actor.Drive drive; ask = Ask.Recalled mount job; answer = Answer.Arrived Fate.Stale }) parts.old parts.new }
{
    parts.buffer.unhold(len);
    parts.book.give_back(job);
}

// Carries out an accepted Recalled of a job that is live no more, whose file is so many bytes long: the bytes that were set aside for it
// are free again, and its mount claims it no more.
pub(crate) fn read_stale(
    site: &SiteIndex,
    history: &mut KeptHistory,
    parts: &mut ArchiveParts,
    at: u64,
    mount: u32,
    job: Job,
    len: u64,
) -> Result<Answer, NoMemory>
    requires carrying { CanCarryOut site.now history.old.value parts.old at (Ask.Recalled mount job) }
    requires dead { lives job (book_in parts.old.book.value) ≡ false }
    requires size { len ≡ size_of history.old.value job.file }
    ensures carried { IsCarriedOut site.now history.old.value at (Ask.Recalled mount job) result history.new.value parts.new }
{
    kept_parts_move();
    same_parts_are_kept();
    stays_short();
    claimed_bytes_move();
    site.site().keeps_rules();
    parts.make_room(history, Needs::default())?;
    let mounted = mount_at(&parts.mounts, mount);
    give_back_stale(parts, job, len);
    history.append(
        at,
        Actor::Drive(mounted.drive),
        Ask::Recalled { mount, job },
        Answer::Arrived { fate: Fate::Stale },
    );
    Ok(Answer::Arrived { fate: Fate::Stale })
}
