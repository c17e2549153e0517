// What a repack leaves in the parts, once its entry is there.
ghost use Rattle.std.specs.Prelude.{◌≡◌, ◌+◌, ◌≤◌, length};
ghost use Rattle.part_model.specs.JobBook.{TellSame, bear_jobs, subscribe_files};
ghost use Rattle.part_model.specs.JobRows.{book_in};
ghost use Rattle.tape_asks.specs.Lists.{AreOnce};
ghost use Rattle.tape_asks.specs.Settled.{AreSettled, CanSettle};

use crate::births::{bear_all, join_all};
use crate::writing::{pin_all_of, write_all};
use archive_parts::ArchiveParts;
use cta_model::Job;
use cta_site::ValidSite;
use fault_asks::{queue_reads, queue_writes};
use job_book::JobBook;
use kept_history::KeptHistory;
use part_moves::set_flags;

// A repack of this number joins the recalls of files, and bears recalls and archive jobs, in the book.
fn bear_jobs_of(book: &mut JobBook, number: u32, joined: &[u32], newborn: &[Job], written: &[Job])
    requires once { AreOnce joined.now }
    requires room { length joined.now + (length newborn.now + length written.now) ≤ book.old.room }
    ensures { TellSame (book_in book.new.value) (bear_jobs written.now number (bear_jobs newborn.now number (subscribe_files joined.now number (book_in book.old.value)))) }
{
    join_all(book, number, joined);
    bear_all(book, number, newborn);
    bear_all(book, number, written);
}

// A repack of this number with these items settles in the parts: it joins the recalls of files, bears recalls and archive jobs, which
// wait in their queues, its items are WRITING whose files it writes, it pins these, and all its items' files get their flags.
pub(crate) fn settle(
    site: &ValidSite,
    history: &KeptHistory,
    parts: &mut ArchiveParts,
    number: u32,
    items: &[Job],
    joined: &[u32],
    newborn: &[Job],
    written: &[Job],
)
    requires { CanSettle site.now history.now.value joined.now newborn.now written.now parts.old }
    ensures { AreSettled site.now history.now.value number items.now joined.now newborn.now written.now parts.old parts.new }
{
    bear_jobs_of(&mut parts.book, number, joined, newborn, written);
    let recalls = &mut parts.recalls;
    queue_reads(site, history, &parts.tapes, &parts.book, recalls, newborn);
    queue_writes(site, history, &parts.book, &mut parts.pools, written);
    write_all(&mut parts.repacks, number, written);
    let buffer = &mut parts.buffer;
    pin_all_of(buffer, number, written);
    set_flags(buffer, &parts.tapes, &parts.book, site, history, items);
}
