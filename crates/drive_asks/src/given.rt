// What a batch is to its queue, its mount and its tape.
ghost use Rattle.std.specs.Prelude.{◌≡◌, ◌≤◌, ◌<◌, ◌^◌, ℕ, length, IfOk};
ghost use Rattle.cta_site.specs.Listed.{rows};
ghost use Rattle.cta_model.specs.Mounts.{item_jobs};
ghost use Rattle.cta_model.specs.Tapes.{size_of_items};
ghost use Rattle.part_model.specs.JobBook.{TellSame, claim_jobs};
ghost use Rattle.part_model.specs.JobRows.{book_in};
ghost use Rattle.part_model.specs.Queues.{lines_in, taken_out};

use cta_model::Item;
use cta_site::{NoMemory, Rows};
use job_book::JobBook;
use job_queues::JobQueues;
use std::alloc::Global;

// Takes the jobs of items out of the queue of a tape or a pool.
pub(crate) fn take_jobs(queues: &mut JobQueues, key: u32, items: &[Item])
    requires { key < length queues.old.value }
    ensures lines { (k : ℕ) → lines_in queues.new.value k ≡ taken_out key (item_jobs items.now) (lines_in queues.old.value) k }
    ensures keys { length queues.new.value ≡ length queues.old.value }
{
    for item in items {
        let _ = queues.take(key, item.job);
    }
}

// A mount claims the jobs of items.
pub(crate) fn claim_jobs_of(book: &mut JobBook, mount: u32, items: &[Item])
    requires { length items.now ≤ book.old.room }
    ensures { TellSame (book_in book.new.value) (claim_jobs (item_jobs items.now) mount (book_in book.old.value)) }
{
    for item in items {
        book.claim(item.job, mount);
    }
}

// The same items once more, with no room to spare. NoMemory gives nothing.
pub(crate) fn copy_of(alloc: Global, items: &[Item]) -> Result<Rows<Item>, NoMemory>
    ensures { IfOk result (λ copy. copy ≡ rows items.now) }
{
    let mut copy = Vec::with_capacity(alloc, items.len())?;
    for item in items {
        copy.push_reserved(*item);
    }
    Ok(Rows::of(copy))
}

// The bytes of items.
pub(crate) fn bytes_of(items: &[Item]) -> u64
    requires { size_of_items items.now < 2 ^ 64 }
    ensures { result ≡ size_of_items items.now }
{
    items.iter().map(|item| item.sum.len).sum()
}
