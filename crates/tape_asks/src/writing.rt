// The items of a repack whose files are in the buffer, and the pins of these.
ghost use Rattle.std.specs.Prelude.{◌≡◌, ◌+◌, ◌<◌, ◌≤◌, length};
ghost use Rattle.cta_model.specs.declared.reports.ItemState.TheVariants as item;
ghost use Rattle.part_model.specs.Held.{HeldAgree, pin_all};
ghost use Rattle.part_model.specs.Repacks.{RepacksAgree, set_states};
ghost use Rattle.repack_book.specs.NamedRepacks.{NamesAgree, repacks_of};
ghost use Rattle.tape_asks.specs.Lists.{pins_of, targets_of};

use cta_model::{ItemState, Job};
use disk_buffer::DiskBuffer;
use repack_book::RepackBook;

// The items of these copies are WRITING in a repack.
pub(crate) fn write_all(repacks: &mut RepackBook, number: u32, jobs: &[Job])
    ensures repacks { RepacksAgree (repacks_of repacks.new) (set_states item.Writing (targets_of number jobs.now) (repacks_of repacks.old)) }
    ensures names { NamesAgree repacks.new repacks.old }
{
    for job in jobs {
        repacks.set(number, job.file, job.copy, ItemState::Writing);
    }
}

// A repack pins the files of these jobs, without an end.
pub(crate) fn pin_all_of(buffer: &mut DiskBuffer, number: u32, jobs: &[Job])
    requires { length jobs.now ≤ buffer.old.held.room }
    ensures held { HeldAgree buffer.new.held.value (pin_all (pins_of number jobs.now) buffer.old.held.value) }
    ensures contents { buffer.new.contents ≡ buffer.old.contents }
    ensures room { buffer.old.held.room ≤ buffer.new.held.room + length jobs.now }
{
    for at in (0..jobs.len()).rev() {
        buffer.pin(jobs[at].file, number, u64::MAX);
    }
}
