// The ends of copies that repacks are WRITING.
ghost use Rattle.std.specs.Prelude.{◌≡◌, [], ◌∷◌, false, not};
ghost use Rattle.cta_model.specs.Repacks.{is_live_item};
ghost use Rattle.part_model.specs.Held.{HeldAgree};
ghost use Rattle.part_model.specs.Repacks.{RepacksAgree, set_state, set_states};
ghost use Rattle.repack_book.specs.NamedRepacks.{NamesAgree, repacks_of};
ghost use Rattle.part_laws.specs.BookCalls.{writers};
ghost use Rattle.part_moves.specs.Unpinned.{AreTakenOff, is_pinned_by, unpin_if};

use cta_model::{ItemState, Job};
use disk_buffer::DiskBuffer;
use repack_book::RepackBook;

// A repack's item of a copy ends in this state, and the repack's pin of the file is taken off where it was the last.
fn end_item(
    repacks: &mut RepackBook,
    buffer: &mut DiskBuffer,
    id: u32,
    file: u32,
    copy: u8,
    state: ItemState,
)
    ensures repacks { RepacksAgree (repacks_of repacks.new) (set_state id file copy state (repacks_of repacks.old)) }
    ensures names { NamesAgree repacks.new repacks.old }
    ensures held { HeldAgree buffer.new.held.value (unpin_if (not (is_pinned_by (repacks_of repacks.new) file id)) file id buffer.old.held.value) }
    ensures contents { buffer.new.contents ≡ buffer.old.contents }
{
    repacks.set(id, file, copy, state);
    if repacks.pins(id, file) {
        return;
    }
    buffer.unpin(file, id);
}

// The items of a copy that repacks are WRITING end in this state, and pins of repacks that pin the file no more are taken off.
fn end_copy(repacks: &mut RepackBook, buffer: &mut DiskBuffer, job: Job, state: ItemState)
    ensures repacks { RepacksAgree (repacks_of repacks.new) (set_states state (writers (repacks_of repacks.old) (job ∷ [])) (repacks_of repacks.old)) }
    ensures names { NamesAgree repacks.new repacks.old }
    ensures pins { AreTakenOff (repacks_of repacks.old) (repacks_of repacks.new) buffer.old.held.value buffer.new.held.value }
    ensures contents { buffer.new.contents ≡ buffer.old.contents }
{
    let mut next = repacks.first_writer(job.file, job.copy);
    while let Some(id) = next {
        end_item(repacks, buffer, id, job.file, job.copy, state);
        next = repacks.next_writer(job.file, job.copy, id);
    }
}

/// The items of the copies of these jobs that repacks are WRITING end in this state, which is not READING or WRITING: DONE where the copies were
/// flushed, and FAILED where their jobs were charged for the last time. A repack that pins a file no more takes its pin off. It takes no
/// memory. Its cost is that of the repacks that are WRITING the copies, each with the logarithm of the number of live items and pins. CTA;
/// what pins a file is this project's own.
pub fn end_copies(repacks: &mut RepackBook, buffer: &mut DiskBuffer, jobs: &[Job], state: ItemState)
    requires { is_live_item state ≡ false }
    ensures repacks { RepacksAgree (repacks_of repacks.new) (set_states state (writers (repacks_of repacks.old) jobs.now) (repacks_of repacks.old)) }
    ensures names { NamesAgree repacks.new repacks.old }
    ensures pins { AreTakenOff (repacks_of repacks.old) (repacks_of repacks.new) buffer.old.held.value buffer.new.held.value }
    ensures contents { buffer.new.contents ≡ buffer.old.contents }
{
    for job in jobs {
        end_copy(repacks, buffer, *job, state);
    }
}
