// Batches that are to be read.
ghost use Rattle.std.specs.Prelude.{◌≡◌, ◌≤◌, ◌<◌, ◌^◌, Some, IfOk, true};
ghost use Rattle.cta_model.specs.declared.asks.Direction.TheVariants as direction;
ghost use Rattle.cta_model.specs.declared.states.Mount.{Mount};
ghost use Rattle.cta_model.specs.Batches.{batch_of};
ghost use Rattle.cta_model.specs.History.{moment_of};
ghost use Rattle.cta_model.specs.Legal.{IsMountOf, greatest_moment};
ghost use Rattle.cta_model.specs.Mounts.{is_open, mount_of};
ghost use Rattle.cta_model.specs.Tapes.{size_of_items};

use crate::mounts::room_of;
use crate::state::ArchiveState;
use blob::Told;
use cta_laws::{buffer_has_room, job_file_has_put};
use cta_model::Item;
use cta_site::{NoMemory, Rows};
use part_answers::{read_batch, taken_jobs};

impl<M: Told + Drop> ArchiveState<M> {
    /// The batch that a Claim of an open mount that reads takes at this moment, in seconds since 1970, or at the last entry's where that
    /// is later: no items where nothing that waits fits in the buffer. The sum of their bytes is a number of 64 bits. NoMemory gives
    /// nothing. Its cost is that of `DiskBuffer::evictable`, and the square of the number of the items, each with the logarithm of the
    /// number of queued jobs.
    pub fn batch_to_read(&self, at: u64, mount: u32) -> Result<Rows<Item>, NoMemory>
        requires at { at ≤ greatest_moment }
        requires open { is_open self.now.history mount ≡ true }
        requires reads { IsMountOf direction.Retrieve (mount_of self.now.history mount) }
        ensures batch { IfOk result (λ items. (x : Mount) → mount_of self.now.history mount ≡ Some x → items.items ≡ batch_of self.now.site self.now.history (moment_of self.now.history at) x) }
        ensures size { IfOk result (λ items. size_of_items items.items < 2 ^ 64) }
    {
        buffer_has_room();
        job_file_has_put();
        let rules = self.site.site();
        rules.keeps_rules();
        let Some(row) = self.parts.mounts.find(mount) else {
            unreachable!();
        };
        if row.key as usize >= rules.tapes().len() {
            return Ok(Rows::of(Vec::new(self.alloc)));
        }
        let limits = rules.limits();
        let room = room_of(&self.parts.buffer, self.history.moment_of(at));
        let queues = &self.parts.recalls;
        let taken = taken_jobs(self.alloc, queues, row.key, limits.batch_files, room)?;
        read_batch(
            self.alloc,
            rules,
            &self.history,
            &self.parts.tapes,
            row.tape,
            taken.jobs.as_slice(),
        )
    }
}
