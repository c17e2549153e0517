// What the state tells of drives and of what they mount.
ghost use Rattle.std.specs.Prelude.{◌≡◌, ◌≤◌, ◌<◌, ◌+◌, ◌^◌, IfOk};
ghost use Rattle.cta_model.specs.Choice.{mount_choice};
ghost use Rattle.cta_model.specs.History.{moment_of};
ghost use Rattle.cta_model.specs.Legal.{greatest_moment};
ghost use Rattle.cta_model.specs.Mounts.{is_busy, is_down};
ghost use Rattle.part_model.specs.Held.{bytes_of, evictable_in, free_in};

use crate::state::ArchiveState;
use blob::Told;
use cta_laws::buffer_has_room;
use cta_model::Candidate;
use cta_site::NoMemory;
use disk_buffer::DiskBuffer;
use part_answers::{SeenParts, choice_is_seen, choose};

// The bytes of the buffer that are free or may be evicted at a moment.
pub(crate) fn room_of(buffer: &DiskBuffer, now: u64) -> u64
    requires { free_in buffer.now.held.value + bytes_of (evictable_in buffer.now.held.value now) < 2 ^ 64 }
    ensures { result ≡ free_in buffer.now.held.value + bytes_of (evictable_in buffer.now.held.value now) }
{
    buffer.free() + buffer.evictable(now)
}

impl<M: Told + Drop> ArchiveState<M> {
    /// Whether a drive is down. In constant time.
    pub fn is_down(&self, drive: u32) -> bool
        ensures { result ≡ is_down self.now.history drive }
    {
        self.parts.mounts.is_down(drive)
    }

    /// Whether a drive has an open mount. Its cost is the number of open mounts.
    pub fn is_busy(&self, drive: u32) -> bool
        ensures { result ≡ is_busy self.now.history drive }
    {
        self.parts.mounts.of_drive(drive).is_some()
    }

    /// What a drive mounts next at this moment, in seconds since 1970: the first of all warranted queues that fit it, None exactly where
    /// there is none. NoMemory gives nothing. Its cost is that of `part_answers::choose`.
    pub fn choose(&self, at: u64, drive: u32) -> Result<Option<Candidate>, NoMemory>
        requires { at ≤ greatest_moment }
        ensures { IfOk result (λ choice. choice ≡ mount_choice self.now.site self.now.history (moment_of self.now.history at) drive) }
    {
        buffer_has_room();
        choice_is_seen();
        self.site.site().keeps_rules();
        let now = self.history.moment_of(at);
        let parts = &self.parts;
        let seen = SeenParts::of(
            &parts.tapes,
            &parts.mounts,
            &parts.counts,
            &parts.pools,
            &parts.recalls,
            room_of(&parts.buffer, now),
        );
        choose(self.alloc, &self.site, &seen, now, drive)
    }
}
