// What a drive that asks for a mount sees of the parts.
ghost use Rattle.std.specs.Prelude.{◌≡◌, ◌&&◌, not};
ghost use Rattle.cta_model.specs.History.{has_number};
ghost use Rattle.part_model.specs.Mounts.{has_drive, has_tape};
ghost use Rattle.part_answers.specs.Seen.{seen_parts};

use job_queues::JobQueues;
use open_mounts::{OpenMounts, VoQuota};
use std::marker::Model;
use tape_table::TapeTable;

/// The parts that the choice of a mount reads: the table of tapes, the open mounts with the drives that are down, the counts
/// of open mounts, the queues of both directions, and how many bytes of the buffer are free or may be evicted at the moment
/// of the call. Contracts see it as all parts, with nothing in the others. This project's own.
#[derive(Drop)]
pub struct SeenParts<'a> {
    pub(crate) table: &'a TapeTable,
    pub(crate) mounts: &'a OpenMounts,
    pub(crate) counts: &'a VoQuota,
    pub(crate) pools: &'a JobQueues,
    pub(crate) recalls: &'a JobQueues,
    pub(crate) room: u64,
}

impl<'a> Model for SeenParts<'a> {
    ghost use Rattle.part_laws.specs.AllParts.{AllParts};
    ghost use Rattle.part_answers.specs.Seen.{seen_parts};

    ghost Value = { AllParts };

    ghost view = { λ d. seen_parts d.table.now.value d.mounts.now.value.rows d.mounts.now.value.downs d.counts.now d.pools.now.value d.recalls.now.value d.room };
}

impl<'a> SeenParts<'a> {
    /// These parts, with so many bytes of the buffer free or evictable. In constant time.
    pub fn of(
        table: &'a TapeTable,
        mounts: &'a OpenMounts,
        counts: &'a VoQuota,
        pools: &'a JobQueues,
        recalls: &'a JobQueues,
        room: u64,
    ) -> SeenParts<'a>
        ensures { result ≡ seen_parts table.now.value mounts.now.value.rows mounts.now.value.downs counts.now pools.now.value recalls.now.value room }
    {
        SeenParts {
            table,
            mounts,
            counts,
            pools,
            recalls,
            room,
        }
    }

    // Whether no open mount has the tape.
    pub(crate) fn is_free(&self, tape: u32) -> bool
        ensures { result ≡ not (has_tape tape self.now.mounts) }
    {
        self.mounts.of_tape(tape).is_none()
    }

    // Whether the drive is up and has no open mount.
    pub(crate) fn is_idle(&self, drive: u32) -> bool
        ensures { result ≡ (not (has_number drive self.now.downs) && not (has_drive drive self.now.mounts)) }
    {
        if self.mounts.is_down(drive) {
            return false;
        }
        self.mounts.of_drive(drive).is_none()
    }
}
