// What a drive's pass keeps of the mount that its own Next made.
ghost use Rattle.archive.specs.OwnMounts.{NextOpens, OwnOverTurns, OwnOverJoins, OwnMountStays};

use crate::archive::Archive;
use archive_turns::{entries_name_their_mounts, mount_is_kept};
use cta_model::Told;
use turn_hall::topics_stay_opened;

/// A Next that is answered Mounted makes a mount of the pass's own, and hands out a true medium. The mount stays the pass's own over
/// its turns and its joins, and each later call of the pass is played where that mount is as the pass had seen it, whatever others
/// called meanwhile. A law, which does nothing when it runs.
pub fn own_mount_stays<M: Told + Drop>()
    ensures next { NextOpens M.told }
    ensures turns { OwnOverTurns M.told }
    ensures joins { OwnOverJoins M.told }
    ensures stays { OwnMountStays M.told }
{
    topics_stay_opened::<Archive<M>>();
    entries_name_their_mounts::<M>();
    mount_is_kept();
}
