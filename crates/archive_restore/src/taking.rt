// A log, taken up.
ghost use Rattle.std.specs.Prelude.{◌≡◌, ℕ, IfOk, IsErrOf, OnOk};
ghost use Rattle.archive_restore.specs.Logs.{IsFirstWrong, IsRightLog, history_of_log};
ghost use Rattle.archive_restore.specs.Restored.{AreMediaFor, IsRestored};

use crate::error::RestoreError;
use crate::label::Label;
use crate::laws::log_is_wrong_once;
use crate::replayer::Replayer;
use archive::Archive;
use cta_model::Told;
use cta_records::Kept;
use cta_site::ValidSite;
use std::alloc::Global;
use std::hash::RandomState;

// The archive whose history the records of a log tell, with labels for media.
fn replay(
    alloc: Global,
    site: ValidSite,
    log: Vec<Kept>,
    keys: RandomState,
) -> Result<Archive<Label>, RestoreError>
    ensures right { OnOk result (IsRightLog site log.items) }
    ensures site { IfOk result (λ archive. archive.site ≡ site) }
    ensures history { IfOk result (λ archive. archive.history ≡ history_of_log log.items) }
    ensures differs { (n : ℕ) → IsErrOf result (RestoreError.Differs n) → IsFirstWrong site log.items n }
{
    let mut replayer = Replayer::new(alloc, site, keys)?;
    for kept in log {
        if let Err(error) = replayer.take(alloc, kept) {
            replayer.let_go();
            return Err(error);
        }
    }
    Ok(replayer.ended())
}

/// The archive whose history the records of a log tell, the oldest first, and each mount that is open there, in order of their numbers,
/// with its medium. There is one medium for each tape of the site, in order of their numbers, each true for the log where it tells its
/// records; paths are hashed with these keys.
///
/// Each ask is made once more, at its moment and with its content, and must leave the very entry that was recorded. `Differs` names the
/// first record that is wrong, and comes exactly where there is one, but that want of memory may come first. After an error the log
/// and the media are dropped. Its cost is that of all the asks, and twice the bytes of each answer; the contents of all Puts are held in
/// memory until the end, also of files that were deleted or evicted.
pub fn restore<M: Told + Drop>(
    alloc: Global,
    site: ValidSite,
    log: Vec<Kept>,
    media: Vec<M>,
    keys: RandomState,
) -> Result<(Archive<M>, Vec<(u32, M)>), RestoreError>
    requires { AreMediaFor M.told site log.items media.items }
    ensures ok { IfOk result (λ r. IsRestored M.told site log.items media.items r.0 r.1.items) }
    ensures differs { (n : ℕ) → IsErrOf result (RestoreError.Differs n) → IsFirstWrong site log.items n }
    ensures only { (n : ℕ) → IsFirstWrong site log.items n → IfOk result (λ _. ⊥) }
{
    log_is_wrong_once();
    match replay(alloc, site, log, keys) {
        Ok(archive) => Ok(archive.with_media(media)?),
        Err(error) => Err(error),
    }
}
