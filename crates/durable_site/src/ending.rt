// The end of a run.
ghost use Rattle.std.specs.Prelude.{◌≡◌, List, ℕ, IfErr, IfOk, Some};
ghost use Rattle.outside.specs.Causes.{Rose};
ghost use Rattle.archive_opening.specs.declared.status.Status.TheVariants as status;
ghost use Rattle.cta_journal.specs.Standing.{StandsFor, disk_of};
ghost use Rattle.durable_archive.specs.Records.{KeepsHistory};
ghost use Rattle.durable_site.specs.Ending.{EndsOf};

use archive_opening::Status;
use cta_journal::Disk;
use cta_model::Told;
use durable_archive::{CloseCause, Logged};
use outside::Failed;

// How a run ended that came to this state and to this end of its listener.
fn status_of<M: Told + Drop, K: Disk>(
    logged: &Logged<M, K>,
    accepted: &Result<(), Failed>,
) -> Status
    ensures { EndsOf result accepted.now logged.now.closed (K.fault_count (disk_of logged.now.first)) (K.fault_count (disk_of logged.now.journal)) }
{
    match (logged.closed(), accepted) {
        (Some(CloseCause::Disk { .. }), _) => Status::JournalFault,
        (Some(CloseCause::Memory), _) => Status::NoMemory,
        (None, Ok(())) => Status::Ok,
        (None, Err(Failed)) => Status::ListenFault,
    }
}

/// The status of a run, and the journal's disk. The journal comes first: where it is closed, nothing else counts.
pub(crate) fn ended<M: Told + Drop, K: Disk>(
    logged: Logged<M, K>,
    accepted: Result<(), Failed>,
) -> (Status, K)
    ensures status { EndsOf result.0 accepted logged.closed (K.fault_count (disk_of logged.first)) (K.fault_count result.1) }
    ensures log { (begun : List (List ℕ)) → result.0 ≡ status.Ok → StandsFor K.content K.may_leave logged.first begun → (file : List ℕ) × (K.content result.1 ≡ Some file) × KeepsHistory logged.archive.site begun logged.archive.history file }
{
    let status = status_of(&logged, &accepted);
    (status, logged.end())
}
