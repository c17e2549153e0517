// The last entry of a history goes into the journal.
ghost use Rattle.std.specs.Prelude.{◌≡◌, ◌∷◌, ◌++◌, ◌≤◌, [], List, ℕ, OnOk, IsErrOf, true};
ghost use Rattle.cta_journal.specs.Disk.{LeavesOnly};
ghost use Rattle.cta_journal.specs.Standing.{StandsFor, disk_of, is_open_of};
ghost use Rattle.cta_model.specs.declared.entries.Entry.{Entry};
ghost use Rattle.cta_model.specs.History.{History};
ghost use Rattle.cta_records.specs.Records.{KeptFits, body_of};
ghost use Rattle.durable_archive.specs.declared.back.CloseCause.{CloseCause};
ghost use Rattle.durable_archive.specs.Journaled.{IsCauseOf};
ghost use Rattle.durable_archive.specs.Records.{AreRecordsOf, MayHaveMore, MayHaveNext, StandsForNext};

use crate::back::CloseCause;
use crate::last::last_kept;
use archive::Archive;
use cta_journal::{AppendError, Disk, Journal};
use cta_model::Told;
use cta_records::Kept;
use std::alloc::Global;

// Appends a record.
fn append_kept<K: Disk>(journal: &mut Journal<K>, kept: &Kept) -> Result<(), CloseCause>
    requires { is_open_of journal.old ≡ true }
    ensures open { OnOk result (is_open_of journal.new ≡ true) }
    ensures fits { OnOk result (KeptFits kept.now) }
    ensures stored { (bodies : List (List ℕ)) → StandsFor K.content K.may_leave journal.old bodies → OnOk result (StandsFor K.content K.may_leave journal.new (bodies ++ body_of kept.now ∷ [])) }
    ensures cause { (why : CloseCause) → IsErrOf result why → IsCauseOf why (K.fault_count (disk_of journal.old)) (K.fault_count (disk_of journal.new)) }
    ensures later { K.fault_count (disk_of journal.old) ≤ K.fault_count (disk_of journal.new) }
    ensures any_moment { (bodies : List (List ℕ)) → StandsFor K.content K.may_leave journal.old bodies
        → LeavesOnly K.moment K.left_since (disk_of journal.old) (disk_of journal.new) (MayHaveMore bodies kept.now) }
{
    match journal.append(kept) {
        Ok(()) => Ok(()),
        Err(AppendError::Fault) => Err(CloseCause::Disk {
            faults: journal.faults(),
        }),
        Err(AppendError::NoMemory) => Err(CloseCause::Memory),
    }
}

// Appends the record of the last entry of a history. A crash meanwhile leaves the log as it was, or with that record.
pub(crate) fn keep_last<M: Told + Drop, K: Disk>(
    alloc: Global,
    archive: &Archive<M>,
    journal: &mut Journal<K>,
) -> Result<(), CloseCause>
    requires open { is_open_of journal.old ≡ true }
    requires some { archive.now.history ≡ [] → ⊥ }
    ensures open { OnOk result (is_open_of journal.new ≡ true) }
    ensures stored { (e : Entry) (h : History) (bodies : List (List ℕ)) → archive.now.history ≡ e ∷ h → AreRecordsOf archive.now.site h bodies → StandsFor K.content K.may_leave journal.old bodies
        → OnOk result (StandsForNext K.content K.may_leave journal.new archive.now.site archive.now.history bodies) }
    ensures cause { (why : CloseCause) → IsErrOf result why → IsCauseOf why (K.fault_count (disk_of journal.old)) (K.fault_count (disk_of journal.new)) }
    ensures later { K.fault_count (disk_of journal.old) ≤ K.fault_count (disk_of journal.new) }
    ensures any_moment { (e : Entry) (h : History) (bodies : List (List ℕ)) → archive.now.history ≡ e ∷ h → AreRecordsOf archive.now.site h bodies → StandsFor K.content K.may_leave journal.old bodies
        → LeavesOnly K.moment K.left_since (disk_of journal.old) (disk_of journal.new) (MayHaveNext archive.now.site archive.now.history bodies) }
{
    archive.keeps_history();
    match last_kept(alloc, archive) {
        Ok(Some(kept)) => {
            let appended = append_kept(journal, &kept);
            drop(kept);
            appended
        }
        Ok(None) => unreachable!(),
        Err(_) => Err(CloseCause::Memory),
    }
}
