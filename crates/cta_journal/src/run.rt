// A run of appends.
ghost use Rattle.std.specs.Prelude.{◌≡◌, ◌++◌, ◌≤◌, List, ℕ, All, true, false, map, OnOk, IsErrOf};
ghost use Rattle.outside.specs.Causes.{Rose};
ghost use Rattle.cta_journal.specs.Disk.{IsPossible, LeavesOnly};
ghost use Rattle.cta_journal.specs.Fronts.{HasFront, StandsForFront};
ghost use Rattle.cta_journal.specs.Standing.{StandsFor, disk_of, is_open_of};

use crate::disk::Disk;
use crate::journal::{AppendError, Journal};
use crate::record::Record;

impl<K: Disk> Journal<K> {
    /// Adds records one after the other, up to the first that fails. A crash at any moment leaves the log with some of them, in
    /// order, none skipped and none in part.
    pub fn append_each<R: Record>(&mut self, kept: &[R]) -> Result<(), AppendError>
        requires { is_open_of self.old ≡ true }
        ensures stored { (bodies : List (List ℕ)) → StandsFor K.content K.may_leave self.old bodies
            → OnOk result (StandsFor K.content K.may_leave self.new (bodies ++ map R.body kept.now)) }
        ensures any_moment { (bodies : List (List ℕ)) → StandsFor K.content K.may_leave self.old bodies
            → LeavesOnly K.moment K.left_since (disk_of self.old) (disk_of self.new) (HasFront bodies (map R.body kept.now)) }
        ensures fits { OnOk result (All R.fits kept.now) }
        ensures ok { OnOk result (is_open_of self.new ≡ true) }
        ensures fault { IsErrOf result AppendError.Fault
            → Rose (K.fault_count (disk_of self.old)) (K.fault_count (disk_of self.new)) × (is_open_of self.new ≡ false) }

        // Where memory is wanted, those before are on the disk.
        ensures no_memory { IsErrOf result AppendError.NoMemory → (is_open_of self.new ≡ true)
            × ((bodies : List (List ℕ)) → StandsFor K.content K.may_leave self.old bodies
            → StandsForFront K.content K.may_leave self.new bodies (map R.body kept.now)) }
        ensures possible { IsPossible (K.content (disk_of self.old)) (K.may_leave (disk_of self.old))
            → IsPossible (K.content (disk_of self.new)) (K.may_leave (disk_of self.new)) }
        ensures later { K.fault_count (disk_of self.old) ≤ K.fault_count (disk_of self.new) }
    {
        for one in kept {
            self.append(one)?;
        }
        Ok(())
    }
}
