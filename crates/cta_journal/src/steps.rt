// Changes of a disk that are synced before anything else is done.
ghost use Rattle.std.specs.Prelude.{◌≡◌, ◌++◌, ◌∷◌, ◌<◌, ◌≤◌, ◌+◌, ◌^◌, List, ℕ, None, Some, length, take, IfOk, OnOk};
ghost use Rattle.outside.specs.Causes.{HasCause};
ghost use Rattle.cta_journal.specs.Disk.{written, Only, IsPossible, LeavesOnly, Torn, Cut};
ghost use Rattle.cta_journal.specs.Log.{HasLogOrMore};
ghost use Rattle.cta_journal.specs.Standing.{Stands, log_file};

use crate::disk::Disk;
use outside::Failed;

// Writes the piece and syncs. A crash meanwhile leaves what a torn write may leave.
pub(crate) fn store<K: Disk>(disk: &mut K, at: u64, piece: &[u8]) -> Result<(), Failed>
    ensures stored { (file : List ℕ) → K.content disk.old ≡ Some file → at ≤ length file
        → OnOk result ((K.content disk.new ≡ Some (written file at piece.now)) × Only (written file at piece.now) (K.may_leave disk.new)) }
    ensures any_moment { (file : List ℕ) → K.content disk.old ≡ Some file → at ≤ length file → Only file (K.may_leave disk.old)
        → LeavesOnly K.moment K.left_since disk.old disk.new (Torn at (length piece.now) file) }
    ensures untold { K.content disk.old ≡ None → K.content disk.new ≡ None }
    ensures possible { IsPossible (K.content disk.old) (K.may_leave disk.old) → IsPossible (K.content disk.new) (K.may_leave disk.new) }
    ensures cause { HasCause (K.fault_count disk.old) (K.fault_count disk.new) result }
{
    disk.write_at(at, piece)?;
    disk.sync()?;
    Ok(())
}

// Cuts and syncs. A crash meanwhile leaves what a cut that is cut short may leave.
pub(crate) fn shorten<K: Disk>(disk: &mut K, len: u64) -> Result<(), Failed>
    ensures cut { (file : List ℕ) → K.content disk.old ≡ Some file → len ≤ length file
        → OnOk result ((K.content disk.new ≡ Some (take len file)) × Only (take len file) (K.may_leave disk.new)) }
    ensures any_moment { (file : List ℕ) → K.content disk.old ≡ Some file → len ≤ length file → Only file (K.may_leave disk.old)
        → LeavesOnly K.moment K.left_since disk.old disk.new (Cut len file) }
    ensures untold { K.content disk.old ≡ None → K.content disk.new ≡ None }
    ensures possible { IsPossible (K.content disk.old) (K.may_leave disk.old) → IsPossible (K.content disk.new) (K.may_leave disk.new) }
    ensures cause { HasCause (K.fault_count disk.old) (K.fault_count disk.new) result }
{
    disk.cut(len)?;
    disk.sync()?;
    Ok(())
}

// Puts records but for the first one's gate, with a closed gate behind them, behind the closed gate at `end`, and opens that one.
// It answers where the new gate stands.
pub(crate) fn add<K: Disk>(disk: &mut K, end: u64, piece: &[u8]) -> Result<u64, Failed>
    requires { end + length piece.now < 2 ^ 62 }
    ensures stored { (bodies more : List (List ℕ)) → 1 ∷ piece.now ≡ log_file more → Stands K.content K.may_leave disk.old end bodies
        → IfOk result (λ new_end. Stands K.content K.may_leave disk.new new_end (bodies ++ more)) }
    ensures content { (bodies more : List (List ℕ)) → 1 ∷ piece.now ≡ log_file more → Stands K.content K.may_leave disk.old end bodies
        → OnOk result (K.content disk.new ≡ Some (log_file (bodies ++ more))) }
    ensures any_moment { (bodies more : List (List ℕ)) → 1 ∷ piece.now ≡ log_file more → Stands K.content K.may_leave disk.old end bodies
        → LeavesOnly K.moment K.left_since disk.old disk.new (HasLogOrMore bodies more) }
    ensures possible { IsPossible (K.content disk.old) (K.may_leave disk.old) → IsPossible (K.content disk.new) (K.may_leave disk.new) }
    ensures cause { HasCause (K.fault_count disk.old) (K.fault_count disk.new) result }
{
    store(disk, end + 1, piece)?;
    store(disk, end, &[1])?;
    Ok(end + piece.len() as u64)
}
