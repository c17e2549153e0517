// A disk as the journal sees it: what a read gives, and what a crash may leave.
ghost use Rattle.std.specs.Prelude.{◌≡◌, ◌≤◌, List, ℕ, length, take, None, Some, OnOk, IfOk};
ghost use Rattle.std.specs.declared.option.Option.{Option};
ghost use Rattle.std.specs.Io.{ReadsAtMost};
ghost use Rattle.outside.specs.Causes.{HasCause};
ghost use Rattle.cta_journal.specs.Disk.{written, Only, IsPossible, Follows, Torn, Cut, ReadsAt, Elapses};

use outside::Failed;

/// One file that stays over a crash. What each call does is said where the disk tells its content: a disk over the machine's
/// files tells nothing, and one that tells nothing never does.
pub trait Disk {
    /// What a read gives, where it tells.
    ghost content: { Self → Option (List ℕ) };

    /// What a crash at this moment may leave.
    ghost may_leave: { Self → List ℕ → Type 0 };

    /// The moment, as a number that doesn't fall.
    ghost moment: { Self → ℕ };

    /// What a crash at some moment from that one on might have left, inside a call or between two.
    ghost left_since: { Self → ℕ → List ℕ → Type 0 };

    /// How often it has failed. At 2^64 - 1 the count stands.
    ghost fault_count: { Self → ℕ };

    /// Puts the bytes from this offset on at the front of `to` and answers how many.
    fn read(&mut self, at: u64, to: &mut [u8]) -> Result<usize, Failed>
        ensures bound { ReadsAtMost result to.new }
        ensures bytes { (file : List ℕ) → content self.old ≡ Some file → IfOk result (λ n. ReadsAt file at n to.new) }
        ensures content { content self.new ≡ content self.old }
        ensures crash { (c : List ℕ) → may_leave self.new c → may_leave self.old c }
        ensures possible { IsPossible (content self.old) (may_leave self.old) → IsPossible (content self.new) (may_leave self.new) }
        ensures time { Elapses (moment self.old) (moment self.new) (left_since self.old) (left_since self.new) (may_leave self.new) }
        ensures cause { HasCause (fault_count self.old) (fault_count self.new) result };

    /// Writes the piece over what stands there, and past the end. Until a sync, a crash may leave any bytes in the range.
    fn write_at(&mut self, at: u64, piece: &[u8]) -> Result<(), Failed>
        ensures bytes { (file : List ℕ) → content self.old ≡ Some file → at ≤ length file → OnOk result (content self.new ≡ Some (written file at piece.now)) }
        ensures crash { (file : List ℕ) → content self.old ≡ Some file → at ≤ length file → Follows (Torn at (length piece.now)) (may_leave self.old) (may_leave self.new) }
        ensures untold { content self.old ≡ None → content self.new ≡ None }
        ensures possible { IsPossible (content self.old) (may_leave self.old) → IsPossible (content self.new) (may_leave self.new) }
        ensures time { Elapses (moment self.old) (moment self.new) (left_since self.old) (left_since self.new) (may_leave self.new) }
        ensures cause { HasCause (fault_count self.old) (fault_count self.new) result };

    /// Cuts the file to a length.
    fn cut(&mut self, len: u64) -> Result<(), Failed>
        ensures bytes { (file : List ℕ) → content self.old ≡ Some file → len ≤ length file → OnOk result (content self.new ≡ Some (take len file)) }
        ensures crash { (file : List ℕ) → content self.old ≡ Some file → len ≤ length file → Follows (Cut len) (may_leave self.old) (may_leave self.new) }
        ensures untold { content self.old ≡ None → content self.new ≡ None }
        ensures possible { IsPossible (content self.old) (may_leave self.old) → IsPossible (content self.new) (may_leave self.new) }
        ensures time { Elapses (moment self.old) (moment self.new) (left_since self.old) (left_since self.new) (may_leave self.new) }
        ensures cause { HasCause (fault_count self.old) (fault_count self.new) result };

    /// After it, a crash leaves what a read gives.
    fn sync(&mut self) -> Result<(), Failed>
        ensures durable { (file : List ℕ) → content self.old ≡ Some file → OnOk result (Only file (may_leave self.new)) }
        ensures content { content self.new ≡ content self.old }
        ensures crash { (c : List ℕ) → may_leave self.new c → may_leave self.old c }
        ensures possible { IsPossible (content self.old) (may_leave self.old) → IsPossible (content self.new) (may_leave self.new) }
        ensures time { Elapses (moment self.old) (moment self.new) (left_since self.old) (left_since self.new) (may_leave self.new) }
        ensures cause { HasCause (fault_count self.old) (fault_count self.new) result };

    /// How often it has failed.
    fn faults(&self) -> u64
        ensures { result ≡ fault_count self.now };

    /// This moment is one of those since an earlier one.
    ghost counts_now: { (disk : Self) (t : ℕ) (c : List ℕ) → t ≤ moment disk → may_leave disk c → left_since disk t c };

    /// Since this moment there is no other.
    ghost only_now: { (disk : Self) (c : List ℕ) → left_since disk (moment disk) c → may_leave disk c };
}
