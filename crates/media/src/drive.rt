// A tape drive, as contracts see it.
ghost use Rattle.std.specs.Prelude.{◌≡◌, false, true};
ghost use Rattle.std.specs.Arc.{arc_value};
ghost use Rattle.blob.specs.Records.{with_records};
ghost use Rattle.blob.specs.Sums.{sum_of};
ghost use Rattle.cta_site.specs.declared.site.CallKind.TheVariants as kind;
ghost use Rattle.media.specs.Drives.{DriveView, HasAnswered, WantsNoMemory, error_of};
ghost use Rattle.media.specs.Reads.{HasRead, MayRead};
ghost use Rattle.media.specs.Records.{HasFlushed, HasWritten, MayWrite, unloaded};

use blob::{Blob, Told};
use std::sync::Arc;

/// Why a call of a drive gives nothing: at `Fault` the drive's count of faults of that kind of call rose in the call, or
/// stands at its last value, and at `NoMemory` the drive, but for one call more, and the medium are as before.
#[derive(Clone, Copy, Debug, PartialEq, Eq)]
pub enum DeviceErr {
    Fault,
    NoMemory,
}

/// A tape drive, which reads and writes the records of one medium at a time. Records count from fSeq 1, and a record that
/// was written is pending until a flush makes it safe. What is said of records is said of a medium that tells them, and no
/// call changes whether a drive or a medium tells, a medium's label, what a drive plans, or whether it is honest: whether a read
/// of a safe record gives what was written. Each call is counted, also one that wants memory, and a count of faults never falls. This project's own.
pub trait TapeDrive {
    type Medium: Told + Drop;

    // Whether the drive is loaded, whether it is honest, how many calls were made, its counts of faults, and its plan where it tells one.
    ghost seen: { Self → DriveView };

    /// Loads the medium into a drive that is not loaded, which it then is. After a Fault it is not. The records stay.
    fn load(&mut self, medium: &mut Self::Medium) -> Result<(), DeviceErr>
        requires { (seen self.old).loaded ≡ false }
        ensures drive { HasAnswered kind.Load (seen self.old) (seen self.new) (error_of result) }
        ensures records { Self.Medium.told medium.new ≡ Self.Medium.told medium.old }
        ensures memory { WantsNoMemory (error_of result) };

    /// Writes the content at `fseq`, from 1 to one more than the records: the records from there on are dropped, and the
    /// content is a pending one. After a Fault the records below `fseq` stay, and those from there on may be cut at any
    /// place.
    fn write(
        &mut self,
        medium: &mut Self::Medium,
        fseq: u32,
        blob: &Arc<Blob>,
    ) -> Result<(), DeviceErr>
        requires loaded { (seen self.old).loaded ≡ true }
        requires place { MayWrite fseq (Self.Medium.told medium.old) }
        ensures drive { HasAnswered kind.Write (seen self.old) (seen self.new) (error_of result) }
        ensures records { HasWritten fseq (sum_of (arc_value blob.now)) (Self.Medium.told medium.old) (Self.Medium.told medium.new) (error_of result) };

    /// Makes all pending records safe. After a Fault the safe records stay, and the pending ones may be cut at any place.
    fn flush(&mut self, medium: &mut Self::Medium) -> Result<(), DeviceErr>
        requires { (seen self.old).loaded ≡ true }
        ensures drive { HasAnswered kind.Flush (seen self.old) (seen self.new) (error_of result) }
        ensures records { HasFlushed (Self.Medium.told medium.old) (Self.Medium.told medium.new) (error_of result) }
        ensures memory { WantsNoMemory (error_of result) };

    /// The content of the safe record at `fseq`: as it was written where the drive is honest, and where it tells its plan
    /// altered exactly where the plan says so. The records stay.
    fn read(&mut self, medium: &mut Self::Medium, fseq: u32) -> Result<Blob, DeviceErr>
        requires loaded { (seen self.old).loaded ≡ true }
        requires place { MayRead fseq (Self.Medium.told medium.old) }
        ensures drive { HasAnswered kind.Read (seen self.old) (seen self.new) (error_of result) }
        ensures records { Self.Medium.told medium.new ≡ Self.Medium.told medium.old }
        ensures bytes { HasRead (seen self.old) (Self.Medium.told medium.old) fseq result };

    /// Unloads the medium, whose pending records are dropped, whether this succeeds or fails. The drive is not loaded then.
    fn unload(&mut self, medium: &mut Self::Medium) -> Result<(), DeviceErr>
        requires { (seen self.old).loaded ≡ true }
        ensures drive { HasAnswered kind.Unload (seen self.old) (seen self.new) (error_of result) }
        ensures records { Self.Medium.told medium.new ≡ with_records unloaded (Self.Medium.told medium.old) }
        ensures memory { WantsNoMemory (error_of result) };
}
