// A drive over a disk.
ghost use Rattle.std.specs.Prelude.{◌≡◌, ◌&&◌, false, true, is_ok, OnOk, OnErr, Result};
ghost use Rattle.std.specs.Arc.{arc_value};
ghost use Rattle.blob.specs.Records.{with_records};
ghost use Rattle.blob.specs.Sums.{sum_of};
ghost use Rattle.cta_site.specs.declared.site.CallKind.TheVariants as kind;
ghost use Rattle.media.specs.Drives.{HasAnswered, WantsNoMemory, error_of};
ghost use Rattle.media.specs.Reads.{HasRead};
ghost use Rattle.media.specs.Records.{HasFlushed, HasWritten, unloaded};
ghost use Rattle.file_media.specs.Calls.{LoadsMedium, ReadsRecord, SyncsNames, WritesRecord};
ghost use Rattle.file_media.specs.Disks.{ok_value};

use crate::disk::{Disk, DiskErr};
use crate::file_medium::FileMedium;
use crate::records::write_record;
use crate::tally::Tally;
use blob::Blob;
use cta_site::CallKind;
use media::{DeviceErr, TapeDrive};
use std::sync::Arc;

/// A drive that keeps each record in a file of its disk. It tells no plan, and promises nothing of what files give. A write
/// makes its content durable under the name of no record, and then gives it the record's; a flush makes the names durable, and is
/// Ok only where no write and no sync has failed since the load. So what was flushed outlasts the machine. It drops and replaces
/// only records that its own process wrote, or with which its bench goes on: of a bench made by `FileBench::new`, a tape of which
/// the folder held records before is never loaded. Only a read takes memory, for the content.
#[derive(Drop)]
pub struct FileDrive<D> {
    disk: D,
    tally: Tally,
    // Whether no write and no sync has failed since the load.
    clean: bool,
}

impl<D: Disk> FileDrive<D> {
    ghost use Rattle.file_media.specs.Views.{disk_of, file_view, new_view};

    /// A drive over this disk, which is not loaded and was not called. It takes no memory and constant time.
    pub fn new(disk: D) -> FileDrive<D>
        ensures drive { file_view result ≡ new_view }
        ensures disk { disk_of result ≡ disk }
    {
        FileDrive {
            disk,
            tally: Tally::new(),
            clean: true,
        }
    }
}

impl<D: Disk> TapeDrive for FileDrive<D> {
    type Medium = FileMedium;

    ghost use Rattle.file_media.specs.Views.{IsFlushed, IsWrittenAt, disk_of, file_medium, file_view, is_clean, is_foreign, last_safe, last_written, medium_vid, unloaded_medium};

    ghost seen = { λ d. file_view d };

    /// Looks whether the folder is there. A foreign medium, which the bench says not to load, is a Fault at each load.
    fn load(&mut self, medium: &mut FileMedium) -> Result<(), DeviceErr>
        ensures drive { HasAnswered kind.Load (file_view self.old) (file_view self.new) (error_of result) }
        ensures records { file_medium medium.new ≡ file_medium medium.old }
        ensures memory { WantsNoMemory (error_of result) }
        ensures files { LoadsMedium (is_foreign medium.old) (D.done (disk_of self.old)) (D.done (disk_of self.new)) (is_ok result) }
        ensures clean { OnOk result (is_clean self.new ≡ true) }
        ensures same { medium.new ≡ medium.old }
    {
        if medium.foreign || self.disk.open().is_err() {
            return Err(self.tally.fail(CallKind::Load));
        }
        self.clean = true;
        self.tally.succeed(CallKind::Load);
        Ok(())
    }

    /// Drops the tape's files from `fseq` on, as far as the medium knows of some, and writes the record. It wants no memory. An fSeq
    /// of 0, or behind one more than the records, is a Fault.
    #[tactic(auto, using(crate::proofs::Untold::none_written))]
    fn write(
        &mut self,
        medium: &mut FileMedium,
        fseq: u32,
        blob: &Arc<Blob>,
    ) -> Result<(), DeviceErr>
        ensures drive { HasAnswered kind.Write (file_view self.old) (file_view self.new) (error_of result) }
        ensures records { HasWritten fseq (sum_of (arc_value blob.now)) (file_medium medium.old) (file_medium medium.new) (error_of result) }
        ensures files { WritesRecord (medium_vid medium.old) fseq (last_written medium.old) (arc_value blob.now) (D.done (disk_of self.old)) (D.done (disk_of self.new)) (is_ok result) }
        ensures clean { is_clean self.new ≡ (is_ok result && is_clean self.old) }
        ensures places { IsWrittenAt fseq medium.old medium.new (is_ok result) }
        ensures same { (medium_vid medium.new ≡ medium_vid medium.old) × (is_foreign medium.new ≡ is_foreign medium.old) }
        ensures memory { WantsNoMemory (error_of result) }
    {
        if write_record(&mut self.disk, medium, fseq, blob).is_err() {
            self.clean = false;
            return Err(self.tally.fail(CallKind::Write));
        }
        self.tally.succeed(CallKind::Write);
        Ok(())
    }

    /// Makes the names of the folder durable. It is Ok only where that was, and no write and no sync failed since the load.
    fn flush(&mut self, medium: &mut FileMedium) -> Result<(), DeviceErr>
        ensures drive { HasAnswered kind.Flush (file_view self.old) (file_view self.new) (error_of result) }
        ensures records { HasFlushed (file_medium medium.old) (file_medium medium.new) (error_of result) }
        ensures memory { WantsNoMemory (error_of result) }
        ensures files { SyncsNames (is_clean self.old) (D.done (disk_of self.old)) (D.done (disk_of self.new)) (is_ok result) }
        ensures clean { is_clean self.new ≡ is_ok result }
        ensures safe { IsFlushed medium.old medium.new (is_ok result) }
    {
        if self.disk.sync().is_err() {
            self.clean = false;
        }
        if !self.clean {
            return Err(self.tally.fail(CallKind::Flush));
        }
        medium.safe = medium.records;
        self.tally.succeed(CallKind::Flush);
        Ok(())
    }

    /// The whole file of a safe record. Any other fSeq is a Fault.
    fn read(&mut self, medium: &mut FileMedium, fseq: u32) -> Result<Blob, DeviceErr>
        ensures drive { HasAnswered kind.Read (file_view self.old) (file_view self.new) (error_of result) }
        ensures records { file_medium medium.new ≡ file_medium medium.old }
        ensures bytes { HasRead (file_view self.old) (file_medium medium.old) fseq result }
        ensures files { ReadsRecord (medium_vid medium.old) fseq (last_safe medium.old) (D.done (disk_of self.old)) (D.done (disk_of self.new)) (ok_value result) }
        ensures clean { is_clean self.new ≡ is_clean self.old }
        ensures same { medium.new ≡ medium.old }
    {
        if fseq == 0 || fseq > medium.safe {
            return Err(self.tally.fail(CallKind::Read));
        }
        match self.disk.read(medium.record(fseq)) {
            Ok(blob) => {
                self.tally.succeed(CallKind::Read);
                Ok(blob)
            }
            Err(DiskErr::NoMemory) => Err(self.tally.want()),
            Err(DiskErr::Fault) => Err(self.tally.fail(CallKind::Read)),
        }
    }

    /// It does nothing on the disk: the files of the records that it drops stay until the next write of the tape.
    fn unload(&mut self, medium: &mut FileMedium) -> Result<(), DeviceErr>
        ensures drive { HasAnswered kind.Unload (file_view self.old) (file_view self.new) (error_of result) }
        ensures records { file_medium medium.new ≡ with_records unloaded (file_medium medium.old) }
        ensures memory { WantsNoMemory (error_of result) }
        ensures files { D.done (disk_of self.new) ≡ D.done (disk_of self.old) }
        ensures safe { medium.new ≡ unloaded_medium medium.old }
    {
        medium.records = medium.safe;
        self.tally.succeed(CallKind::Unload);
        Ok(())
    }
}
