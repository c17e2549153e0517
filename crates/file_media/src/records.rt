// Records of a medium on a disk.
ghost use Rattle.std.specs.Prelude.{◌≡◌, ◌≤◌, ◌+◌, ◌-◌, is_ok};
ghost use Rattle.file_media.specs.Calls.{PutsRecord, RemovesFrom, WritesRecord};
ghost use Rattle.file_media.specs.Views.{IsWrittenAt};

use crate::disk::{Disk, DiskFault};
use crate::file_medium::FileMedium;
use blob::Blob;

// Drops the records that the medium knows of from an fSeq on, the last one first.
fn cut<D: Disk>(disk: &mut D, medium: &mut FileMedium, fseq: u32) -> Result<(), DiskFault>
    requires from { 1 ≤ fseq }
    requires to { fseq ≤ medium.old.written + 1 }
    ensures done { RemovesFrom medium.old.vid fseq medium.old.written (D.done disk.old) (D.done disk.new) (is_ok result) }
    ensures written { (fseq ≤ medium.new.written + 1) × (medium.new.written ≤ medium.old.written) }
    ensures same { (medium.new.tape ≡ medium.old.tape) × (medium.new.vid ≡ medium.old.vid) × (medium.new.foreign ≡ medium.old.foreign) × (medium.new.safe ≡ medium.old.safe) × (medium.new.records ≡ medium.old.records) }
{
    while medium.written >= fseq {
        disk.remove(medium.record(medium.written))?;
        medium.written -= 1;
    }
    Ok(())
}

// Writes a record at an fSeq that is free: whole under a name of no record, and then under its own.
fn put_whole<D: Disk>(
    disk: &mut D,
    medium: &FileMedium,
    fseq: u32,
    blob: &Blob,
) -> Result<(), DiskFault>
    ensures { PutsRecord medium.now.vid fseq blob.now (D.done disk.old) (D.done disk.new) (is_ok result) }
{
    disk.put(medium.part(fseq), blob)?;
    disk.rename(medium.part(fseq), medium.record(fseq))
}

// Writes a record at an fSeq, from 1 to one more than the records, and drops the files that the medium knows of from there on.
pub(crate) fn write_record<D: Disk>(
    disk: &mut D,
    medium: &mut FileMedium,
    fseq: u32,
    blob: &Blob,
) -> Result<(), DiskFault>
    ensures done { WritesRecord medium.old.vid fseq medium.old.written blob.now (D.done disk.old) (D.done disk.new) (is_ok result) }
    ensures places { IsWrittenAt fseq medium.old medium.new (is_ok result) }
    ensures same { (medium.new.tape ≡ medium.old.tape) × (medium.new.vid ≡ medium.old.vid) × (medium.new.foreign ≡ medium.old.foreign) }
{
    if fseq == 0 || fseq - 1 > medium.records.min(medium.written) {
        return Err(DiskFault);
    }
    medium.safe = medium.safe.min(fseq - 1);
    medium.records = fseq - 1;
    cut(disk, medium, fseq)?;
    put_whole(disk, medium, fseq, blob)?;
    medium.written = fseq;
    medium.records = fseq;
    Ok(())
}
