// A folder of files, as drives use it.
ghost use Rattle.std.specs.Prelude.{◌≡◌, List, Option, is_ok};
ghost use Rattle.file_media.specs.Disks.{DiskCall, Got, Listed, Opened, Put, Removed, Renamed, Synced, after_call, given_bytes, given_names};
ghost use Rattle.file_media.specs.Names.{file_text};

use blob::Blob;
use cta_site::NoMemory;

/// The name of a file of the folder: of the record of a tape at an fSeq, `VID.FSEQ`, or, where it is not whole, of what is
/// written of it, `VID.FSEQ.part`. A VID has no `/`, so this is one name of the folder. This project's own.
#[derive(Clone, Copy, Debug, PartialEq, Eq)]
pub struct FileName<'a> {
    pub vid: &'a str,
    pub fseq: u32,
    pub whole: bool,
}

/// An operation on a file or on the folder failed.
#[derive(Clone, Copy, Debug, PartialEq, Eq)]
pub struct DiskFault;

/// Why a call that wants memory gives nothing: an operation failed, or an allocation did.
#[derive(Clone, Copy, Debug, PartialEq, Eq)]
pub enum DiskErr {
    Fault,
    NoMemory,
}

impl From<NoMemory> for DiskErr {
    ghost use Rattle.std.specs.Prelude.{◌≡◌};
    ghost use Rattle.file_media.specs.declared.disk.DiskErr.TheVariants.{NoMemory};

    ghost from_gives = { λ _ e. e ≡ NoMemory };

    fn from(_error: NoMemory) -> DiskErr {
        DiskErr::NoMemory
    }
}

/// A folder with the operations that drives need. It may tell which calls were made and what each came to; the machine's
/// disk doesn't. Only `read` and `names` want memory. This project's own.
pub trait Disk {
    // The calls that were made, the newest first, where it tells them. No call changes whether it does.
    ghost done: { Self → Option (List DiskCall) };

    /// Looks whether the folder is there. It changes nothing.
    fn open(&mut self) -> Result<(), DiskFault>
        ensures { done self.new ≡ after_call (Opened (is_ok result)) (done self.old) };

    /// Makes or replaces the file of this name with this content, and makes the content durable. After a DiskFault there is
    /// no such file, or one with some of the content.
    fn put(&mut self, name: FileName<'_>, blob: &Blob) -> Result<(), DiskFault>
        ensures { done self.new ≡ after_call (Put (file_text name.entry) blob.now (is_ok result)) (done self.old) };

    /// Gives a file another name, which no file has. It fails where one has it, and then both stay.
    fn rename(&mut self, from: FileName<'_>, to: FileName<'_>) -> Result<(), DiskFault>
        ensures { done self.new ≡ after_call (Renamed (file_text from.entry) (file_text to.entry) (is_ok result)) (done self.old) };

    /// Drops the file of this name. Where there is none, nothing changes, and it is Ok.
    fn remove(&mut self, name: FileName<'_>) -> Result<(), DiskFault>
        ensures { done self.new ≡ after_call (Removed (file_text name.entry) (is_ok result)) (done self.old) };

    /// The content of the file of this name, all of it. It changes nothing.
    fn read(&mut self, name: FileName<'_>) -> Result<Blob, DiskErr>
        ensures { done self.new ≡ after_call (Got (file_text name.entry) (given_bytes result)) (done self.old) };

    /// Makes the names of the folder durable.
    fn sync(&mut self) -> Result<(), DiskFault>
        ensures { done self.new ≡ after_call (Synced (is_ok result)) (done self.old) };

    /// The names of the folder, in any order. It changes nothing.
    fn names(&mut self) -> Result<Vec<Vec<u8>>, DiskErr>
        ensures { done self.new ≡ after_call (Listed (given_names result)) (done self.old) };
}
