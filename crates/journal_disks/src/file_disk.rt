// A disk over a file of the machine.
ghost use Rattle.std.specs.Prelude.{◌≡◌, ◌<◌, None, IfOk, IsErr};
ghost use Rattle.journal_disks.specs.Machine.{file_faults, lock_error};

use crate::ending::{make_ready, say_ended};
use crate::folder::FolderFault;
use crate::machine_folder::MachineFolder;
use crate::paths::Paths;
use cta_journal::Disk;
use outside::Failed;
use std::alloc::Global;
use std::fs::{File, TryLockError};
use std::io::{ErrorKind, Read, Seek, SeekFrom, Write};
use std::os::unix::fs::MetadataExt;
use std::rt::Files;
use std::{fs, io};

/// Why the file of a journal isn't opened.
#[derive(Clone, Copy, Debug, PartialEq, Eq)]
pub enum FileErr {
    /// Another process holds it, or another value of this one. Nothing changed.
    InUse,
    /// It can't be opened for reading and writing, locked or copied, or it is no plain file of one name: a link, a folder or a device,
    /// say.
    Fault,
    NoMemory,
}

/// A file of the machine that is read and written at offsets. It tells nothing of content, and counts its faults. The file is held by
/// the machine's exclusive lock (flock) for as long as this value lives, or until its process ends in any way; who opens the file
/// without taking the lock isn't kept away. This project's own.
#[derive(Drop)]
pub struct FileDisk {
    // `None` where no file is open.
    file: Option<File>,
    paths: Paths,
    // Whether it was cut since the last sync.
    is_cut: bool,
    faults: u64,
}

// Why the machine gave no lock.
fn error_of(error: &TryLockError) -> FileErr
    ensures { result ≡ lock_error error.now }
{
    match error {
        TryLockError::WouldBlock => FileErr::InUse,
        TryLockError::Error(_) => FileErr::Fault,
    }
}

// Opens a plain file, and makes it where there is none. It opens nothing else.
fn opened<R: Files<File = File>>(rt: &R, path: &str) -> io::Result<File> {
    let is_new = match fs::symlink_metadata(rt, path) {
        Ok(found) => {
            if !found.is_file() {
                return Err(io::Error::from(ErrorKind::Unsupported));
            }
            false
        }
        Err(error) => {
            if error.kind() != ErrorKind::NotFound {
                return Err(error);
            }
            true
        }
    };
    File::options()
        .read(true)
        .write(true)
        .create(is_new)
        .open(rt, path)
}

// Whether a file that is locked is the one of that path, and has no other name. It is not where another process has put its copy there
// between the opening and the lock.
fn has_place<R: Files>(rt: &R, file: &File, path: &str) -> Result<(), FileErr> {
    let Ok(held) = file.metadata() else {
        return Err(FileErr::Fault);
    };
    let Ok(named) = fs::symlink_metadata(rt, path) else {
        return Err(FileErr::Fault);
    };
    if held.dev() != named.dev() || held.ino() != named.ino() {
        return Err(FileErr::InUse);
    }
    if !held.is_file() || held.nlink() != 1 {
        return Err(FileErr::Fault);
    }
    Ok(())
}

// Opens the file and takes its lock.
fn locked<R: Files<File = File>>(rt: &R, path: &str) -> Result<File, FileErr> {
    let Ok(file) = opened(rt, path) else {
        return Err(FileErr::Fault);
    };
    if let Err(error) = file.try_lock() {
        return Err(error_of(&error));
    }
    has_place(rt, &file, path)?;
    Ok(file)
}

impl FileDisk {
    /// Opens the file at this path, makes it where there is none, locks it, and makes it ready: `make_ready` says how. It waits for
    /// nobody. Beside the file stand `PATH.new`, the copy while it has no other name, and `PATH.ended`, the mark that the last run ended
    /// well.
    pub fn open<R: Files<File = File>>(
        alloc: Global,
        rt: &R,
        path: &str,
    ) -> Result<FileDisk, FileErr>
        ensures { IfOk result (λ d. file_faults d ≡ 0) }
    {
        let Ok(paths) = Paths::of(alloc, path) else {
            return Err(FileErr::NoMemory);
        };
        let file = locked(rt, path)?;
        let mut folder = MachineFolder {
            rt,
            paths,
            file,
            copy: None,
        };
        if make_ready(&mut folder).is_err() {
            return Err(FileErr::Fault);
        }
        Ok(FileDisk {
            file: Some(folder.file),
            paths: folder.paths,
            is_cut: false,
            faults: 0,
        })
    }

    /// A disk with no file, as of one that can't be opened: each call fails and counts.
    pub fn without_file(alloc: Global) -> FileDisk
        ensures { file_faults result ≡ 0 }
    {
        FileDisk {
            file: None,
            paths: Paths::none(alloc),
            is_cut: false,
            faults: 0,
        }
    }

    /// Lets the file go, and says that the run ended well, where no call on this disk has failed: `say_ended` says how. Without it, and
    /// where it fails, the next opening copies the file.
    pub fn finish<R: Files<File = File>>(self, rt: &R) -> Result<(), FolderFault>
        ensures { 0 < file_faults self → IsErr result }
    {
        let is_clean = self.faults == 0;
        let Some(file) = self.file else {
            return Err(FolderFault);
        };
        let mut folder = MachineFolder {
            rt,
            paths: self.paths,
            file,
            copy: None,
        };
        say_ended(&mut folder, is_clean)
    }
}

// Moves to the place where the next read or write begins.
fn moved(file: &mut File, at: u64) -> Result<(), Failed> {
    match file.seek(SeekFrom::Start(at)) {
        Ok(_) => Ok(()),
        Err(_) => Err(Failed),
    }
}

impl Disk for FileDisk {
    ghost content = { λ _. None };

    ghost may_leave = { λ _ _. Unit {0} };

    ghost moment = { λ _. 0 };

    ghost left_since = { λ _ _ _. Unit {0} };

    ghost fault_count = { λ d. d.faults };

    ghost counts_now = { λ _ _ _ _ _. tt };

    ghost only_now = { λ _ _ _. tt };

    fn read(&mut self, at: u64, to: &mut [u8]) -> Result<usize, Failed> {
        if let Some(file) = &mut self.file {
            if moved(file, at).is_ok() {
                if let Ok(count) = file.read(to) {
                    return Ok(count);
                }
            }
        }
        self.faults = self.faults.saturating_add(1);
        Err(Failed)
    }

    fn write_at(&mut self, at: u64, piece: &[u8]) -> Result<(), Failed> {
        if let Some(file) = &mut self.file {
            if moved(file, at).is_ok() && file.write_all(piece).is_ok() {
                return Ok(());
            }
        }
        self.faults = self.faults.saturating_add(1);
        Err(Failed)
    }

    fn cut(&mut self, len: u64) -> Result<(), Failed> {
        self.is_cut = true;
        if let Some(file) = &mut self.file {
            if file.set_len(len).is_ok() {
                return Ok(());
            }
        }
        self.faults = self.faults.saturating_add(1);
        Err(Failed)
    }

    /// Makes the content durable (fdatasync), and after a cut all that the machine keeps of the file (fsync).
    fn sync(&mut self) -> Result<(), Failed> {
        if let Some(file) = &mut self.file {
            let done = if self.is_cut {
                file.sync_all()
            } else {
                file.sync_data()
            };
            if done.is_ok() {
                self.is_cut = false;
                return Ok(());
            }
        }
        self.faults = self.faults.saturating_add(1);
        Err(Failed)
    }

    fn faults(&self) -> u64 {
        self.faults
    }
}
