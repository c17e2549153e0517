// The lock of a folder.
ghost use Rattle.std.specs.Prelude.{◌≡◌};
ghost use Rattle.file_media.specs.Locks.{lock_error};

use crate::paths::{set_lock, with_room};
use cta_site::NoMemory;
use std::alloc::Global;
use std::fs::{File, TryLockError};
use std::rt::Files;

/// Why the lock of a folder isn't taken.
#[derive(Clone, Copy, Debug, PartialEq, Eq)]
pub enum LockErr {
    /// Another process holds it, or another value of this one.
    InUse,
    /// The folder or its file can't be opened for writing, or can't be locked.
    Fault,
    NoMemory,
}

impl From<NoMemory> for LockErr {
    ghost use Rattle.std.specs.Prelude.{◌≡◌};
    ghost use Rattle.file_media.specs.declared.folder_lock.LockErr.TheVariants.{NoMemory};

    ghost from_gives = { λ _ e. e ≡ NoMemory };

    fn from(_error: NoMemory) -> LockErr {
        LockErr::NoMemory
    }
}

/// The lock of a folder, by which no two processes keep records in one. It is the machine's exclusive lock (flock) of the file `cta.lock`
/// there, and is held for as long as this value lives, or until its process ends in any way. The file stays, and holds nothing. Who opens
/// the files of the folder without taking the lock isn't kept away. This project's own.
#[derive(Drop)]
pub struct FolderLock {
    file: File,
}

// Why the machine gave no lock.
fn error_of(error: &TryLockError) -> LockErr
    ensures { result ≡ lock_error error.now }
{
    match error {
        TryLockError::WouldBlock => LockErr::InUse,
        TryLockError::Error(_) => LockErr::Fault,
    }
}

impl FolderLock {
    /// Takes the lock of this folder, which has to be there, and makes its file where there is none. It waits for nobody: where
    /// another holds the lock, it is InUse. A folder that can't be written is a Fault as long as it has no `cta.lock`, and later where
    /// that file can't be opened for writing. It takes memory for one path, which it gives back.
    pub fn take<R: Files<File = File>>(
        alloc: Global,
        rt: &R,
        folder: &str,
    ) -> Result<FolderLock, LockErr> {
        let mut path = with_room(alloc, folder)?;
        if set_lock(&mut path, folder).is_err() {
            return Err(LockErr::NoMemory);
        }
        let Ok(file) = File::options()
            .write(true)
            .create(true)
            .open(rt, path.as_str())
        else {
            return Err(LockErr::Fault);
        };
        match file.try_lock() {
            Ok(()) => Ok(FolderLock { file }),
            Err(error) => Err(error_of(&error)),
        }
    }
}
