// The folder of a journal on the machine.
ghost use Rattle.std.specs.Prelude.{None};

use crate::folder::{FolderFault, JournalFolder};
use crate::paths::Paths;
use std::fs::File;
use std::io::{ErrorKind, Read, Seek, SeekFrom, Write};
use std::rt::Files;
use std::{fs, io};

// The most bytes that are moved at a time.
const PIECE: usize = 65536;

// The folder of a journal on the machine, with the journal's file and its copy, which are locked. It tells nothing of what its calls
// came to.
#[derive(Drop)]
pub(crate) struct MachineFolder<'r, R: Files> {
    pub(crate) rt: &'r R,
    pub(crate) paths: Paths,
    pub(crate) file: File,
    pub(crate) copy: Option<File>,
}

// A failed call as a FolderFault.
fn told<T: Drop>(answer: io::Result<T>) -> Result<(), FolderFault> {
    match answer {
        Ok(_) => Ok(()),
        Err(_) => Err(FolderFault),
    }
}

// Copies what reads give, in pieces. A copy that the system makes may share the blocks on the disk, and these may be what is wrong.
fn fill(from: &mut File, to: &mut File) -> io::Result<()> {
    let mut piece = [0u8; PIECE];
    for _ in 0..u64::MAX {
        let count = from.read(&mut piece)?;
        if count == 0 {
            break;
        }
        to.write_all(&piece[..count])?;
    }
    Ok(())
}

// Makes the file of the copy anew, with the rights of the journal's file, and takes its lock.
fn new_copy<R: Files<File = File>>(rt: &R, path: &str, file: &File) -> io::Result<File> {
    let rights = file.metadata()?.permissions();
    let copy = File::options()
        .read(true)
        .write(true)
        .create(true)
        .open(rt, path)?;
    if copy.try_lock().is_err() {
        return Err(io::Error::from(ErrorKind::WouldBlock));
    }
    copy.set_permissions(rights)?;
    copy.set_len(0)?;
    Ok(copy)
}

// Copies the file to the copy, and makes that durable.
fn fill_whole(file: &mut File, copy: &mut File) -> io::Result<()> {
    file.seek(SeekFrom::Start(0))?;
    fill(file, copy)?;
    copy.sync_all()
}

impl<'r, R: Files<File = File>> JournalFolder for MachineFolder<'r, R> {
    ghost done = { λ _. None };

    fn is_marked(&mut self) -> Result<bool, FolderFault> {
        match fs::symlink_metadata(self.rt, self.paths.mark.as_str()) {
            Ok(_) => Ok(true),
            Err(error) if error.kind() == ErrorKind::NotFound => Ok(false),
            Err(_) => Err(FolderFault),
        }
    }

    fn unmark(&mut self) -> Result<(), FolderFault> {
        told(fs::remove_file(self.rt, self.paths.mark.as_str()))
    }

    fn copy(&mut self) -> Result<(), FolderFault> {
        let Ok(mut copy) = new_copy(self.rt, self.paths.copy.as_str(), &self.file) else {
            return Err(FolderFault);
        };
        told(fill_whole(&mut self.file, &mut copy))?;
        self.copy = Some(copy);
        Ok(())
    }

    fn rename(&mut self) -> Result<(), FolderFault> {
        let Some(copy) = self.copy.take() else {
            return Err(FolderFault);
        };
        told(fs::rename(
            self.rt,
            self.paths.copy.as_str(),
            self.paths.journal.as_str(),
        ))?;
        self.file = copy;
        Ok(())
    }

    fn drop_copy(&mut self) {
        let _ = fs::remove_file(self.rt, self.paths.copy.as_str());
    }

    fn sync_file(&mut self) -> Result<(), FolderFault> {
        told(self.file.sync_all())
    }

    fn mark(&mut self) -> Result<(), FolderFault> {
        let Ok(mark) = File::create(self.rt, self.paths.mark.as_str()) else {
            return Err(FolderFault);
        };
        told(mark.sync_all())
    }

    fn sync_names(&mut self) -> Result<(), FolderFault> {
        let Ok(folder) = File::open(self.rt, self.paths.folder.as_str()) else {
            return Err(FolderFault);
        };
        told(folder.sync_all())
    }
}
