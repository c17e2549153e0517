// A folder of the machine.
ghost use Rattle.std.specs.Prelude.{None};

use crate::disk::{Disk, DiskErr, DiskFault, FileName};
use crate::paths::{set_folder, set_path, with_room};
use blob::{Blob, BlobMaker};
use cta_site::{NoMemory, Text};
use std::alloc::Global;
use std::fs::{File, OpenFile};
use std::io::{ErrorKind, Read, Write};
use std::rt::Files;
use std::{fs, io};

// The most bytes that are moved at a time.
const PIECE: usize = 65536;

/// A folder of the machine. It tells nothing of what its calls came to. Its paths have their room from the start, so that only
/// `read` and `names` take memory.
#[derive(Drop)]
pub struct MachineDisk<'r, R: Files> {
    alloc: Global,
    rt: &'r R,
    folder: Text,
    path: String,
    other: String,
}

impl<'r, R: Files> MachineDisk<'r, R> {
    /// The folder of this path, which is looked at by no call before the first. It takes memory for three paths.
    pub fn new(alloc: Global, rt: &'r R, folder: Text) -> Result<MachineDisk<'r, R>, NoMemory> {
        let path = with_room(alloc, folder.as_str())?;
        let other = with_room(alloc, folder.as_str())?;
        Ok(MachineDisk {
            alloc,
            rt,
            folder,
            path,
            other,
        })
    }
}

// Writes a content to a file, in pieces.
fn fill<F: Write>(file: &mut F, blob: &Blob) -> io::Result<()> {
    let mut piece = [0u8; PIECE];
    let mut from = 0u64;
    for _ in 0..u64::MAX {
        let count = blob.piece(from, &mut piece);
        if count == 0 {
            break;
        }
        file.write_all(&piece[..count])?;
        from = from.saturating_add(count as u64);
    }
    Ok(())
}

// Makes or replaces a file with this content, and makes the content durable.
fn put_file<R: Files>(rt: &R, path: &str, blob: &Blob) -> io::Result<()> {
    let mut file = File::create(rt, path)?;
    fill(&mut file, blob)?;
    file.sync_all()
}

// Takes what a file has left, in pieces.
fn take_all<F: Read>(file: &mut F, maker: &mut BlobMaker) -> Result<(), DiskErr> {
    let mut piece = [0u8; PIECE];
    for _ in 0..u64::MAX {
        match file.read(&mut piece) {
            Ok(0) => return Ok(()),
            Ok(count) => maker.push(&piece[..count]).map_err(|_| DiskErr::NoMemory)?,
            Err(error) => {
                if error.kind() != ErrorKind::Interrupted {
                    return Err(DiskErr::Fault);
                }
            }
        }
    }
    Err(DiskErr::Fault)
}

// The content of a file.
fn take_file<R: Files>(rt: &R, alloc: Global, path: &str) -> Result<Blob, DiskErr> {
    let Ok(mut file) = File::open(rt, path) else {
        return Err(DiskErr::Fault);
    };
    let mut maker = BlobMaker::new(alloc);
    take_all(&mut file, &mut maker)?;
    match maker.finish() {
        Ok(blob) => Ok(blob),
        Err(_) => Err(DiskErr::NoMemory),
    }
}

// Whether no file has this path.
fn is_free<R: Files>(rt: &R, path: &str) -> bool {
    match fs::symlink_metadata(rt, path) {
        Ok(_) => false,
        Err(error) => error.kind() == ErrorKind::NotFound,
    }
}

// Whether a removal has left no file of that path.
fn is_gone(removed: io::Result<()>) -> bool {
    match removed {
        Ok(()) => true,
        Err(error) => error.kind() == ErrorKind::NotFound,
    }
}

// A failed call as a DiskFault.
fn told<T: Drop>(answer: io::Result<T>) -> Result<(), DiskFault> {
    match answer {
        Ok(_) => Ok(()),
        Err(_) => Err(DiskFault),
    }
}

// Adds the names of a piece, each of which is ended by a 0.
fn add_names(alloc: Global, names: &mut Vec<Vec<u8>>, piece: &[u8]) -> Result<(), NoMemory> {
    for name in piece.split(|b| *b == 0) {
        if !name.is_empty() {
            let name = Vec::from_slice(alloc, name)?;
            names.push(name)?;
        }
    }
    Ok(())
}

// All names that a directory has left.
fn take_names<T: Read>(alloc: Global, dir: &mut T) -> Result<Vec<Vec<u8>>, DiskErr> {
    let mut names = Vec::new(alloc);
    let mut piece = [0u8; PIECE];
    for _ in 0..u64::MAX {
        let Ok(count) = dir.read(&mut piece) else {
            return Err(DiskErr::Fault);
        };
        if count == 0 {
            return Ok(names);
        }
        add_names(alloc, &mut names, &piece[..count])?;
    }
    Err(DiskErr::Fault)
}

impl<'r, R: Files> Disk for MachineDisk<'r, R> {
    ghost done = { λ _. None };

    fn open(&mut self) -> Result<(), DiskFault> {
        told(File::open(self.rt, self.folder.as_str()))
    }

    /// Where it fails, it drops what was written.
    fn put(&mut self, name: FileName<'_>, blob: &Blob) -> Result<(), DiskFault> {
        set_path(&mut self.path, self.folder.as_str(), name)?;
        let made = told(put_file(self.rt, self.path.as_str(), blob));
        if made.is_err() {
            let _ = fs::remove_file(self.rt, self.path.as_str());
        }
        made
    }

    /// It looks first whether a file has the other name: no other server is at work in the folder, whose lock main holds.
    fn rename(&mut self, from: FileName<'_>, to: FileName<'_>) -> Result<(), DiskFault> {
        set_path(&mut self.path, self.folder.as_str(), from)?;
        set_path(&mut self.other, self.folder.as_str(), to)?;
        if !is_free(self.rt, self.other.as_str()) {
            return Err(DiskFault);
        }
        told(fs::rename(self.rt, self.path.as_str(), self.other.as_str()))
    }

    /// A file that isn't there counts as dropped: after a power cut a folder may lack one in the middle, and a write drops those
    /// behind it too.
    fn remove(&mut self, name: FileName<'_>) -> Result<(), DiskFault> {
        set_path(&mut self.path, self.folder.as_str(), name)?;
        if is_gone(fs::remove_file(self.rt, self.path.as_str())) {
            Ok(())
        } else {
            Err(DiskFault)
        }
    }

    fn read(&mut self, name: FileName<'_>) -> Result<Blob, DiskErr> {
        if set_path(&mut self.path, self.folder.as_str(), name).is_err() {
            return Err(DiskErr::Fault);
        }
        take_file(self.rt, self.alloc, self.path.as_str())
    }

    fn sync(&mut self) -> Result<(), DiskFault> {
        let Ok(folder) = File::open(self.rt, self.folder.as_str()) else {
            return Err(DiskFault);
        };
        told(folder.sync_all())
    }

    fn names(&mut self) -> Result<Vec<Vec<u8>>, DiskErr> {
        if set_folder(&mut self.path, self.folder.as_str()).is_err() {
            return Err(DiskErr::Fault);
        }
        let Ok(mut dir) = self.rt.open_dir(self.path.as_str()) else {
            return Err(DiskErr::Fault);
        };
        take_names(self.alloc, &mut dir)
    }
}
