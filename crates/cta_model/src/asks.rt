// What the archive is asked.
ghost use Rattle.std.specs.Prelude.{◌≡◌, IfOk};

use blob::Sum256;
use cta_site::{NoMemory, Rows, TapeState, Text};

/// Who asks: the requester and the group that the front end vouches for. Each is at most 128 bytes, and empty where it is
/// not said. This project's own.
#[derive(Drop)]
pub struct Who {
    pub requester: Text,
    pub group: Text,
}

impl Who {
    /// The same names once more. An error leaves nothing. Its cost is the length of the names.
    pub fn copy(&self) -> Result<Who, NoMemory>
        ensures { IfOk result (λ who. who ≡ self.now) }
    {
        let requester = self.requester.copy()?;
        let group = self.group.copy()?;
        Ok(Who { requester, group })
    }
}

/// A job: the number of the entry that it was born by, the number of its file, and the copy, from 1; copy 0 is the file's
/// recall. Jobs are ordered by birth, then file, then copy.
#[derive(Clone, Copy, Debug, PartialEq, Eq, PartialOrd, Ord)]
pub struct Job {
    pub birth: u32,
    pub file: u32,
    pub copy: u8,
}

/// An item of a batch: its job, the fSeq (from 1) at which it is written or read, and the sum of its file.
#[derive(Clone, Copy)]
pub struct Item {
    pub job: Job,
    pub fseq: u32,
    pub sum: Sum256,
}

/// A file that a stage request wants, and for how many seconds it is to stay on disk; the site's limit where it is not
/// said.
#[derive(Drop)]
pub struct Wanted {
    pub path: Text,
    pub lifetime: Option<u64>,
}

/// Which way a mount goes: files are written to its tape, or read from it.
#[derive(Clone, Copy, Debug, PartialEq, Eq)]
pub enum Direction {
    Archive,
    Retrieve,
}

/// What a drive session met. A mismatch is a read whose length or SHA-256 is not the catalogue's.
#[derive(Clone, Copy)]
pub enum Fault {
    Load,
    Write,
    Flush,
    Read,
    Unload,
    Mismatch { found: Sum256, wanted: Sum256 },
}

/// What became of an item that was flushed or read: its job was live, or had ended.
#[derive(Clone, Copy, Debug, PartialEq, Eq)]
pub enum Fate {
    Done,
    Stale,
}

/// What changes the archive, if it is accepted. Drives and tapes are named by their numbers in the site, requests by the
/// number of their Stage or Repack, and mounts by the number of their Next. The six from `Next` to `End` are a drive
/// session's, all others a caller's.
#[derive(Drop)]
pub enum Ask {
    /// A file of this sum is put into the buffer under a path.
    Put {
        who: Who,
        path: Text,
        sum: Sum256,
    },
    /// The path names no file from then on.
    Delete {
        who: Who,
        path: Text,
    },
    /// Files are wanted on disk.
    Stage {
        who: Who,
        files: Rows<Wanted>,
    },
    /// Files of a stage request are not wanted any more.
    Cancel {
        who: Who,
        id: u32,
        paths: Rows<Text>,
    },
    /// A stage request is given up whole.
    DropStage {
        who: Who,
        id: u32,
    },
    /// Files of a stage request need not stay on disk.
    Release {
        who: Who,
        id: u32,
        paths: Rows<Text>,
    },
    /// A free drive asks what to mount.
    Next {
        drive: u32,
    },
    /// A mount asks for its next batch.
    Claim {
        mount: u32,
    },
    /// The items of the mount's last batch were flushed.
    Flushed {
        mount: u32,
        items: Rows<Item>,
    },
    /// A file was read whole, with its own sum.
    Recalled {
        mount: u32,
        job: Job,
    },
    /// A device call failed: these jobs are charged for it, and those go back uncharged.
    Failed {
        mount: u32,
        fault: Fault,
        charged: Rows<Job>,
        returned: Rows<Job>,
    },
    /// The mount is over, perhaps with a fault of the load or unload.
    End {
        mount: u32,
        fault: Option<Fault>,
    },
    /// The drive takes mounts again.
    DriveUp {
        who: Who,
        drive: u32,
    },
    /// The drive takes no more mounts.
    DriveDown {
        who: Who,
        drive: u32,
    },
    /// The tape gets a state.
    TapeState {
        who: Who,
        tape: u32,
        state: TapeState,
    },
    /// The tape is written from its beginning again.
    Reclaim {
        who: Who,
        tape: u32,
    },
    /// The live files on the tape are written to other tapes.
    Repack {
        who: Who,
        tape: u32,
    },
    /// The failed copies of these files are tried again.
    Retry {
        who: Who,
        paths: Rows<Text>,
    },
}

/// What asks for an answer and changes nothing.
#[derive(Drop)]
pub enum Look {
    /// The bytes of a file on disk.
    Fetch { path: Text },
    /// How a stage request stands.
    StageInfo { id: u32 },
    /// Where files are kept.
    ArchiveInfo { paths: Rows<Text> },
    /// How a repack stands.
    RepackInfo { id: u32 },
    /// The copies that were never flushed and are not tried any more.
    FailedList,
    /// What is on a tape.
    TapeInfo { tape: u32 },
    /// The queues that are not empty.
    Queues,
}
