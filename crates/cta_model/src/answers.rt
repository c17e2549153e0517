// What the archive answers.
use crate::asks::{Direction, Fate, Item, Job};
use crate::reports::{FailedCopy, PlaceInfo, QueueInfo, RepackInfo, StageInfo, TapeInfo};
use blob::Sum256;
use cta_site::Rows;

/// The answer to an ask or a look.
#[derive(Drop)]
pub enum Answer {
    /// The file is in the buffer, for which these files were evicted.
    Stored {
        evicted: Rows<u32>,
    },
    /// The ask was carried out.
    Done,
    /// The stage request has this id.
    Staged {
        id: u32,
    },
    /// The drive is to mount this tape; the mount has this number.
    Mounted {
        mount: u32,
        direction: Direction,
        tape: u32,
    },
    /// There is nothing to mount.
    Idle,
    /// The drive is down.
    DriveDown,
    /// The drive has an open mount.
    DriveBusy,
    /// The items that the mount is to write or read, for which these files were evicted.
    Batch {
        items: Rows<Item>,
        evicted: Rows<u32>,
    },
    /// No job is left for the mount.
    Nothing,
    /// What became of each flushed item, in their order.
    Told {
        fates: Rows<Fate>,
    },
    /// What became of the file that was read.
    Arrived {
        fate: Fate,
    },
    /// The repack has this id and these items, by fSeq, each as a job with birth 0.
    Repacking {
        id: u32,
        items: Rows<Job>,
    },
    /// The archive jobs that were born.
    Retried {
        jobs: Rows<Job>,
    },
    /// The file has this sum.
    Bytes {
        sum: Sum256,
    },
    Stage(StageInfo),
    Places(Rows<PlaceInfo>),
    RepackSeen(RepackInfo),
    FailedSeen(Rows<FailedCopy>),
    TapeSeen(TapeInfo),
    QueuesSeen(Rows<QueueInfo>),
    /// The ask or look was refused, and nothing changed.
    Refused(Refusal),
}

/// Why the archive refuses.
#[derive(Clone, Copy, Debug, PartialEq, Eq)]
pub enum Refusal {
    /// It is no path.
    BadPath,
    /// No directory of the site has the path.
    NoDirectory,
    /// The path names a live file.
    PathTaken,
    /// The size is above the free and the evictable space.
    NoSpace,
    /// The history would weigh more than the site's limit.
    HistoryFull,
    /// A path names no live file.
    NoFile,
    /// The file is not in the buffer.
    NotResident,
    /// No Stage has the id, or it was dropped.
    NoRequest,
    /// A path is not in the request.
    ForeignPath,
    /// The site has no such drive.
    NoDrive,
    /// The site has no such tape.
    NoTape,
    /// An open mount has the tape.
    TapeMounted,
    /// The tape is BROKEN.
    TapeBroken,
    /// A live file has a place on the tape.
    LiveFiles,
    /// The tape is not REPACKING.
    NotRepacking,
    /// A repack of the tape is live.
    RepackLive,
    /// No Repack has the id.
    NoRepack,
    /// A session's ask that does not fit its mount. A session of this project never meets it.
    Unknown,
}
