// What the definitions speak of beside asks and answers.
ghost use Rattle.std.specs.Prelude.{◌≡◌};

use crate::asks::{Direction, Fault, Job};
use crate::reports::{FileState, ItemState};
use cta_site::Text;
use std::marker::Model;

/// A mount: the drive and the tape by their numbers in the site, and which way it goes.
#[derive(Clone, Copy, Debug, PartialEq, Eq)]
pub struct Mount {
    pub drive: u32,
    pub direction: Direction,
    pub tape: u32,
}

/// The place of a copy: the tape by its number in the site, and the fSeq, from 1.
#[derive(Clone, Copy, Debug, PartialEq, Eq)]
pub struct Place {
    pub copy: u8,
    pub tape: u32,
    pub fseq: u32,
}

/// A charge of a job: the drive, the tape and the fault.
#[derive(Clone, Copy)]
pub struct Charge {
    pub drive: u32,
    pub tape: u32,
    pub fault: Fault,
}

/// A queue that a drive may mount, and the tape. Its key is a pool or a tape, by its number in the site; `birth` is the
/// entry by which its first job was born.
#[derive(Clone, Copy, Debug, PartialEq, Eq)]
pub struct Candidate {
    pub direction: Direction,
    pub key: u32,
    pub tape: u32,
    pub priority: u32,
    pub birth: u32,
}

/// A file that a stage request is made of: its path, the file that the path named at the Stage (none where it named none),
/// and for how many seconds it is to stay in the buffer once it is there.
#[derive(Drop)]
pub struct StageFile {
    pub path: Text,
    pub file: Option<u32>,
    pub lifetime: u64,
}

/// How a file of a stage request stands: what the request was made of, its state with the moments of its start and its
/// finish in seconds since 1970, its error where it failed, and whether it was released.
#[derive(Drop)]
pub struct RequestFile {
    pub path: Text,
    pub file: Option<u32>,
    pub lifetime: u64,
    pub state: FileState,
    pub started: Option<u64>,
    pub finished: Option<u64>,
    pub error: Option<Text>,
    pub released: bool,
}

/// How an item of a repack stands: its file, its copy and its state.
#[derive(Clone, Copy, Debug, PartialEq, Eq)]
pub struct RepackCopy {
    pub file: u32,
    pub copy: u8,
    pub state: ItemState,
}

/// The sums of a queue that is not empty: how many files and bytes, the least size of a file in bytes, the first job and
/// the moment of its birth in seconds since 1970, the highest priority, and the least age in seconds.
#[derive(Clone, Copy, Debug, PartialEq, Eq)]
pub struct Sums {
    pub files: u32,
    pub bytes: u64,
    pub least: u64,
    pub oldest: Job,
    pub born: u64,
    pub priority: u32,
    pub age: u64,
}

/// A live recall of a file: the number of the entry that it was born by, and the numbers of the Stage and Repack entries
/// that still wait for it, in their order.
#[derive(Drop)]
pub struct Recall {
    birth: u32,
    waiting: Vec<u32>,
}

impl Model for Recall {
    ghost use Rattle.cta_model.specs.Recalls.{Recall as LiveRecall};

    ghost Value = { LiveRecall };

    ghost view = { λ r. record { birth = r.birth; waiting = r.waiting.items } };
}

impl Recall {
    /// The recall of this birth for which these entries wait. It takes no memory and constant time.
    pub fn of(birth: u32, waiting: Vec<u32>) -> Recall
        ensures { result ≡ record { birth = birth; waiting = waiting.items } }
    {
        Recall { birth, waiting }
    }

    /// The number of the entry that it was born by.
    pub fn birth(&self) -> u32
        ensures { result ≡ self.now.birth }
    {
        self.birth
    }

    /// The numbers of the entries that wait for it.
    pub fn waiting(&self) -> &[u32]
        ensures { result.now ≡ self.now.waiting }
    {
        self.waiting.as_slice()
    }
}
