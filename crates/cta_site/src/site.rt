// A site as its file says it.

use cta_values::{Rows, Text};

/// A site as its file says it; whether it keeps the rules of a site is said by `ValidSite`. The members are those of
/// this project's own site file.
#[derive(Drop)]
pub struct Site {
    /// The version of the file's form.
    pub version: u32,
    /// The name that the WLCG Tape REST API tells.
    pub sitename: Text,
    /// The address that the WLCG Tape REST API tells, in printable ASCII.
    pub endpoint: Text,
    /// The name of the mount policy of whom no rule names.
    pub default_policy: Text,
    /// The name of the mount policy of repacks.
    pub repack_policy: Text,
    /// The site's limits.
    pub limits: Limits,
    /// The virtual organisations.
    pub vos: Rows<Vo>,
    /// The storage classes.
    pub classes: Rows<Class>,
    /// The tape pools.
    pub pools: Rows<TapePool>,
    /// The archive routes.
    pub routes: Rows<Route>,
    /// The mount policies.
    pub policies: Rows<Policy>,
    /// The mount rules.
    pub rules: Rows<Rule>,
    /// The names of the tape libraries.
    pub libraries: Rows<Text>,
    /// The tapes.
    pub tapes: Rows<Tape>,
    /// The drives.
    pub drives: Rows<Drive>,
    /// The directories that give a path its storage class.
    pub directories: Rows<Directory>,
    /// The failures that the drives are to show, for trials.
    pub failures: Rows<Failure>,
}

/// The limits of a site.
#[derive(Clone, Copy)]
pub struct Limits {
    /// The bytes of the disk buffer.
    pub buffer: u64,
    /// The bytes that one file may have.
    pub file: u64,
    /// The bytes from which on an archive queue is worth a mount.
    pub archive_bytes: u64,
    /// The bytes from which on a retrieve queue is worth a mount.
    pub retrieve_bytes: u64,
    /// The files from which on an archive queue is worth a mount.
    pub archive_files: u32,
    /// The files from which on a retrieve queue is worth a mount.
    pub retrieve_files: u32,
    /// The files that one claim of a drive takes at most.
    pub batch_files: u32,
    /// The charges that end a job.
    pub tries: u8,
    /// The weight that the history may have.
    pub history: u32,
    /// The seconds that a recalled file stays pinned where its request names no lifetime.
    pub lifetime: u64,
}

/// A virtual organisation, and how many drives it may use at a time in each direction.
#[derive(Drop)]
pub struct Vo {
    pub name: Text,
    pub read_drives: u32,
    pub write_drives: u32,
}

/// A storage class: how many copies its files have on tape, and whose they are.
#[derive(Drop)]
pub struct Class {
    pub name: Text,
    pub vo: Text,
    pub copies: u8,
}

/// A tape pool: a set of tapes of one virtual organisation.
#[derive(Drop)]
pub struct TapePool {
    pub name: Text,
    pub vo: Text,
}

/// An archive route: the pool that a copy of a storage class goes to. Copies count from 1.
#[derive(Drop)]
pub struct Route {
    pub class: Text,
    pub copy: u8,
    pub pool: Text,
}

/// A mount policy: a priority and a least age in seconds for each direction.
#[derive(Drop)]
pub struct Policy {
    pub name: Text,
    pub archive_priority: u32,
    pub archive_min_age: u64,
    pub retrieve_priority: u32,
    pub retrieve_min_age: u64,
}

/// A mount rule: the policy of a requester or of a group.
#[derive(Drop)]
pub struct Rule {
    pub kind: RuleKind,
    pub name: Text,
    pub policy: Text,
}

/// Whom a mount rule names.
#[derive(Clone, Copy, Debug, PartialEq, Eq)]
pub enum RuleKind {
    Requester,
    Group,
}

/// A tape: its volume identifier (VID), its pool and library, its capacity in bytes and its state at the start.
#[derive(Drop)]
pub struct Tape {
    pub vid: Text,
    pub pool: Text,
    pub library: Text,
    pub capacity: u64,
    pub state: TapeState,
}

/// The state of a tape, in the words of the CERN Tape Archive (CTA).
#[derive(Clone, Copy, Debug, PartialEq, Eq)]
pub enum TapeState {
    Active,
    Disabled,
    Broken,
    Repacking,
}

/// A tape drive and the library whose tapes it reaches.
#[derive(Drop)]
pub struct Drive {
    pub name: Text,
    pub library: Text,
}

/// A directory of the site, and the storage class that it gives.
#[derive(Drop)]
pub struct Directory {
    pub path: Text,
    pub class: Text,
}

/// A planned failure: the call of this number and kind, counted from 1 at this drive, fails, or gives altered bytes.
#[derive(Drop)]
pub struct Failure {
    pub drive: Text,
    pub call: CallKind,
    pub number: u32,
    pub alter: bool,
}

/// A kind of call of a tape drive.
#[derive(Clone, Copy, Debug, PartialEq, Eq)]
pub enum CallKind {
    Load,
    Write,
    Flush,
    Read,
    Unload,
}
