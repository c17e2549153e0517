// What workers are given, and what they give back.
use crate::shares::Share;
use blob::Sum256;

/// What a worker does in a phase in which drives step.
#[derive(Drop)]
pub(crate) enum Task<D> {
    /// It puts these files.
    Puts(Share),
    /// It steps the drive of this number.
    Steps { number: u32, drive: D },
}

/// A worker of a phase in which drives step: its number at the gate, a pass of the hall, and what it does.
#[derive(Drop)]
pub(crate) struct Job<P, D> {
    pub(crate) worker: u32,
    pub(crate) pass: P,
    pub(crate) task: Task<D>,
}

/// What a worker of such a phase has done.
#[derive(Drop)]
pub(crate) enum Made<D> {
    /// It put these files, which have these sums; None where one was not put.
    Sums {
        share: Share,
        sums: Option<Vec<Sum256>>,
    },
    /// Its drive, which has no medium; None where it could not go on until its session was Free.
    Drive(Option<D>),
}

/// What a worker of such a phase gives back.
#[derive(Drop)]
pub(crate) struct Done<P, D> {
    pub(crate) pass: P,
    pub(crate) made: Made<D>,
}

/// A caller that fetches files: its number at the gate, a pass of the hall, and the files.
#[derive(Drop)]
pub(crate) struct Fetcher<P> {
    pub(crate) worker: u32,
    pub(crate) pass: P,
    pub(crate) share: Share,
}

/// What such a caller gives back: the total of the bytes of its files; None where one was not fetched.
#[derive(Drop)]
pub(crate) struct Fetched<P> {
    pub(crate) pass: P,
    pub(crate) share: Share,
    pub(crate) total: Option<u64>,
}
