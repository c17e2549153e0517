// Where workers stand, and what each does.

/// Where a worker stands: its number at the gate, a pass of the hall, and a seat at each of two pools. Every worker has all of these, whatever
/// it does, so that there are as many of each as there are workers.
#[derive(Drop)]
pub struct Post<P, Q> {
    /// The number that the worker tells at the gate.
    pub worker: u32,
    /// A pass of the hall, with one seat.
    pub pass: P,
    /// A seat at the pool of links that wait for a worker.
    pub seat: Q,
    /// A seat at the pool of links that found no room in the first.
    pub full_seat: Q,
}

/// What a worker does.
#[derive(Drop)]
pub enum Task<D> {
    /// It works the drive of this number.
    Drive { number: u32, drive: D },
    /// It serves links.
    Links,
    /// It tells links for which there is no room that the server is busy.
    Busy,
}

/// A worker's post, and what it does there.
#[derive(Drop)]
pub struct Job<P, Q, D> {
    pub post: Post<P, Q>,
    pub task: Task<D>,
}

/// What a worker gives back: its post, and how many of its links were left unserved: served neither to an end nor to a fault of their own,
/// since memory ran out or a call said so.
#[derive(Drop)]
pub struct Done<P, Q> {
    pub post: Post<P, Q>,
    pub unserved: u64,
}
