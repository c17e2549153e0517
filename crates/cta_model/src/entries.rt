// The entries of a history.
use crate::answers::Answer;
use crate::asks::{Ask, Who};

/// Who made an entry: a drive, by its number in the site, or a caller.
#[derive(Drop)]
pub enum Actor {
    Drive(u32),
    Caller(Who),
}

/// An entry of the history: an accepted ask, its moment in seconds since 1970, from 0 to 253,402,300,799, who asked, and
/// the answer.
#[derive(Drop)]
pub struct Entry {
    pub at: u64,
    pub actor: Actor,
    pub ask: Ask,
    pub answer: Answer,
}
