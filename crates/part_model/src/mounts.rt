// The rows of the table of open mounts.
use cta_model::{Direction, Item};
use cta_site::Rows;

/// An open mount: its number, its drive and its tape by their numbers in the site, which way it goes, the key of its
/// queue (a pool where it writes, a tape where it reads), and the items of its last Claim, none where it has claimed
/// nothing yet. This project's own.
#[derive(Drop)]
pub struct OpenMount {
    pub number: u32,
    pub drive: u32,
    pub direction: Direction,
    pub tape: u32,
    pub key: u32,
    pub last: Option<Rows<Item>>,
}
