// What a drive is to do otherwise than a sound one.
use cta_site::CallKind;

/// A planned call of a drive: its kind, and its number among the drive's calls of that kind, from 1. It fails, or where
/// `alter` is true it succeeds and what a read gives is altered. This project's own.
#[derive(Clone, Copy, Debug, PartialEq, Eq)]
pub struct Planned {
    pub call: CallKind,
    pub number: u32,
    pub alter: bool,
}
