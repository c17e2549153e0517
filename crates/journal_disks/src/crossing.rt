// What may go to another thread: a law with a body that does nothing when it runs.
use crate::{FileDisk, MemDisk};

fn is_send<T: Send>() {}

/// Both disks may go to another thread.
pub fn disks_are_send() {
    is_send::<FileDisk>();
    is_send::<MemDisk>();
}
