// The disk buffer.
use crate::report::{Report, file_at, lacks_memory, tell, tell_filled};
use blob::Blob;
use cta_site::{NoMemory, Rows};
use disk_buffer::DiskBuffer;
use std::alloc::Global;
use std::io;
use std::sync::Arc;
use std::time::Instant;

const CALLS: [&str; 15] = [
    "disk_buffer.reserve+is_held+free+enter",
    "disk_buffer.is_held",
    "disk_buffer.blob",
    "disk_buffer.free",
    "disk_buffer.reserve+pin",
    "disk_buffer.set_safe",
    "disk_buffer.evict(none)/files",
    "disk_buffer.evictable",
    "disk_buffer.reserve+pin(second)",
    "disk_buffer.unpin",
    "disk_buffer.free+hold+unhold",
    "disk_buffer.free+evict_count",
    "disk_buffer.free+evict_count+evict",
    "disk_buffer.reserve+is_held+free+enter(again)",
    "disk_buffer.remove",
];

// The size of the buffer, in bytes, and the moments at which the pins of the first and of the second owner end.
const SIZE: u64 = 1000000000000;

const FIRST_END: u64 = 10;

const SECOND_END: u64 = 20;

// A buffer, the content that all files share, and the files that left.
#[derive(Drop)]
struct Shared {
    buffer: DiskBuffer,
    blob: Arc<Blob>,
    out: Rows<u32>,
}

// A content of 100 bytes.
fn content(alloc: Global) -> Result<Arc<Blob>, NoMemory> {
    let mut bytes = Vec::new(alloc);
    for _ in 0..100 {
        bytes.push(7)?;
    }
    let Ok(blob) = Blob::of(bytes) else {
        return Err(NoMemory);
    };
    let blob = Arc::new(alloc, blob)?;
    Ok(blob)
}

fn start(alloc: Global) -> Result<Shared, NoMemory> {
    let blob = content(alloc)?;
    let buffer = DiskBuffer::new(alloc, SIZE)?;
    let out = Rows::of(Vec::new(alloc));
    Ok(Shared { buffer, blob, out })
}

// Enters a file that is not there, where it fits.
fn put(buffer: &mut DiskBuffer, file: u32, blob: Arc<Blob>) -> bool {
    if buffer.room() == 0 || buffer.is_held(file) {
        return false;
    }
    let size = buffer.size();
    let free = buffer.free();
    let len = blob.sum().len;
    if len == 0 || len > free || free > size {
        return false;
    }
    buffer.enter(file, blob);
    true
}

fn enter(buffer: &mut DiskBuffer, file: u32, blob: &Arc<Blob>) -> bool {
    if buffer.reserve(1).is_err() {
        return false;
    }
    match Arc::try_clone(blob) {
        Ok(blob) => put(buffer, file, blob),
        Err(_) => false,
    }
}

fn pin(buffer: &mut DiskBuffer, file: u32, owner: u32, until: u64) -> bool {
    if buffer.reserve(1).is_err() || buffer.room() == 0 {
        return false;
    }
    buffer.pin(file, owner, until);
    true
}

fn hold(buffer: &mut DiskBuffer) -> bool {
    let size = buffer.size();
    let free = buffer.free();
    if free < 3 || free > size {
        return false;
    }
    buffer.hold(3);
    buffer.unhold(3);
    true
}

// Evicts the first file that may go.
fn evict(buffer: &mut DiskBuffer, out: &mut Rows<u32>, need: u64) -> bool {
    let count = buffer.evict_count(FIRST_END, need);
    if out.reserve(count).is_err() {
        return false;
    }
    buffer.evict(FIRST_END, need, out);
    count == 1
}

// Reaches the moment at which each file may go.
fn reach(shared: &mut Shared) -> bool {
    let Shared { buffer, out, .. } = shared;
    let count = buffer.evict_count(FIRST_END, 0);
    if out.reserve(count).is_err() {
        return false;
    }
    buffer.evict(FIRST_END, 0, out);
    true
}

// One reader for one file.
fn reads(buffer: &DiskBuffer, file: u32, at: usize) -> bool {
    match at {
        1 => buffer.is_held(file),
        2 => buffer.blob(file).is_some(),
        3 => buffer.free() > 0,
        7 => buffer.evictable(FIRST_END) > 0,
        _ => buffer.evict_count(FIRST_END, buffer.free().saturating_add(1)) == 1,
    }
}

// One change of a pin or a flag for one file.
fn flags(buffer: &mut DiskBuffer, file: u32, at: usize) -> bool {
    match at {
        4 => return pin(buffer, file, 7, FIRST_END),
        5 => buffer.set_safe(file, true),
        8 => return pin(buffer, file, 8, SECOND_END),
        9 => buffer.unpin(file, 8),
        _ => buffer.remove(file),
    }
    true
}

// One call for one file.
fn call(shared: &mut Shared, file: u32, at: usize) -> bool {
    let Shared { buffer, blob, out } = shared;
    match at {
        0 | 13 => enter(buffer, file, blob),
        1 | 2 | 3 | 7 | 11 => reads(buffer, file, at),
        10 => hold(buffer),
        12 => {
            let need = buffer.free().saturating_add(1);
            evict(buffer, out, need)
        }
        _ => flags(buffer, file, at),
    }
}

fn call_all(shared: &mut Shared, report: Report, at: usize) -> u32 {
    for place in 0..report.files {
        if !call(shared, file_at(report, place), at) {
            return place;
        }
    }
    report.files
}

fn row(shared: &mut Shared, report: Report, at: usize) -> u32 {
    if at != 6 {
        return call_all(shared, report, at);
    }
    if reach(shared) {
        return report.files;
    }
    0
}

fn run_lines(rt: &HostRuntime, report: Report, shared: &mut Shared) -> io::Result<()> {
    for at in 0..15 {
        let start = Instant::now(rt)?;
        let calls = row(shared, report, at);
        tell(rt, report, CALLS[at], start, calls)?;
    }
    Ok(())
}

// Enters the files, with room for all at once.
fn fill(shared: &mut Shared, report: Report) -> Option<u32> {
    if shared.buffer.reserve(report.files).is_err() {
        return None;
    }
    Some(call_all(shared, report, 0))
}

fn run_over(rt: &HostRuntime, report: Report, shared: &mut Shared) -> io::Result<()> {
    if report.fills {
        return tell_filled(rt, fill(shared, report));
    }
    run_lines(rt, report, shared)
}

// Prints the lines of the buffer, or fills it.
pub fn run(rt: &HostRuntime, report: Report) -> io::Result<()> {
    match start(rt.alloc()) {
        Ok(mut shared) => run_over(rt, report, &mut shared),
        Err(_) => lacks_memory(rt),
    }
}
