// The buffer as a whole, with ample memory.
use blob::Blob;
use cta_site::Rows;
use disk_buffer::DiskBuffer;
use std::alloc::Global;
use std::process::Abort;
use std::sync::Arc;
use std::test::Fail;

// A content of so many bytes.
fn content(alloc: Global, len: usize) -> Option<Arc<Blob>> {
    let mut bytes = Vec::new(alloc);
    for _ in 0..len {
        bytes.push(7).ok()?;
    }
    let blob = Blob::of(bytes).ok()?;
    Arc::new(alloc, blob).ok()
}

// Enters a file that is not there, where it fits.
fn put(rt: &impl Abort, buffer: &mut DiskBuffer, file: u32, blob: Arc<Blob>) {
    assert!(rt; buffer.room() > 0 && !buffer.is_held(file));
    let (size, len) = (buffer.size(), blob.sum().len);
    assert!(rt; len > 0 && len <= buffer.free() && buffer.free() <= size);
    buffer.enter(file, blob);
}

// Three files, of 10, 20 and 5 bytes.
fn fill(rt: &impl Abort, alloc: Global, buffer: &mut DiskBuffer) -> Option<()> {
    put(rt, buffer, 1, content(alloc, 10)?);
    put(rt, buffer, 2, content(alloc, 20)?);
    put(rt, buffer, 3, content(alloc, 5)?);
    Some(())
}

// Pins a file for the owner 7.
fn pin(rt: &impl Abort, buffer: &mut DiskBuffer, file: u32, until: u64) {
    assert!(rt; buffer.room() > 0);
    buffer.pin(file, 7, until);
}

// Bytes are set aside and given up.
fn hold(rt: &impl Abort, buffer: &mut DiskBuffer) {
    let size = buffer.size();
    assert!(rt; buffer.free() == 65 && buffer.free() <= size);
    buffer.hold(3);
    let held = buffer.free();
    buffer.unhold(3);
    assert_eq!(rt; [held, buffer.free()], [62, 65]);
}

// Evicts at a moment to get so many bytes, and says which files left.
fn evict(buffer: &mut DiskBuffer, alloc: Global, at: u64, need: u64) -> Option<Rows<u32>> {
    let mut out = Rows::of(Vec::new(alloc));
    out.reserve(buffer.evict_count(at, need)).ok()?;
    buffer.evict(at, need, &mut out);
    Some(out)
}

// What may go, before any pin ends and behind it.
fn compare(rt: &impl Abort, buffer: &DiskBuffer, early: u64, late: u64) {
    let evictable = [
        buffer.evictable(10),
        buffer.evictable(50),
        buffer.evictable(10),
    ];
    assert_eq!(rt; evictable, [early, late, early]);
}

// Flags and pins say what may go.
fn protect(rt: &impl Abort, buffer: &mut DiskBuffer) {
    compare(rt, buffer, 0, 0);
    buffer.set_safe(1, true);
    buffer.set_safe(2, true);
    buffer.set_safe(3, true);
    compare(rt, buffer, 35, 35);
    pin(rt, buffer, 2, 50);
    pin(rt, buffer, 2, 40);
    compare(rt, buffer, 15, 35);
    count(rt, buffer);
}

// How many files go for a need, before the pins end and behind them.
fn count(rt: &impl Abort, buffer: &DiskBuffer) {
    let counts = [
        buffer.evict_count(10, 70),
        buffer.evict_count(10, 77),
        buffer.evict_count(50, 77),
        buffer.evict_count(50, 1000),
    ];
    assert_eq!(rt; counts, [1, 2, 2, 3]);
}

// Files leave.
fn leave(rt: &impl Abort, buffer: &mut DiskBuffer) {
    compare(rt, buffer, 0, 20);
    buffer.unpin(2, 7);
    compare(rt, buffer, 20, 20);
    let was_there = buffer.blob(2).is_some();
    pin(rt, buffer, 2, 50);
    buffer.remove(2);
    assert!(rt; was_there && buffer.blob(2).is_none() && !buffer.is_held(2));
    compare(rt, buffer, 0, 0);
    assert_eq!(rt; buffer.free(), 100);
}

// A file takes the place of one that left; its pins and flags are gone.
fn again(rt: &impl Abort, alloc: Global, buffer: &mut DiskBuffer) -> Option<()> {
    put(rt, buffer, 2, content(alloc, 4)?);
    buffer.set_safe(2, true);
    compare(rt, buffer, 4, 4);
    Some(())
}

// Each call once.
fn play(rt: &impl Abort, alloc: Global, buffer: &mut DiskBuffer) -> Option<()> {
    buffer.reserve(16).ok()?;
    fill(rt, alloc, buffer)?;
    hold(rt, buffer);
    protect(rt, buffer);
    let gone = evict(buffer, alloc, 10, 77)?;
    assert_eq!(rt; gone.as_slice(), [1u32, 3].as_slice());
    leave(rt, buffer);
    again(rt, alloc, buffer)
}

#[test]
fn files_come_and_go(rt: HostRuntime) -> Result<(), Fail> {
    let mut buffer = DiskBuffer::new(rt.alloc(), 100).ok().ok_or("no memory")?;
    play(&rt, rt.alloc(), &mut buffer).ok_or("no memory")?;
    Ok(())
}
