// What no clause can say of the ends over the machine: what it gives and takes, which of its calls fail, and what its clock tells.
use outside::{Clock, Failed, Sink, Source, StreamSink, WallClock, file_source};
use std::alloc::{AllocError, Global};
use std::fs::File;
use std::rt::Files;
use std::test::Fail;
use std::time::SystemTime;
use std::{fs, io, time};

// What three reads of up to three bytes of the file at this path give, and the bytes of the first two.
fn reads_of<R: Files>(
    alloc: Global,
    rt: &R,
    path: &str,
) -> Result<([Result<usize, Failed>; 3], [u8; 6]), AllocError> {
    let mut source = file_source(alloc, rt, path)?;
    let mut to = [0u8; 6];
    let first = source.read(&mut to[..3]);
    let second = source.read(&mut to[3..]);
    let third = source.read(&mut [0u8; 3]);
    Ok(([first, second, third], to))
}

// What two writes of two bytes to the file at this path give.
fn writes_to<R: Files>(rt: &R, path: &str) -> io::Result<[Result<(), Failed>; 2]> {
    let file = File::options().write(true).create(true).open(rt, path)?;
    let mut sink = StreamSink::new(file);
    Ok([sink.write_all_of(b"ab"), sink.write_all_of(b"cd")])
}

#[test]
fn file_holds_what_was_written(rt: HostRuntime) -> Result<(), Fail> {
    assert_eq!(rt; writes_to(&rt, "written")?, [Ok(()), Ok(())]);
    let wanted = ([Ok(3), Ok(1), Ok(0)], *b"abcd\0\0");
    assert_eq!(rt; reads_of(rt.alloc(), &rt, "written")?, wanted);
    fs::remove_file(&rt, "written")?;
    Ok(())
}

#[test]
fn write_that_fails_is_told(rt: HostRuntime) -> Result<(), Fail> {
    assert_eq!(rt; writes_to(&rt, "/dev/full")?, [Err(Failed), Err(Failed)]);
    Ok(())
}

// Of a process's own memory the first byte can't be read.
#[test]
fn read_that_fails_is_told(rt: HostRuntime) -> Result<(), Fail> {
    for path in ["/proc/self/mem", "no such file"] {
        let (reads, _) = reads_of(rt.alloc(), &rt, path)?;
        assert_eq!(rt; reads, [Err(Failed); 3]);
    }
    Ok(())
}

// The seconds since 1970 by the machine's clock, None where it can't be read.
fn seconds<R: time::Clock>(rt: &R) -> Option<u64> {
    let now = SystemTime::now(rt).ok()?;
    let since = now.duration_since(SystemTime::UNIX_EPOCH).ok()?;
    Some(since.as_secs())
}

#[test]
fn clock_tells_the_machines_moment(rt: HostRuntime) -> Result<(), Fail> {
    let seconds = seconds(&rt).ok_or("no clock")?;
    assert!(rt; WallClock::new(&rt).now().abs_diff(seconds) <= 5);
    Ok(())
}
