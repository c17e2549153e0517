// Whole runs over sources and a sink in memory.
use media::MemBench;
use outside::{MemSink, MemSource};
use replay::{Status, replay_top};
use std::hash::RandomState;
use std::test::Fail;

// The site file.
const SITE: &[u8] =
    b"{\"classes\":[{\"copies\":1,\"name\":\"raw\",\"vo\":\"atlas\"}],\"defaultPolicy\":\"std\",\"directories\":[{\"class\":\"raw\",\"path\":\"/atlas\"}],\"drives\":[{\"library\":\"L1\",\"name\":\"d1\"}],\"endpoint\":\"https://tape.example.org/api/v1\",\"libraries\":[\"L1\"],\"limits\":{\"archiveBytes\":100,\"archiveFiles\":1,\"batchFiles\":10,\"buffer\":1000,\"file\":1000,\"history\":1000,\"lifetime\":60,\"retrieveBytes\":100,\"retrieveFiles\":1,\"tries\":3},\"policies\":[{\"archiveMinAge\":10,\"archivePriority\":1,\"name\":\"std\",\"retrieveMinAge\":10,\"retrievePriority\":1}],\"pools\":[{\"name\":\"p1\",\"vo\":\"atlas\"}],\"repackPolicy\":\"std\",\"routes\":[{\"class\":\"raw\",\"copy\":1,\"pool\":\"p1\"}],\"sitename\":\"T1\",\"tapes\":[{\"capacity\":1000,\"library\":\"L1\",\"pool\":\"p1\",\"state\":\"ACTIVE\",\"vid\":\"V1\"}],\"version\":1,\"vos\":[{\"name\":\"atlas\",\"readDrives\":1,\"writeDrives\":1}]}";

const PUT_A: &[u8] =
    b"http 0 100 63\nPUT /data/atlas/a HTTP/1.1\r\nHost: t\r\nContent-Length: 5\r\n\r\nhello\n";

const INFO_A: &[u8] =
    b"http 0 100 88\nPOST /api/v1/archiveinfo HTTP/1.1\r\nHost: t\r\nContent-Length: 22\r\n\r\n{\"paths\":[\"/atlas/a\"]}\n";

const STORED: &[u8] = b"reply 0 43\nHTTP/1.1 201 Created\r\nContent-Length: 0\r\n\r\n\n";

const ON_DISK: &[u8] =
    b"reply 0 110\nHTTP/1.1 200 OK\r\nContent-Type: application/json\r\nContent-Length: 39\r\n\r\n[{\"locality\":\"DISK\",\"path\":\"/atlas/a\"}]\n";

// These parts in one.
fn joined(rt: &HostRuntime, parts: &[&[u8]]) -> Result<Vec<u8>, Fail> {
    let mut bytes = Vec::new(rt.alloc());
    for part in parts.iter() {
        bytes.extend_from_slice(part)?;
    }
    Ok(bytes)
}

// That a run of this script and what follows it ends so, writes these frames and leaves the rest.
fn ends(
    rt: &HostRuntime,
    script: &[&[u8]],
    rest: &[u8],
    status: Status,
    frames: &[&[u8]],
) -> Result<bool, Fail> {
    let word = String::from_str(rt.alloc(), "replay")?;
    let file = String::from_str(rt.alloc(), "site")?;
    let words = vec![in rt.alloc(); word, file]?;
    let site = joined(rt, &[SITE])?;
    let mut bytes = joined(rt, script)?;
    bytes.extend_from_slice(rest)?;
    let mut site = MemSource::new(site, Vec::new(rt.alloc()));
    let mut script = MemSource::new(bytes, Vec::new(rt.alloc()));
    let mut out = MemSink::new(rt.alloc(), Vec::new(rt.alloc()));
    let mut bench = MemBench::new(rt.alloc());
    let keys = RandomState::new(rt)?;
    let ended = replay_top(
        rt.alloc(),
        &words,
        &mut site,
        &mut script,
        &mut out,
        &mut bench,
        keys,
    );
    let wanted = joined(rt, frames)?;
    Ok(ended == status && out.bytes() == wanted.as_slice() && script.left() == rest)
}

// What follows the line `end`, and what follows a byte that stands in place of a record's last LF, is left in the source.
#[test]
fn what_is_left(rt: HostRuntime) -> Result<(), Fail> {
    let whole: &[&[u8]] = &[PUT_A, INFO_A, b"end\n"];
    assert!(rt; ends(&rt, whole, b"more", Status::Ok, &[STORED, ON_DISK])?);
    let cut: &[&[u8]] = &[b"http 0 100 5\nhelloo"];
    assert!(rt; ends(&rt, cut, b"\nend\n", Status::Script { offset: 18 }, &[])?);
    let step: &[&[u8]] = &[PUT_A, b"step d1 100\n", b"end\n"];
    let mounted: &[&[u8]] = &[STORED, b"step d1 mount archive V1\n"];
    assert!(rt; ends(&rt, step, b"more", Status::Ok, mounted)?);
    Ok(())
}

// How a run ended, what it wrote, and how many bytes of the script it left.
#[derive(Drop)]
struct Ended {
    status: Status,
    written: Vec<u8>,
    left: usize,
}

// A run of a PUT and a look, where these reads of the site, reads of the script and writes fail, each by the number of its
// call from 1; 0 is none.
fn failing_run(rt: &HostRuntime, site: u64, script: u64, out: u64) -> Result<Ended, Fail> {
    let word = String::from_str(rt.alloc(), "replay")?;
    let file = String::from_str(rt.alloc(), "site")?;
    let words = vec![in rt.alloc(); word, file]?;
    let bytes = joined(rt, &[SITE])?;
    let mut site = MemSource::new(bytes, vec![in rt.alloc(); site]?);
    let bytes = joined(rt, &[PUT_A, INFO_A, b"end\n"])?;
    let mut script = MemSource::new(bytes, vec![in rt.alloc(); script]?);
    let mut out = MemSink::new(rt.alloc(), vec![in rt.alloc(); out]?);
    let mut bench = MemBench::new(rt.alloc());
    let keys = RandomState::new(rt)?;
    let status = replay_top(
        rt.alloc(),
        &words,
        &mut site,
        &mut script,
        &mut out,
        &mut bench,
        keys,
    );
    let written = joined(rt, &[out.bytes()])?;
    let left = script.left().len();
    Ok(Ended {
        status,
        written,
        left,
    })
}

// The bytes of that script.
fn script_len() -> usize {
    PUT_A.len() + INFO_A.len() + 4
}

// The replies to so many bytes of that script: a message is answered once it is held, before its last LF.
fn replies(rt: &HostRuntime, taken: usize) -> Result<Vec<u8>, Fail> {
    if taken < PUT_A.len() - 1 {
        return joined(rt, &[]);
    }
    if taken < PUT_A.len() + INFO_A.len() - 1 {
        return joined(rt, &[STORED]);
    }
    joined(rt, &[STORED, ON_DISK])
}

// At a failed read of the site nothing is written, and the script is left: the first such read where it isn't so, or 0.
fn wrong_site_read(rt: &HostRuntime, reads: u64) -> Result<u64, Fail> {
    for read in 1..=reads {
        let ended = failing_run(rt, read, 0, 0)?;
        let stands = ended.written.is_empty() && ended.left == script_len();
        if ended.status != Status::ReadFault || !stands {
            return Ok(read);
        }
    }
    Ok(0)
}

// At a failed read of the script the replies to the bytes taken are written, and no more: the first such read where it
// isn't so, or 0.
fn wrong_script_read(rt: &HostRuntime, reads: u64) -> Result<u64, Fail> {
    for read in 1..=reads {
        let ended = failing_run(rt, 0, read, 0)?;
        let wanted = replies(rt, script_len().saturating_sub(ended.left))?;
        if ended.status != Status::ReadFault || ended.written.as_slice() != wanted.as_slice() {
            return Ok(read);
        }
    }
    Ok(0)
}

// At a failed write a front of the replies is written, and not all: the first such write where it isn't so, or 0.
fn wrong_write(rt: &HostRuntime, writes: u64) -> Result<u64, Fail> {
    let whole = joined(rt, &[STORED, ON_DISK])?;
    for write in 1..=writes {
        let ended = failing_run(rt, 0, 0, write)?;
        let is_front = ended.written.len() < whole.len() && whole.starts_with(&ended.written);
        if ended.status != Status::WriteFault || !is_front {
            return Ok(write);
        }
    }
    Ok(0)
}

// Each read and each write of that run fails in turn: the site is two reads, with that of its end; each byte of the
// script's three lines is one, as are the bytes of a record and the LF behind them; and each reply is a write.
#[test]
fn faults(rt: HostRuntime) -> Result<(), Fail> {
    assert_eq!(rt; wrong_site_read(&rt, 2)?, 0);
    assert_eq!(rt; wrong_script_read(&rt, 36)?, 0);
    assert_eq!(rt; wrong_write(&rt, 2)?, 0);
    let ended = failing_run(&rt, 3, 37, 3)?;
    let whole = replies(&rt, script_len())?;
    assert!(rt; ended.status == Status::Ok && ended.left == 0);
    assert!(rt; ended.written.as_slice() == whole.as_slice());
    Ok(())
}
