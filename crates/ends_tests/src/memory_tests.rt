// What no clause can say: a write that is not planned to fail finds its memory here. And one outside look at the plans.
use outside::{Failed, MemSink, MemSource, Sink, Source};
use std::alloc::{AllocError, Global};

// Whether three reads of up to three bytes from `abcd`, the one with the number `planned` to fail, give these answers and leave this.
fn are_reads(
    alloc: Global,
    planned: u64,
    want: [(Result<usize, Failed>, &str); 3],
) -> Result<bool, AllocError> {
    let bytes = vec![in alloc; b'a', b'b', b'c', b'd']?;
    let mut source = MemSource::new(bytes, vec![in alloc; planned]?);
    let mut to = [0u8; 3];
    for (answer, left) in want {
        if source.read(&mut to) != answer || source.left() != left.as_bytes() {
            return Ok(false);
        }
    }
    Ok(true)
}

// Whether three writes of `wxyz`, the one with the number `planned` to fail, give these answers, and this is held.
fn are_writes(
    alloc: Global,
    planned: u64,
    want: [(Result<(), Failed>, &str); 3],
) -> Result<bool, AllocError> {
    let mut sink = MemSink::new(alloc, vec![in alloc; planned]?);
    for (answer, held) in want {
        if sink.write_all_of(b"wxyz") != answer || sink.bytes() != held.as_bytes() {
            return Ok(false);
        }
    }
    Ok(true)
}

#[test]
fn reads_fail_as_planned(rt: HostRuntime) {
    let alloc = rt.alloc();
    let told = [
        are_reads(alloc, 0, [(Ok(3), "d"), (Ok(1), ""), (Ok(0), "")]),
        are_reads(alloc, 1, [(Err(Failed), "abcd"), (Ok(3), "d"), (Ok(1), "")]),
        are_reads(alloc, 2, [(Ok(3), "d"), (Err(Failed), "d"), (Ok(1), "")]),
    ];
    assert_eq!(rt; told, [Ok(true), Ok(true), Ok(true)]);
}

#[test]
fn writes_fail_as_planned(rt: HostRuntime) {
    let alloc = rt.alloc();
    let (one, two, three) = ("wxyz", "wxyzwxyz", "wxyzwxyzwxyz");
    let late = "wxyzwxyzwx";
    let told = [
        are_writes(alloc, 0, [(Ok(()), one), (Ok(()), two), (Ok(()), three)]),
        are_writes(
            alloc,
            1,
            [
                (Err(Failed), "wx"),
                (Ok(()), "wxwxyz"),
                (Ok(()), "wxwxyzwxyz"),
            ],
        ),
        are_writes(
            alloc,
            3,
            [(Ok(()), one), (Ok(()), two), (Err(Failed), late)],
        ),
    ];
    assert_eq!(rt; told, [Ok(true), Ok(true), Ok(true)]);
}
