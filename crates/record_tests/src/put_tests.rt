// The record of a Put, byte by byte.
use crate::puts::{is_put_of, put_bytes, put_of};
use crate::records::{body_of, fronts_are_no_bodies, fronts_need_more, is_written, whole};
use std::alloc::Global;
use std::test::Fail;

fn is_put_written(alloc: Global, record: &[u8]) -> bool {
    match put_of(alloc, "/atlas/a", b"hello") {
        Some(kept) => {
            let is_same = is_written(alloc, &kept, record);
            drop(kept);
            is_same
        }
        None => false,
    }
}

fn is_read_as_put(alloc: Global, record: &[u8]) -> bool {
    match whole(alloc, record) {
        Some(kept) => {
            let is_put = is_put_of(&kept, b"/atlas/a", b"hello");
            drop(kept);
            is_put
        }
        None => false,
    }
}

#[test]
fn put_has_these_bytes(rt: HostRuntime) -> Result<(), Fail> {
    let alloc = rt.alloc();
    let record = put_bytes(alloc).ok_or("no memory")?;
    assert_eq!(rt; record.len(), 105);
    assert!(rt; is_put_written(alloc, &record));
    assert!(rt; is_read_as_put(alloc, &record));
    Ok(())
}

#[test]
fn fronts_of_the_put_are_no_records(rt: HostRuntime) -> Result<(), Fail> {
    let alloc = rt.alloc();
    let record = put_bytes(alloc).ok_or("no memory")?;
    assert!(rt; fronts_need_more(alloc, &record));
    assert!(rt; fronts_are_no_bodies(alloc, body_of(&record)));
    Ok(())
}
