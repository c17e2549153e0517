// A record of each ask.
use crate::numbers::{Numbers, one};
use crate::variants::numbers_of;
use std::alloc::Global;

// The moment 100, and a caller with no names.
const CALLER: &[u8] = b"\0\0\0\0\0\0\0\x64\x01\0\0\0\0\0\0\0\0";

// Done, and no content.
const DONE: &[u8] = b"\x01\0";

// An ask of each variant in their order, and an End with two more choices, each with its numbers: the requester is `ab`, the group empty.
const ASKS: &[(&[u8], Numbers)] = &[
    (
        b"\x00\0\0\0\x02ab\0\0\0\0\0\0\0\x02/a\0\0\0\0\0\0\0\x0501234567012345670123456701234567",
        [0, 2, 0, 2, 5],
    ),
    (b"\x01\0\0\0\x02ab\0\0\0\0\0\0\0\x02/a", [1, 2, 0, 2, 0]),
    (
        b"\x02\0\0\0\x02ab\0\0\0\0\0\0\0\x02\0\0\0\x02/a\0\0\0\0\x01b\x01\0\0\0\0\0\0\x0e\x10",
        [2, 2, 0, 2, 3600],
    ),
    (
        b"\x03\0\0\0\x02ab\0\0\0\0\0\0\0\x07\0\0\0\x02\0\0\0\x02/a\0\0\0\0",
        [3, 2, 0, 7, 2],
    ),
    (b"\x04\0\0\0\x02ab\0\0\0\0\0\0\0\x07", [4, 2, 0, 7, 0]),
    (
        b"\x05\0\0\0\x02ab\0\0\0\0\0\0\0\x07\0\0\0\x01\0\0\0\x02/a",
        [5, 2, 0, 7, 1],
    ),
    (b"\x06\0\0\0\x03", [6, 3, 0, 0, 0]),
    (b"\x07\0\0\0\x02", [7, 2, 0, 0, 0]),
    (
        b"\x08\0\0\0\x02\0\0\0\x01\0\0\0\x01\0\0\0\x01\x02\0\0\0\x09\0\0\0\0\0\0\0\x0501234567012345670123456701234567",
        [8, 2, 1, 9, 5],
    ),
    (b"\x09\0\0\0\x02\0\0\0\x04\0\0\0\x01\0", [9, 2, 4, 1, 0]),
    (
        b"\x0a\0\0\0\x02\x03\0\0\0\x01\0\0\0\x01\0\0\0\x01\x02\0\0\0\0",
        [10, 2, 3, 1, 0],
    ),
    (b"\x0b\0\0\0\x02\0", [11, 2, 0, 0, 0]),
    (b"\x0c\0\0\0\x02ab\0\0\0\0\0\0\0\x03", [12, 2, 0, 3, 0]),
    (b"\x0d\0\0\0\x02ab\0\0\0\0\0\0\0\x03", [13, 2, 0, 3, 0]),
    (b"\x0e\0\0\0\x02ab\0\0\0\0\0\0\0\x04\x03", [14, 2, 0, 4, 3]),
    (b"\x0f\0\0\0\x02ab\0\0\0\0\0\0\0\x04", [15, 2, 0, 4, 0]),
    (b"\x10\0\0\0\x02ab\0\0\0\0\0\0\0\x04", [16, 2, 0, 4, 0]),
    (
        b"\x11\0\0\0\x02ab\0\0\0\0\0\0\0\x01\0\0\0\x02/a",
        [17, 2, 0, 1, 0],
    ),
    (b"\x0b\0\0\0\x02\x01\x04", [11, 2, 1, 4, 0]),
    (
        b"\x0b\0\0\0\x02\x01\x05\0\0\0\0\0\0\0\x0501234567012345670123456701234567\0\0\0\0\0\0\x01\0\xff1234567012345670123456701234567",
        [11, 2, 1, 5, 256],
    ),
];

// Whether an ask that was answered Done is kept, and has these numbers.
fn is_ask_kept(alloc: Global, ask: &[u8], numbers: Numbers) -> bool {
    numbers_of(alloc, CALLER, ask, DONE) == Some((numbers, one(1, 0)))
}

// The first of the asks that isn't kept.
fn lost_ask(alloc: Global) -> Option<usize> {
    for (index, (ask, numbers)) in ASKS.iter().enumerate() {
        if !is_ask_kept(alloc, ask, *numbers) {
            return Some(index);
        }
    }
    None
}

#[test]
fn each_ask_is_kept(rt: HostRuntime) {
    assert_eq!(rt; lost_ask(rt.alloc()), None);
}
