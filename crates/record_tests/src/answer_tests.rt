// A record of each answer.
use crate::numbers::{Numbers, one};
use crate::variants::numbers_of;
use std::alloc::Global;

// The moment 100, the drive 3, and a Claim of the mount 2.
const CLAIM: &[u8] = b"\0\0\0\0\0\0\0\x64\0\0\0\0\x03\x07\0\0\0\x02";

// A content of 2 bytes.
const CONTENT: &[u8] = b"\x01\0\0\0\0\0\0\0\x02hi";

// An answer of each variant in their order, and two again with other choices, each with its numbers.
const ANSWERS: &[(&[u8], Numbers)] = &[
    (b"\x00\0\0\0\x02\0\0\0\x05\0\0\x01\0", [0, 2, 5, 256, 0]),
    (b"\x01", [1, 0, 0, 0, 0]),
    (b"\x02\0\0\0\x07", [2, 7, 0, 0, 0]),
    (b"\x03\0\0\0\x07\x01\0\0\0\x04", [3, 7, 1, 4, 0]),
    (b"\x04", [4, 0, 0, 0, 0]),
    (b"\x05", [5, 0, 0, 0, 0]),
    (b"\x06", [6, 0, 0, 0, 0]),
    (
        b"\x07\0\0\0\x01\0\0\0\x01\0\0\0\x01\x02\0\0\0\x09\0\0\0\0\0\0\0\x0501234567012345670123456701234567\0\0\0\x02\0\0\0\x05\0\0\x01\0",
        [7, 1, 2, 9, 5],
    ),
    (b"\x08", [8, 0, 0, 0, 0]),
    (b"\x09\0\0\0\x02\0\x01", [9, 2, 0, 0, 0]),
    (b"\x0a\x01", [10, 1, 0, 0, 0]),
    (
        b"\x0b\0\0\0\x07\0\0\0\x01\0\0\0\0\0\0\0\x01\x02",
        [11, 7, 1, 0, 0],
    ),
    (b"\x0c\0\0\0\x01\0\0\0\x01\0\0\0\x01\x02", [12, 1, 0, 0, 0]),
    (
        b"\x0d\0\0\0\0\0\0\0\x0501234567012345670123456701234567",
        [13, 5, 0, 0, 0],
    ),
    (
        b"\x0e\0\0\0\x07\0\0\0\0\0\0\0d\x01\0\0\0\0\0\0\0e\0\0\0\0\x01\0\0\0\x02/a\x02\x01\x01\0\0\0\0\0\0\0e\x01\0\0\0\0\0\0\0f\0",
        [14, 7, 100, 101, 0],
    ),
    (
        b"\x0f\0\0\0\x02\0\0\0\x02/a\x01\x02\0\0\0\0\x01b\0\x01\0\0\0\x02no",
        [15, 2, 0, 0, 0],
    ),
    (
        b"\x10\0\0\0\x07\0\0\0\x02V1\0\0\0\x01\0\0\0\x02/a\x01\x03",
        [16, 7, 1, 0, 0],
    ),
    (
        b"\x11\0\0\0\x01\0\0\0\x02/a\x02\0\0\0\x02\0\0\0\x04load\0\0\0\0",
        [17, 1, 2, 2, 0],
    ),
    (
        b"\x12\0\0\0\x02V1\x02\0\0\0\0\0\x01\0\0\0\0\0\x03\0\0\0\x04",
        [18, 2, 65_536, 3, 4],
    ),
    (
        b"\x13\0\0\0\x01\x01\0\0\0\x02V1\0\0\0\x03\0\0\0\0\0\0\0\x05\0\0\0\0\0\0\0d",
        [19, 1, 3, 5, 100],
    ),
    (b"\x14\x11", [20, 17, 0, 0, 0]),
    (
        b"\x0e\0\0\0\x07\0\0\0\0\0\0\0d\0\x01\0\0\0\0\0\0\0e\0\0\0\x01\0\0\0\0\x04\0\0\0\x01\0\0\0\x02no",
        [14, 7, 100, 0, 101],
    ),
    (b"\x14\0", [20, 0, 0, 0, 0]),
];

// Whether an answer to a Claim is kept, with a content behind it, and has these numbers.
fn is_answer_kept(alloc: Global, answer: &[u8], numbers: Numbers) -> bool {
    numbers_of(alloc, CLAIM, answer, CONTENT) == Some((one(7, 2), numbers))
}

// The first of the answers that isn't kept.
fn lost_answer(alloc: Global) -> Option<usize> {
    for (index, (answer, numbers)) in ANSWERS.iter().enumerate() {
        if !is_answer_kept(alloc, answer, *numbers) {
            return Some(index);
        }
    }
    None
}

#[test]
fn each_answer_is_kept(rt: HostRuntime) {
    assert_eq!(rt; lost_answer(rt.alloc()), None);
}
