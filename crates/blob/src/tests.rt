use super::*;
use std::alloc::AllocError;

// A content in three pieces is the content, and each place of it can be read.
#[test]
fn pieces_are_the_content(rt: HostRuntime) -> Result<(), AllocError> {
    let alloc = rt.alloc();
    let mut maker = BlobMaker::new(alloc);
    let pieces: [&[u8]; 3] = [b"hel", b"", b"lo"];
    for piece in pieces {
        assert!(rt; maker.push(piece).is_ok());
    }
    assert_eq!(rt; maker.len(), 5);
    let Ok(made) = maker.finish() else {
        panic!(rt; "no memory");
    };
    let Ok(whole) = Blob::of(Vec::from_slice(alloc, b"hello")?) else {
        panic!(rt; "no memory");
    };
    assert_eq!(rt; made.sum(), sum_of(b"hello"));
    assert_eq!(rt; whole.sum(), made.sum());
    let cases: [(u64, usize, &[u8]); 5] = [
        (0, 3, b"hel"),
        (3, 3, b"lo-"),
        (4, 1, b"o"),
        (5, 3, b"---"),
        (u64::MAX, 1, b"-"),
    ];
    for (from, room, wanted) in cases {
        let mut to = [b'-'; 3];
        let count = made.piece(from, &mut to[..room]);
        assert!(rt; count <= room);
        assert_eq!(rt; &to[..room], wanted);
    }
    Ok(())
}
