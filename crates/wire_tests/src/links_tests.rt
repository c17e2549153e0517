use conn::Next;
use links::Links;
use std::alloc::Global;

fn put(out: &mut Vec<u8>, bytes: &[u8]) {
    let _ = out.extend_from_slice(bytes);
}

// A word for an event.
fn put_next(out: &mut Vec<u8>, next: &Next) {
    match next {
        Next::Need => put(out, b"need "),
        Next::Continue => put(out, b"continue "),
        Next::Request(request) => {
            put(out, request.method.as_bytes());
            put(out, request.target.as_bytes());
            put(out, b"=");
            let mut bytes = [0; 16];
            let count = request.body.piece(0, &mut bytes);
            if count <= bytes.len() {
                put(out, &bytes[..count]);
            }
            put(out, if request.close { b"! " } else { b"; " });
        }
        Next::Refused(refusal) => put(out, refusal.text().as_bytes()),
        Next::Closed => put(out, b"closed "),
    }
}

// Feeds a piece to a link, and says what it gave.
fn turn_to(alloc: Global, links: &mut Links, link: u32, piece: &[u8]) -> Vec<u8> {
    let mut out = Vec::new(alloc);
    if link < 1024 {
        match links.turn(alloc, link, piece) {
            Ok(events) => for event in &events {
                put_next(&mut out, event);
            },
            Err(_) => put(&mut out, b"no memory"),
        }
    }
    out
}

// Pieces of two links between each other, each with what it gives: pairs, a 100 Continue, a refusal behind which nothing is read,
// and a closing request.
const PIECES: [(u32, &[u8], &[u8]); 9] = [
    (
        0,
        b"PUT /data/a HTTP/1.1\r\nHost: t\r\nExpect: 100-continue\r\n",
        b"",
    ),
    (
        1023,
        b"GET /x HTTP/1.1\r\nHost: t\r\n\r\nGET /y HTTP/1.1\r\nHost: t\r\n\r\nGET /z",
        b"GET/x=; GET/y=; ",
    ),
    (0, b"Content-Length: 5\r\n\r\nhe", b"continue "),
    (1023, b"?q HTTP/1.1\r\nHost: t\r\n", b""),
    (0, b"", b""),
    (0, b"llo", b"PUT/data/a=hello; "),
    (
        1023,
        b"\r\nGET x HTTP/1.1\r\nHost: t\r\n\r\n",
        b"GET/z=; bad target",
    ),
    (1023, b"GET /late HTTP/1.1\r\nHost: t\r\n\r\n", b""),
    (
        0,
        b"GET /b HTTP/1.0\r\n\r\nGET /c HTTP/1.1\r\nHost: t\r\n\r\n",
        b"GET/b=! ",
    ),
];

// The first of these pieces that gives something else.
fn wrong_piece(alloc: Global, mut links: Links) -> Option<&'static [u8]> {
    for (link, piece, wanted) in PIECES {
        if turn_to(alloc, &mut links, link, piece).as_slice() != wanted {
            return Some(piece);
        }
    }
    None
}

#[test]
fn two_links(rt: HostRuntime) {
    let Ok(links) = Links::new(rt.alloc(), 1000) else {
        panic!(rt; "no memory");
    };
    assert_eq!(rt; wrong_piece(rt.alloc(), links), None);
}
