use conn::{
    Conn, Next, answers, continue_text, has_cut, no_bytes, one_cut, one_message, one_outcome,
    steps_follow, two_texts,
};
use std::alloc::{AllocError, Global};

fn put(out: &mut Vec<u8>, bytes: &[u8]) {
    let _ = out.extend_from_slice(bytes);
}

// A word for what came next, and whether something else may come.
fn put_next(out: &mut Vec<u8>, next: Result<Next, cta_site::NoMemory>) -> bool {
    match next {
        Ok(Next::Need) => return false,
        Ok(Next::Continue) => put(out, b"continue "),
        Ok(Next::Request(request)) => {
            put(out, request.method.as_bytes());
            put(out, request.target.as_bytes());
            put(out, b"=");
            let mut bytes = [0; 16];
            let count = request.body.piece(0, &mut bytes);
            if count <= bytes.len() {
                put(out, &bytes[..count]);
            }
            put(out, if request.close { b"! " } else { b"; " });
        }
        Ok(Next::Refused(refusal)) => put(out, refusal.text().as_bytes()),
        Ok(Next::Closed) => return false,
        Err(_) => put(out, b"no memory "),
    }
    true
}

fn feed_to(alloc: Global, conn: &mut Conn, out: &mut Vec<u8>, piece: &[u8]) {
    if conn.feed(piece).is_err() {
        put(out, b"no memory ");
    }
    for _ in 0..20 {
        if !put_next(out, conn.next(alloc)) {
            break;
        }
    }
}

// What a connection gives for the bytes, cut at one place.
fn given(alloc: Global, bytes: &[u8], cut: usize) -> Vec<u8> {
    let mut conn = Conn::new(alloc, 1000);
    let mut out = Vec::new(alloc);
    if cut <= bytes.len() {
        feed_to(alloc, &mut conn, &mut out, &bytes[..cut]);
        feed_to(alloc, &mut conn, &mut out, &bytes[cut..]);
    }
    out
}

// The same, byte by byte.
fn given_by_bytes(alloc: Global, bytes: &[u8]) -> Vec<u8> {
    let mut conn = Conn::new(alloc, 1000);
    let mut out = Vec::new(alloc);
    for i in 0..bytes.len() {
        feed_to(alloc, &mut conn, &mut out, &bytes[i..i + 1]);
    }
    out
}

// Connections, each with what it gives.
const CONNECTIONS: [(&[u8], &[u8]); 4] = [
    (
        b"PUT /data/atlas/a HTTP/1.1\r\nHost: t\r\nContent-Length: 5\r\nTransfer-Encoding: chunked\r\n\r\nhello",
        b"two lengths",
    ),
    (
        b"PUT /a HTTP/1.1\r\nhost: t\r\ntransfer-encoding: Chunked\r\n\r\n5;x\r\nhello\r\n003\r\nabc\r\n0\r\nx: y\r\nz:\r\n\r\n\r\nGET / HTTP/1.0\n\nGET",
        b"PUT/a=helloabc; GET/=! ",
    ),
    (
        b"PUT /a HTTP/1.1\r\nhost: t\r\nexpect: 100-continue\r\ncontent-length: 3\r\n\r\nabc",
        b"continue PUT/a=abc; ",
    ),
    (
        b"PUT /data/a HTTP/1.1\r\nhost: t\r\ntransfer-encoding: chunked\r\n\r\n2\r\nab\r\n3e7\r\n",
        b"body too large",
    ),
];

// The first place at which a connection that is cut there gives something else.
fn wrong_cut(alloc: Global, bytes: &[u8], wanted: &[u8]) -> Option<usize> {
    for cut in 0..bytes.len() + 1 {
        if given(alloc, bytes, cut).as_slice() != wanted {
            return Some(cut);
        }
    }
    None
}

// Connections whole, cut at each byte, and byte by byte.
#[test]
fn connections(rt: HostRuntime) {
    let alloc = rt.alloc();
    for (bytes, wanted) in CONNECTIONS {
        assert_eq!(rt; wrong_cut(alloc, bytes, wanted), None);
        assert_eq!(rt; given_by_bytes(alloc, bytes).as_slice(), wanted);
    }
}

// A PUT whose chunk line has that many blanks.
fn long_line(alloc: Global, blanks: usize) -> Result<Vec<u8>, AllocError> {
    let mut text = Vec::from_slice(
        alloc,
        b"PUT /data/a HTTP/1.1\r\nhost: t\r\ntransfer-encoding: chunked\r\n\r\n1",
    )?;
    for _ in 0..blanks {
        text.push(b' ')?;
    }
    text.extend_from_slice(b"\r\n")?;
    Ok(text)
}

// What a connection gives that was closed from here between two requests.
fn given_closed(alloc: Global) -> Vec<u8> {
    let mut conn = Conn::new(alloc, 1000);
    let mut out = Vec::new(alloc);
    if conn.feed(b"GET /a HTTP/1.1\r\nhost: t\r\n\r\n").is_err() {
        put(&mut out, b"no memory ");
    }
    conn.close();
    feed_to(
        alloc,
        &mut conn,
        &mut out,
        b"GET /b HTTP/1.1\r\nhost: t\r\n\r\n",
    );
    out
}

// How many answers two pieces get.
fn count_of_answers(alloc: Global) -> Result<usize, AllocError> {
    let mut pieces = Vec::new(alloc);
    pieces.push(Vec::from_slice(alloc, b"GET /a HTTP/1.1\r\nho")?)?;
    pieces.push(Vec::from_slice(alloc, b"st: t\r\n\r\nGET")?)?;
    match answers(alloc, 1000, pieces.as_slice()) {
        Ok(all) => Ok(all.len()),
        Err(_) => Ok(0),
    }
}

// A chunk line of the greatest length, and one longer.
#[test]
fn lengths_of_chunk_lines(rt: HostRuntime) {
    let alloc = rt.alloc();
    for (blanks, wanted) in [(253, b"".as_slice()), (254, b"bad chunk".as_slice())] {
        let text = long_line(alloc, blanks).unwrap_or(Vec::new(alloc));
        let outcome = given(alloc, text.as_slice(), 0);
        assert_eq!(rt; (text.len(), outcome.as_slice()), (64 + blanks, wanted));
    }
}

// What `close` and `answers` do.
#[test]
fn ends(rt: HostRuntime) {
    let alloc = rt.alloc();
    let closed = given_closed(alloc).len();
    let answered = count_of_answers(alloc).unwrap_or(0);
    assert_eq!(rt; [closed, answered, continue_text().len()], [0, 1, 25]);
}

// The laws, each called once.
#[test]
fn laws() {
    one_message();
    one_cut();
    two_texts();
    steps_follow();
    one_outcome();
    no_bytes();
    has_cut(1000, b"GET /a HTTP/1.1\r\nhost: t\r\n\r\nGE");
}

// What a piece gives for which room was made.
fn given_reserved(alloc: Global, piece: &[u8]) -> Vec<u8> {
    let mut conn = Conn::new(alloc, 1000);
    let mut out = Vec::new(alloc);
    if conn.reserve(piece.len()).is_err() {
        put(&mut out, b"no room ");
    }
    feed_to(alloc, &mut conn, &mut out, piece);
    conn.has_completion();
    out
}

#[test]
fn room_made(rt: HostRuntime) {
    let piece = b"GET /a HTTP/1.1\r\nhost: t\r\n\r\nGE";
    assert_eq!(rt;
        given_reserved(rt.alloc(), piece).as_slice(),
        b"GET/a=; ".as_slice()
    );
}

// Pieces of one connection, and how many bytes it holds behind each: of a head, behind the head, of a body of two chunks, of a chunk's end and of
// a trailer, and of the next head.
const HELD: [(&[u8], u64); 8] = [
    (b"PUT /data/a HTTP/1.1\r\n", 22),
    (b"host: t\r\ntransfer-encoding: chunked\r\n\r\n", 0),
    (b"5", 1),
    (b"\r\nhel", 3),
    (b"lo\r", 6),
    (b"\n4\r\nwide\r\n0\r\n", 9),
    (b"a: b", 13),
    (b"\r\n\r\nGET", 3),
];

// What bytes a connection holds behind each piece.
#[test]
fn bytes_held(rt: HostRuntime) {
    let alloc = rt.alloc();
    let mut conn = Conn::new(alloc, 1000);
    let mut out = Vec::new(alloc);
    for (piece, wanted) in HELD {
        feed_to(alloc, &mut conn, &mut out, piece);
        assert_eq!(rt; conn.held(), wanted);
    }
    conn.close();
    assert_eq!(rt; conn.held(), 0);
}
