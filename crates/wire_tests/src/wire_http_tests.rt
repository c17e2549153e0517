use blob::Blob;
use cta_site::Text;
use std::alloc::Global;
use std::sync::Arc;
use std::test::Fail;
use wire_http::{
    BodyLen, Head, HeadRead, Judged, Kind, Reply, WireRefusal, error_reply, judge_head, read_head,
    refusal_reply, write_reply,
};

// What the front of these bytes is read as, in a word.
fn word_of(alloc: Global, bytes: &[u8]) -> &'static str {
    match read_head(alloc, bytes, 1000) {
        Ok(HeadRead::Need) => "need",
        Ok(HeadRead::Head(_)) => "head",
        Ok(HeadRead::Refused(refusal)) => refusal.text(),
        Err(_) => "no memory",
    }
}

// The same, as it is judged.
fn judged_word(bytes: &[u8]) -> &'static str {
    match judge_head(bytes, 1000) {
        Judged::Need => "need",
        Judged::Passes(_) => "head",
        Judged::Refused(refusal) => refusal.text(),
    }
}

// Heads whole, and the first rule that each of the others breaks.
const HEADS: [(&[u8], &str); 8] = [
    (b"", "need"),
    (b"\r\n", "need"),
    (b"GET / HTTP/1.1\nHost: t\n\nmore", "head"),
    (b"GET / HTTP/1.0\r\n\r\n", "head"),
    (b"GET / HTTP/1.1\r\nHost: t\r\n\r", "need"),
    (b"GE(T", "bad head"),
    (
        b"PUT /data/a HTTP/1.1\r\nHost: t\r\nContent-Length: 1000\r\n\r\n",
        "head",
    ),
    (
        b"PUT /data/a HTTP/1.1\r\nHost: t\r\nContent-Length: 1001\r\n\r\n",
        "body too large",
    ),
];

#[test]
fn heads(rt: HostRuntime) {
    for (bytes, wanted) in HEADS {
        let words = [word_of(rt.alloc(), bytes), judged_word(bytes)];
        assert_eq!(rt; words, [wanted, wanted]);
    }
}

// The longest head that may go on, and one more byte.
#[test]
fn long_heads(rt: HostRuntime) {
    let alloc = rt.alloc();
    let long = [b'\n'; 16384];
    let words = [word_of(alloc, &long[..16383]), word_of(alloc, &long)];
    assert_eq!(rt; words, ["need", "bad head"]);
}

// A head with every field that is read, and its body of 7 bytes.
const PUT: &[u8] =
    b"PUT /data/a?b=/c? HTTP/1.1\r\nhost: t\r\nX-Cta-Group: atlas \r\nX-Cta-Group: cms\r\n\
    X-Cta-Requester: \xff\r\nexpect: 100-Continue\r\nCONNECTION: keep-alive ,\tClose\r\ncontent-length: 007\r\n\r\n1234567";

// The length of the shortest front of these bytes that is more than the start of a head.
fn shortest_read(alloc: Global, bytes: &[u8]) -> usize {
    for cut in 0..bytes.len() {
        if word_of(alloc, &bytes[..cut]) != "need" {
            return cut;
        }
    }
    bytes.len()
}

// Whether a head of this length says what that one does.
fn is_put(head: &Head, whole: usize) -> bool {
    let texts = [head.method.as_str(), head.target.as_str()];
    let who = [head.who.group.as_str(), head.who.requester.as_str()];
    texts == ["PUT", "/data/a"]
        && who == ["atlas", ""]
        && head.body == BodyLen::Sized(7)
        && [head.expects, head.close] == [true, true]
        && head.len as usize == whole
}

// Whether those bytes are read as that head.
fn reads_put(alloc: Global, whole: usize) -> bool {
    let read = read_head(alloc, PUT, 7);
    matches!(&read, Ok(HeadRead::Head(head)) if is_put(head, whole))
}

#[test]
fn head_of_a_put(rt: HostRuntime) {
    let whole = PUT.len() - 7;
    assert_eq!(rt; shortest_read(rt.alloc(), PUT), whole);
    assert!(rt; reads_put(rt.alloc(), whole));
}

// A reply's text, empty where there is no memory for it.
fn text_of(alloc: Global, reply: Reply) -> Vec<u8> {
    write_reply(alloc, &reply).unwrap_or(Vec::new(alloc))
}

// The lengths of the texts of the refusals.
const REFUSALS: [(WireRefusal, usize); 8] = [
    (WireRefusal::BadHead, 119),
    (WireRefusal::BadTarget, 121),
    (WireRefusal::BadHost, 119),
    (WireRefusal::TwoLengths, 122),
    (WireRefusal::Coding, 121),
    (WireRefusal::BadLength, 121),
    (WireRefusal::TooLarge, 131),
    (WireRefusal::BadChunk, 120),
];

// The length of a refusal's text, 0 where there is no memory for it.
fn refusal_len(alloc: Global, refusal: WireRefusal) -> usize {
    match refusal_reply(alloc, refusal) {
        Ok(reply) => text_of(alloc, reply).len(),
        Err(_) => 0,
    }
}

#[test]
fn refusals(rt: HostRuntime) {
    for (refusal, wanted) in REFUSALS {
        assert_eq!(rt; refusal_len(rt.alloc(), refusal), wanted);
    }
}

// An error's text, empty where there is no memory for it.
fn error_text(alloc: Global, code: u16, words: &str) -> Vec<u8> {
    match error_reply(alloc, code, words, false) {
        Ok(reply) => text_of(alloc, reply),
        Err(_) => Vec::new(alloc),
    }
}

// An error, whose text is escaped.
#[test]
fn error(rt: HostRuntime) {
    let wanted: &[u8] =
        b"HTTP/1.1 404 Not Found\r\nContent-Type: application/json\r\nContent-Length: 25\r\n\r\n{\"error\":\"no \\\"such\\\"\\n\"}";
    let text = error_text(rt.alloc(), 404, "no \"such\"\n");
    assert_eq!(rt; text.as_slice(), wanted);
}

// A reply with every field and the bytes of a blob.
fn full_reply(blob: Arc<Blob>, location: Text, allow: Text) -> Reply {
    Reply {
        code: 200,
        kind: Kind::Bytes(blob),
        location: Some(location),
        allow: Some(allow),
        close: false,
    }
}

// The text of such a reply, where there is memory for it.
fn full_text(alloc: Global) -> Option<Vec<u8>> {
    let bytes = Vec::from_slice(alloc, b"hello").ok()?;
    let blob = Arc::new(alloc, Blob::of(bytes).ok()?).ok()?;
    let location = Text::of(String::from_str(alloc, "/l").ok()?);
    let allow = Text::of(String::from_str(alloc, "GET").ok()?);
    Some(text_of(alloc, full_reply(blob, location, allow)))
}

#[test]
fn text_with_every_field(rt: HostRuntime) -> Result<(), Fail> {
    let wanted: &[u8] =
        b"HTTP/1.1 200 OK\r\nContent-Type: application/octet-stream\r\nContent-Length: 5\r\nLocation: /l\r\nAllow: GET\r\n\r\nhello";
    let text = full_text(rt.alloc()).ok_or("no memory")?;
    assert_eq!(rt; text.as_slice(), wanted);
    Ok(())
}
