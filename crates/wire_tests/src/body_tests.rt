// Bodies of requests, with ample memory.
use cta_site::TapeState;
use std::alloc::{AllocError, Global};
use std::test::Fail;
use tape_json::{BodyError, read_paths, read_stage, read_state, read_vid};

fn word_of(error: BodyError) -> &'static str {
    match error {
        BodyError::BadBody => "bad body",
        BodyError::BadLifetime => "bad lifetime",
        BodyError::EmptyList => "empty list",
        BodyError::NoMemory => "no memory",
    }
}

// What a stage body is read as: the path and the lifetime of its last file, or its fault.
fn last_wanted(alloc: Global, body: &str) -> (&'static str, usize, Option<u64>) {
    match read_stage(alloc, body.as_bytes()) {
        Ok(files) => match files.as_slice().last() {
            Some(file) => ("ok", file.path.as_str().len(), file.lifetime),
            None => ("none", 0, None),
        },
        Err(error) => (word_of(error), 0, None),
    }
}

// How many paths a body has, or its fault.
fn paths_word(alloc: Global, body: &[u8]) -> (&'static str, usize) {
    match read_paths(alloc, body) {
        Ok(paths) => ("ok", paths.len()),
        Err(error) => (word_of(error), 0),
    }
}

fn state_word(alloc: Global, body: &str) -> (&'static str, Option<TapeState>) {
    match read_state(alloc, body.as_bytes()) {
        Ok(state) => ("ok", Some(state)),
        Err(error) => (word_of(error), None),
    }
}

fn vid_word(alloc: Global, body: &str) -> (&'static str, usize) {
    match read_vid(alloc, body.as_bytes()) {
        Ok(vid) => ("ok", vid.as_str().len()),
        Err(error) => (word_of(error), 0),
    }
}

// Stage bodies, each with the length of its last path, and with its last lifetime.
const STAGE_BODIES: [(&str, usize, Option<u64>); 5] = [
    (r#"{"files":[{"path":"/a"}]}"#, 2, None),
    (r#"{"files":[{"path":"/a","diskLifetime":null}]}"#, 2, None),
    (
        r#"{"files":[{"path":"/a","path":"/bc","more":1}],"x":[]}"#,
        3,
        None,
    ),
    (
        r#"{"files":[{"path":"/a"},{"path":"","diskLifetime":"PT1S"}]}"#,
        0,
        Some(1),
    ),
    (r#"{"files":[{"path":"/a","targetedMetadata":7}]}"#, 2, None),
];

// The first of these bodies that is read otherwise.
fn wrong_stage_body(alloc: Global) -> Option<&'static str> {
    for (body, len, lifetime) in STAGE_BODIES {
        if last_wanted(alloc, body) != ("ok", len, lifetime) {
            return Some(body);
        }
    }
    None
}

// Stage bodies that are refused, each with its first fault.
const STAGE_FAULTS: [(&str, &str); 11] = [
    (
        r#"{"files":[{"path":"/a","diskLifetime":3600}]}"#,
        "bad lifetime",
    ),
    (
        r#"{"files":[{"path":"/a","diskLifetime":"x"}]}"#,
        "bad lifetime",
    ),
    (
        r#"{"files":[{"path":"/a","diskLifetime":"x"},{"path":1}]}"#,
        "bad body",
    ),
    (r#"{"files":[]}"#, "empty list"),
    (r#"{"files":{}}"#, "bad body"),
    (r#"{"files":null}"#, "bad body"),
    (r#"{"files":["/a"]}"#, "bad body"),
    (r#"{"paths":["/a"]}"#, "bad body"),
    (r#"[{"path":"/a"}]"#, "bad body"),
    (r#"{"files":[{"path":"/a"}]"#, "bad body"),
    ("", "bad body"),
];

// The first of these bodies that is read, or has another fault.
fn wrong_stage_fault(alloc: Global) -> Option<&'static str> {
    for (body, fault) in STAGE_FAULTS {
        if last_wanted(alloc, body) != (fault, 0, None) {
            return Some(body);
        }
    }
    None
}

// The seconds of lifetimes (ISO 8601).
const LIFETIMES: [(&str, u64); 16] = [
    ("P0Y", 0),
    ("P0M", 0),
    ("PT0S", 0),
    ("-PT0S", 0),
    ("PT1M", 60),
    ("PT0.5H", 1800),
    ("PT0.5S", 0),
    ("PT1.9S", 1),
    ("PT24H", 86_400),
    ("P1D", 86_400),
    ("P1W", 604_800),
    ("P1W2DT3H4M5S", 788_645),
    ("+PT1S", 1),
    ("pt1h", 3600),
    ("PT631107417600S", 631_107_417_600),
    ("PT631107417601S", 631_107_417_600),
];

// Lifetimes that are bad.
const BAD_LIFETIMES: [&str; 10] = [
    "-PT1S", "-PT0.5S", "P1Y", "P1M", "1 hour", "24h", "", "P", "PT", "PT1S ",
];

// What a lifetime is read as.
fn lifetime_of(alloc: Global, text: &str) -> Result<(&'static str, Option<u64>), AllocError> {
    let body = format!(in alloc;
        "{{\"files\":[{{\"path\":\"/a\",\"diskLifetime\":\"{text}\"}}]}}"
    )?;
    let (word, _, lifetime) = last_wanted(alloc, body.as_str());
    Ok((word, lifetime))
}

// The first of the lifetimes that is read otherwise.
fn wrong_lifetime(alloc: Global) -> Option<&'static str> {
    for (text, seconds) in LIFETIMES {
        if lifetime_of(alloc, text) != Ok(("ok", Some(seconds))) {
            return Some(text);
        }
    }
    None
}

// The first of the bad lifetimes that is read, or has another fault.
fn read_bad_lifetime(alloc: Global) -> Option<&'static str> {
    for text in BAD_LIFETIMES {
        if lifetime_of(alloc, text) != Ok(("bad lifetime", None)) {
            return Some(text);
        }
    }
    None
}

// A stage body of 1,000 files from f0000 to f0999.
fn thousand_files(alloc: Global) -> Result<String, AllocError> {
    let mut body = String::from_str(alloc, "{\"files\":[")?;
    for k in 0..1000u32 {
        if k > 0 {
            body.push_str(",")?;
        }
        let path = format!(in alloc; "{{\"path\":\"/atlas/run/f{k:04}\",")?;
        body.push_str(path.as_str())?;
        body.push_str(
            r#""diskLifetime":"PT24H","targetedMetadata":{"atlas":{"activity":"rebalancing"}}}"#,
        )?;
    }
    body.push_str("]}")?;
    Ok(body)
}

// How many of these files have the lifetime of a day and the path of their place.
fn days_in_order(alloc: Global, body: &str) -> Result<usize, Fail> {
    let Ok(files) = read_stage(alloc, body.as_bytes()) else {
        return Ok(0);
    };
    let mut found = 0usize;
    for (k, file) in files.as_slice().iter().enumerate() {
        let path = format!(in alloc; "/atlas/run/f{k:04}")?;
        if file.path.is(path.as_str().as_bytes()) && file.lifetime == Some(86_400) {
            found = found.saturating_add(1);
        }
    }
    Ok(found)
}

// A body with a VID that nests so deep.
fn nested(alloc: Global, depth: usize) -> Result<String, AllocError> {
    let mut body = String::from_str(alloc, "{\"vid\":\"V1\",\"x\":")?;
    for _ in 1..depth {
        body.push_str("[")?;
    }
    for _ in 1..depth {
        body.push_str("]")?;
    }
    body.push_str("}")?;
    Ok(body)
}

const PATHS: [(&[u8], (&str, usize)); 7] = [
    (br#"{"paths":["/a","/a","/b"]}"#, ("ok", 3)),
    (br#" { "paths" : [ "" ] , "x" : 1 } "#, ("ok", 1)),
    (br#"{"paths":[]}"#, ("empty list", 0)),
    (br#"{"paths":["/a",1]}"#, ("bad body", 0)),
    (br#"{"paths":"/a"}"#, ("bad body", 0)),
    (br#"{"files":[]}"#, ("bad body", 0)),
    (b"{\"paths\":[\"\xff\"]}", ("bad body", 0)),
];

// The first of these bodies of paths that is read otherwise.
fn wrong_paths(alloc: Global) -> Option<&'static [u8]> {
    for (body, wanted) in PATHS {
        if paths_word(alloc, body) != wanted {
            return Some(body);
        }
    }
    None
}

const STATES: [(&str, Option<TapeState>); 6] = [
    (r#"{"state":"ACTIVE"}"#, Some(TapeState::Active)),
    (r#"{"state":"DISABLED"}"#, Some(TapeState::Disabled)),
    (r#"{"state":"BROKEN"}"#, Some(TapeState::Broken)),
    (r#"{"state":"REPACKING"}"#, Some(TapeState::Repacking)),
    (r#"{"state":"active"}"#, None),
    (r#"{"state":null}"#, None),
];

// The first of these bodies of a state that is read otherwise.
fn wrong_state(alloc: Global) -> Option<&'static str> {
    for (body, wanted) in STATES {
        if state_word(alloc, body).1 != wanted {
            return Some(body);
        }
    }
    None
}

#[test]
fn bodies(rt: HostRuntime) {
    let alloc = rt.alloc();
    let stage = [wrong_stage_body(alloc), wrong_stage_fault(alloc)];
    assert_eq!(rt; stage, [None, None]);
    assert_eq!(rt; wrong_paths(alloc), None);
    assert_eq!(rt; wrong_state(alloc), None);
}

#[test]
fn lifetimes(rt: HostRuntime) {
    let alloc = rt.alloc();
    let wrong = [wrong_lifetime(alloc), read_bad_lifetime(alloc)];
    assert_eq!(rt; wrong, [None, None]);
}

#[test]
fn bodies_with_a_vid(rt: HostRuntime) {
    let alloc = rt.alloc();
    let words = [
        vid_word(alloc, r#"{"vid":"V00001"}"#),
        vid_word(alloc, r#"{"vid":1}"#),
    ];
    assert_eq!(rt; words, [("ok", 6), ("bad body", 0)]);
}

// The length of the body of 1,000 files, and how many of them are read as they stand.
fn thousand_read(alloc: Global) -> Result<(usize, usize), Fail> {
    let body = thousand_files(alloc)?;
    Ok((body.len(), days_in_order(alloc, body.as_str())?))
}

// What the VID of a body that nests so deep is read as.
fn nested_word(alloc: Global, depth: usize) -> Result<(&'static str, usize), AllocError> {
    let body = nested(alloc, depth)?;
    Ok(vid_word(alloc, body.as_str()))
}

#[test]
fn large_and_deep_bodies(rt: HostRuntime) -> Result<(), Fail> {
    let alloc = rt.alloc();
    assert_eq!(rt; thousand_read(alloc)?, (107_011, 1000));
    let words = [nested_word(alloc, 127), nested_word(alloc, 128)];
    assert_eq!(rt; words, [Ok(("ok", 2)), Ok(("bad body", 0))]);
    Ok(())
}
