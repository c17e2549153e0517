// Requests, with ample memory.
use blob::Blob;
use cta_model::{Ask, Look, Who};
use cta_site::{Text, ValidSite};
use site_json::read_site;
use std::alloc::{AllocError, Global};
use tape_routes::{Routed, Routes};
use wire_http::Request;

const SITE: &str =
    r#"{"classes":[{"copies":1,"name":"raw","vo":"atlas"}],"defaultPolicy":"std","directories":[{"class":"raw","path":"/atlas"}],"drives":[{"library":"L1","name":"d0"},{"library":"L1","name":"d1"}],"endpoint":"https://tape.example.org/api/v1","libraries":["L1"],"limits":{"archiveBytes":100,"archiveFiles":1,"batchFiles":10,"buffer":1000,"file":1000,"history":1000,"lifetime":60,"retrieveBytes":100,"retrieveFiles":1,"tries":3},"policies":[{"archiveMinAge":10,"archivePriority":1,"name":"std","retrieveMinAge":10,"retrievePriority":1}],"pools":[{"name":"p1","vo":"atlas"}],"repackPolicy":"std","routes":[{"class":"raw","copy":1,"pool":"p1"}],"sitename":"T1","tapes":[{"capacity":1000,"library":"L1","pool":"p1","state":"ACTIVE","vid":"V0"},{"capacity":1000,"library":"L1","pool":"p1","state":"ACTIVE","vid":"V1"}],"version":1,"vos":[{"name":"atlas","readDrives":1,"writeDrives":1}]}"#;

pub(crate) fn site_of(alloc: Global) -> Option<ValidSite> {
    let site = read_site(alloc, SITE.as_bytes()).ok()?;
    site.check(alloc).ok()
}

// The site with the route table.
#[derive(Drop)]
struct Front {
    site: ValidSite,
    routes: Routes,
}

fn front_of(alloc: Global) -> Option<Front> {
    let routes = Routes::new(alloc).ok()?;
    let site = site_of(alloc)?;
    Some(Front { site, routes })
}

fn text(alloc: Global, text: &str) -> Result<Text, AllocError> {
    Ok(Text::of(String::from_str(alloc, text)?))
}

pub(crate) fn blob_of(alloc: Global, bytes: &str) -> Option<Blob> {
    let bytes = Vec::from_slice(alloc, bytes.as_bytes()).ok()?;
    Blob::of(bytes).ok()
}

fn alice(alloc: Global) -> Option<Who> {
    let requester = text(alloc, "alice").ok()?;
    let group = text(alloc, "atlas").ok()?;
    Some(Who { requester, group })
}

fn request_of(alloc: Global, method: &str, target: &str, body: &str) -> Option<Request> {
    let who = alice(alloc)?;
    let body = blob_of(alloc, body)?;
    let method = text(alloc, method).ok()?;
    let target = text(alloc, target).ok()?;
    Some(Request {
        method,
        target,
        who,
        body,
        close: false,
    })
}

// What an ask says: a word, a number that it names, and how many bytes or items it has.
fn asked(ask: &Ask) -> (&'static str, u32, usize) {
    match ask {
        Ask::Put { path, sum, .. } => ("put", (sum.len % 1000) as u32, path.as_str().len()),
        Ask::Delete { path, .. } => ("delete", 0, path.as_str().len()),
        Ask::Stage { files, .. } => ("stage", 0, files.len()),
        Ask::Cancel { id, paths, .. } => ("cancel", *id, paths.len()),
        Ask::DropStage { id, .. } => ("drop", *id, 0),
        Ask::Release { id, paths, .. } => ("release", *id, paths.len()),
        Ask::DriveUp { drive, .. } => ("up", *drive, 0),
        Ask::DriveDown { drive, .. } => ("down", *drive, 0),
        Ask::TapeState { tape, .. } => ("state", *tape, 0),
        Ask::Reclaim { tape, .. } => ("reclaim", *tape, 0),
        Ask::Repack { tape, .. } => ("repack", *tape, 0),
        Ask::Retry { paths, .. } => ("retry", 0, paths.len()),
        _ => ("session", 0, 0),
    }
}

fn looked(look: &Look) -> (&'static str, u32, usize) {
    match look {
        Look::Fetch { path } => ("fetch", 0, path.as_str().len()),
        Look::StageInfo { id } => ("stage info", *id, 0),
        Look::ArchiveInfo { paths } => ("archive info", 0, paths.len()),
        Look::RepackInfo { id } => ("repack info", *id, 0),
        Look::FailedList => ("failed", 0, 0),
        Look::TapeInfo { tape } => ("tape info", *tape, 0),
        Look::Queues => ("queues", 0, 0),
    }
}

fn routed_word(routed: &Routed) -> (&'static str, u32, usize) {
    match routed {
        Routed::Ask(ask, _) => asked(ask),
        Routed::Look(look) => looked(look),
        Routed::Reply(reply) => ("reply", u32::from(reply.code), 0),
    }
}

fn said(alloc: Global, front: &Front, request: Request) -> (&'static str, u32, usize) {
    match front.routes.route(alloc, &front.site, request) {
        Ok(routed) => routed_word(&routed),
        Err(_) => ("no memory", 0, 0),
    }
}

fn word_of(
    alloc: Global,
    front: &Front,
    method: &str,
    target: &str,
    body: &str,
) -> (&'static str, u32, usize) {
    match request_of(alloc, method, target, body) {
        Some(request) => said(alloc, front, request),
        None => ("no memory", 0, 0),
    }
}

const NONE: u32 = 4294967295;

type Row = (
    &'static str,
    &'static str,
    &'static str,
    (&'static str, u32, usize),
);

// Each route of the WLCG Tape REST API, and of files, with each of its methods.
const ROUTES: [Row; 10] = [
    (
        "GET",
        "/.well-known/wlcg-tape-rest-api",
        "",
        ("reply", 200, 0),
    ),
    (
        "POST",
        "/api/v1/stage",
        r#"{"files":[{"path":"/atlas/a"}]}"#,
        ("stage", 0, 1),
    ),
    (
        "GET",
        "/api/v1/stage/00000000-0000-8000-8000-000000000007",
        "",
        ("stage info", 7, 0),
    ),
    (
        "DELETE",
        "/api/v1/stage/00000000-0000-8000-8000-000000000007",
        "",
        ("drop", 7, 0),
    ),
    (
        "POST",
        "/api/v1/stage/00000000-0000-8000-8000-000000000007/cancel",
        r#"{"paths":["/a","/b"]}"#,
        ("cancel", 7, 2),
    ),
    (
        "POST",
        "/api/v1/release/00000000-0000-8000-8000-000000000007",
        r#"{"paths":["/a"]}"#,
        ("release", 7, 1),
    ),
    (
        "POST",
        "/api/v1/archiveinfo",
        r#"{"paths":["/a","/a"]}"#,
        ("archive info", 0, 2),
    ),
    ("PUT", "/data/atlas/a", "hello", ("put", 5, 8)),
    ("GET", "/data/atlas/a", "", ("fetch", 0, 8)),
    ("DELETE", "/data/atlas/a", "not read", ("delete", 0, 8)),
];

// Each route of the administration with each of its methods.
const ADMIN_ROUTES: [Row; 10] = [
    ("POST", "/admin/v1/drive/d1/up", "", ("up", 1, 0)),
    ("POST", "/admin/v1/drive/d1/down", "", ("down", 1, 0)),
    ("GET", "/admin/v1/tape/V1", "", ("tape info", 1, 0)),
    (
        "POST",
        "/admin/v1/tape/V1/state",
        r#"{"state":"BROKEN"}"#,
        ("state", 1, 0),
    ),
    ("POST", "/admin/v1/tape/V1/reclaim", "", ("reclaim", 1, 0)),
    (
        "POST",
        "/admin/v1/repack",
        r#"{"vid":"V1"}"#,
        ("repack", 1, 0),
    ),
    (
        "GET",
        "/admin/v1/repack/00000000-0000-8000-8000-000000000007",
        "",
        ("repack info", 7, 0),
    ),
    ("GET", "/admin/v1/failed", "", ("failed", 0, 0)),
    (
        "POST",
        "/admin/v1/failed/retry",
        r#"{"paths":["/a"]}"#,
        ("retry", 0, 1),
    ),
    ("GET", "/admin/v1/queues", "", ("queues", 0, 0)),
];

// What parameters may be, and what names nothing. Targets and methods that are refused stand in the repository's `tests/cases`.
const CORNERS: [Row; 10] = [
    ("GET", "/data/atlas%2fa", "", ("fetch", 0, 8)),
    ("GET", "/data//a", "", ("fetch", 0, 3)),
    ("GET", "/data/%C3%A9", "", ("fetch", 0, 3)),
    ("GET", "/data/50%", "", ("fetch", 0, 4)),
    ("GET", "/data/%zz", "", ("fetch", 0, 4)),
    (
        "GET",
        "/api/v1/stage/00000000000080008000000000000007",
        "",
        ("stage info", 7, 0),
    ),
    (
        "GET",
        "/api/v1/stage/{00000000-0000-8000-8000-0000ABCDEF01}",
        "",
        ("stage info", 2882400001, 0),
    ),
    (
        "GET",
        "/api/v1/stage/%7B00000000-0000-8000-8000-000000000007%7d",
        "",
        ("stage info", 7, 0),
    ),
    (
        "GET",
        "/api/v1/stage/urn:uuid:00000000-0000-8000-8000-0000ffffffff",
        "",
        ("stage info", NONE, 0),
    ),
    (
        "GET",
        "/api/v1/stage/00000000-0000-8000-8000-000100000000",
        "",
        ("stage info", 0, 0),
    ),
];

// More of them: ids and names that name nothing, and an escaped name.
const NAMES: [Row; 8] = [
    (
        "GET",
        "/api/v1/stage/00000000-0000-4000-8000-000000000007",
        "",
        ("stage info", 0, 0),
    ),
    (
        "GET",
        "/api/v1/stage/00000000-0000-0000-0000-000000000007",
        "",
        ("stage info", 0, 0),
    ),
    ("GET", "/api/v1/stage/7", "", ("stage info", 0, 0)),
    ("GET", "/admin/v1/repack/%ff", "", ("repack info", 0, 0)),
    ("POST", "/admin/v1/drive/%641/up", "", ("up", 1, 0)),
    ("POST", "/admin/v1/drive/d2/up", "", ("up", NONE, 0)),
    ("GET", "/admin/v1/tape/%ff", "", ("tape info", NONE, 0)),
    (
        "POST",
        "/admin/v1/repack",
        r#"{"vid":"V2"}"#,
        ("repack", NONE, 0),
    ),
];

// The first of these rows that is routed otherwise.
fn first_wrong(alloc: Global, front: &Front, rows: &[Row]) -> Option<&'static str> {
    for (method, target, body, wanted) in rows {
        if word_of(alloc, front, method, target, body) != *wanted {
            return Some(*target);
        }
    }
    None
}

// The same, of all tables.
fn first_wrong_of_all(alloc: Global, front: &Front) -> Option<&'static str> {
    first_wrong(alloc, front, &ROUTES)
        .or(first_wrong(alloc, front, &ADMIN_ROUTES))
        .or(first_wrong(alloc, front, &CORNERS))
        .or(first_wrong(alloc, front, &NAMES))
}

#[test]
fn routes(rt: HostRuntime) {
    let alloc = rt.alloc();
    let front = front_of(alloc).expect(&rt, "a site and the routes");
    let wrong = first_wrong_of_all(alloc, &front);
    drop(front);
    assert_eq!(rt; wrong, None);
}
