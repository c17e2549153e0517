// Two links in memory, served by two threads over one archive.
ghost use Rattle.archive.specs.States.{AreFirstMedia};

use crate::archives::{archive_of, link_of, media_of, site_of};
use crate::crew::over_one_hall;
use crate::piece_link::PieceLink;
use crate::told::{has_places, is_each_once, letters_of, told_of};
use cta_model::{Entry, Told};
use cta_site::ValidSite;
use link_server::ArchiveFront;
use std::alloc::Global;
use std::hash::RandomState;
use std::sync::Wait;
use std::sync::atomic::AtomicU64;
use std::test::Fail;
use std::thread::Threads;

const PUT_A: &str = "PUT /data/atlas/a HTTP/1.1\r\nHost: t\r\nContent-Length: 5\r\n\r\nhello";

const PUT_B: &str = "PUT /data/atlas/b HTTP/1.1\r\nHost: t\r\nContent-Length: 5\r\n\r\nworld";

const PUT_C: &str = "PUT /data/atlas/c HTTP/1.1\r\nHost: t\r\nContent-Length: 5\r\n\r\nhello";

const PUT_D: &str = "PUT /data/atlas/d HTTP/1.1\r\nHost: t\r\nContent-Length: 5\r\n\r\nworld";

const ASK: &str =
    "POST /api/v1/archiveinfo HTTP/1.1\r\nHost: t\r\nContent-Length: 55\r\n\r\n{\"paths\":[\"/atlas/a\",\"/atlas/b\",\"/atlas/c\",\"/atlas/d\"]}";

// The messages of two links, of as many bytes each.
const FIRST: [&str; 5] = [PUT_A, ASK, PUT_C, ASK, ASK];

const OTHER: [&str; 5] = [ASK, PUT_B, ASK, PUT_D, ASK];

// Two links that give these messages by pieces, in turn.
fn links_of(alloc: Global, reads: &AtomicU64) -> Option<(PieceLink<'_>, PieceLink<'_>)> {
    let first = link_of(alloc, &FIRST, &[], &[]).ok()?;
    let other = link_of(alloc, &OTHER, &[], &[]).ok()?;
    Some((
        PieceLink::new(first, reads, true),
        PieceLink::new(other, reads, false),
    ))
}

// Whether the replies that were written to a link are those of their places in the history.
fn is_right(
    alloc: Global,
    letters: &[u8],
    is_first: bool,
    messages: &[&str],
    link: &PieceLink<'_>,
) -> Option<bool> {
    let told = told_of(alloc, is_first, messages, link.written()?)?;
    Some(has_places(letters, is_first, &told))
}

// Whether each file stands in the history once, and each link's replies are those of their places.
fn judged(
    alloc: Global,
    entries: &[Entry],
    first: &PieceLink<'_>,
    other: &PieceLink<'_>,
) -> Option<[bool; 3]> {
    let letters = letters_of(alloc, entries)?;
    let first_right = is_right(alloc, &letters, true, &FIRST, first)?;
    let other_right = is_right(alloc, &letters, false, &OTHER, other)?;
    Some([is_each_once(&letters), first_right, other_right])
}

// Whether each of two links that are served at once over a new archive of this site is served to its end, each file stands in the
// history once then, and each link's replies are those of their places.
fn found<R: Threads + Wait + Sync, M: Told + Drop + Send>(
    rt: &R,
    alloc: Global,
    keys: RandomState,
    site: &ValidSite,
    media: Vec<M>,
    reads: &AtomicU64,
) -> Option<(bool, bool, Option<[bool; 3]>)>
    requires { AreFirstMedia M.told site.now media.items }
{
    let (first, other) = links_of(alloc, reads)?;
    let archive = archive_of(alloc, keys, site, media)?;
    match over_one_hall(
        rt,
        alloc,
        archive,
        &ArchiveFront::new(site),
        site.limits().file,
        first,
        other,
    ) {
        Ok((archive, first, other)) => {
            let (first, first_ended) = first;
            let (other, other_ended) = other;
            let judged = judged(alloc, archive.entries(), &first, &other);
            archive.let_go();
            drop(first);
            drop(other);
            Some((first_ended, other_ended, judged))
        }
        Err(archive) => {
            archive.let_go();
            None
        }
    }
}

// The same, with media of its own.
fn found_at<R: Threads + Wait + Sync>(
    rt: &R,
    alloc: Global,
    keys: RandomState,
    site: &ValidSite,
) -> Option<(bool, bool, Option<[bool; 3]>)> {
    let reads = AtomicU64::new(0);
    let media = media_of(alloc, site)?;
    found(rt, alloc, keys, site, media, &reads)
}

// The same, of a new site.
fn found_once<R: Threads + Wait + Sync>(
    rt: &R,
    alloc: Global,
    keys: RandomState,
) -> Option<(bool, bool, Option<[bool; 3]>)> {
    let site = site_of(alloc)?;
    let found = found_at(rt, alloc, keys, &site);
    drop(site);
    found
}

#[test]
fn replies_are_those_of_their_places(rt: HostRuntime) -> Result<(), Fail> {
    let keys = RandomState::new(&rt)?;
    assert_eq!(rt;
        found_once(&rt, rt.alloc(), keys),
        Some((true, true, Some([true; 3])))
    );
    Ok(())
}
