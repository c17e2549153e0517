// Two threads at one archive.
ghost use Rattle.std.specs.Prelude.{◌≡◌, ◌+◌, ◌<◌, IfOk, IfSome, length};
ghost use Rattle.turn_hall.specs.Handles.{IsPassOf, first_of, seats_in};

use crate::crew::{Put, Serves, both, one_then_other};
use archive::Archive;
use archive_turns::{ArchiveBack, ArchiveCall};
use blob::Blob;
use cta_model::{Answer, Ask, Direction, Hand, Locality, Look, Refusal, Told, Who};
use cta_site::{Rows, Text, ValidSite};
use site_json::read_site;
use std::alloc::{AllocError, Global};
use std::hash::RandomState;
use std::sync::{Arc, Wait};
use std::test::Fail;
use std::thread::Threads;
use turn_hall::{Hall, Keeps, Pass};

const SITE: &str =
    r#"{"classes":[{"copies":1,"name":"raw","vo":"atlas"}],"defaultPolicy":"std","directories":[{"class":"raw","path":"/atlas"}],"drives":[{"library":"L1","name":"d1"}],"endpoint":"https://tape.example.org/api/v1","libraries":["L1"],"limits":{"archiveBytes":100,"archiveFiles":1,"batchFiles":10,"buffer":1000,"file":1000,"history":3,"lifetime":60,"retrieveBytes":100,"retrieveFiles":1,"tries":3},"policies":[{"archiveMinAge":10,"archivePriority":1,"name":"std","retrieveMinAge":10,"retrievePriority":1}],"pools":[{"name":"p1","vo":"atlas"}],"repackPolicy":"std","routes":[{"class":"raw","copy":1,"pool":"p1"}],"sitename":"T1","tapes":[{"capacity":1000,"library":"L1","pool":"p1","state":"ACTIVE","vid":"V1"}],"version":1,"vos":[{"name":"atlas","readDrives":1,"writeDrives":1}]}"#;

// The medium of the site's one tape, which tells no records.
#[derive(Drop)]
pub(crate) struct Blank;

impl Told for Blank {
    ghost use Rattle.std.specs.Prelude.{None};

    ghost told = { λ m. record { label = 0; records = None } };
}

fn site_of(alloc: Global, site: &str) -> Option<ValidSite> {
    read_site(alloc, site.as_bytes()).ok()?.check(alloc).ok()
}

// A medium for one tape.
fn media_of(alloc: Global) -> Option<Vec<Blank>>
    ensures { IfSome result (λ media. length media.items ≡ 1) }
{
    let mut media = Vec::new(alloc);
    media.push(Blank).ok()?;
    Some(media)
}

// An archive of this site, which has one tape and some drive.
#[tactic(auto, using(crate::proofs::OneTape::one_medium))]
pub(crate) fn archive_of(alloc: Global, keys: RandomState, site: &str) -> Option<Archive<Blank>>
    ensures { IfSome result (λ archive. 0 < length archive.site.drives.items) }
{
    let site = site_of(alloc, site)?;
    if site.drives().len() < 1 {
        drop(site);
        return None;
    }
    if site.tapes().len() != 1 {
        drop(site);
        return None;
    }
    let media = media_of(alloc)?;
    match Archive::new(alloc, site, media, keys) {
        Ok(archive) => Some(archive),
        Err(_) => None,
    }
}

fn text(alloc: Global, text: &str) -> Result<Text, AllocError> {
    Ok(Text::of(String::from_str(alloc, text)?))
}

fn nobody(alloc: Global) -> Option<Who> {
    let requester = text(alloc, "").ok()?;
    let group = text(alloc, "").ok()?;
    Some(Who { requester, group })
}

fn hello(alloc: Global) -> Option<Arc<Blob, Global>> {
    let mut bytes = Vec::new(alloc);
    bytes.extend_from_slice(b"hello").ok()?;
    let blob = Blob::of(bytes).ok()?;
    Arc::new(alloc, blob).ok()
}

fn put_of(alloc: Global, path: &str) -> Option<Put> {
    let blob = hello(alloc)?;
    let path = text(alloc, path).ok()?;
    let who = nobody(alloc)?;
    Some(Put { who, path, blob })
}

pub(crate) fn two_puts(alloc: Global) -> Option<(Put, Put)> {
    let a = put_of(alloc, "/atlas/a")?;
    let b = put_of(alloc, "/atlas/b")?;
    Some((a, b))
}

fn two_texts(alloc: Global) -> Result<Vec<Text>, AllocError> {
    let mut paths = Vec::new(alloc);
    paths.push(text(alloc, "/atlas/a")?)?;
    paths.push(text(alloc, "/atlas/b")?)?;
    Ok(paths)
}

fn look_of(alloc: Global) -> Option<Look> {
    let paths = two_texts(alloc).ok()?;
    Some(Look::ArchiveInfo {
        paths: Rows::of(paths),
    })
}

// Whether two files were looked at, and both are on disk.
fn both_on_disk(back: &ArchiveBack<Blank>) -> bool {
    let ArchiveBack::Look(Ok((Answer::Places(infos), _))) = back else {
        return false;
    };
    match infos.as_slice() {
        [a, b] => a.locality == Some(Locality::Disk) && b.locality == Some(Locality::Disk),
        _ => false,
    }
}

// A hall over a value, with two passes. Want of memory gives the value back.
fn two_passes<T: Keeps>(alloc: Global, value: T) -> Result<(Hall<T>, Pass<T>, Pass<T>), T>
    ensures hall { IfOk result (λ r. first_of r.0 ≡ value) }
    ensures passes { IfOk result (λ r. IsPassOf T.site r.0 r.1 × IsPassOf T.site r.0 r.2 × (r.1.seats + r.2.seats ≡ seats_in r.0)) }
{
    match Hall::new(alloc, value, 2) {
        Ok((hall, mut first)) => {
            let Some(second) = hall.split(&mut first) else {
                unreachable!()
            };
            Ok((hall, first, second))
        }
        Err((_, value)) => Err(value),
    }
}

// One thread puts a file, and then another: how many turns the first one's pass is told of, and the pass of both.
fn in_turn<R: Threads + Wait + Sync, T: Serves + Send>(
    rt: &R,
    hall: &Hall<T>,
    passes: (Pass<T>, Pass<T>),
    puts: (Put, Put),
) -> (u64, Pass<T>)
    requires { IsPassOf T.site hall.now passes.0 × IsPassOf T.site hall.now passes.1 }
    ensures here { IsPassOf T.site hall.now result.1 }
    ensures seats { result.1.seats ≡ passes.0.seats + passes.1.seats }
{
    let (first, second) = passes;
    let (a, b) = puts;
    let (mut first, second) = one_then_other(rt, hall, first, second, a, b);
    let passed = hall.passed(&mut first);
    hall.join(&mut first, second);
    (passed, first)
}

// Whether an answer is that the history is full.
fn is_full(answer: &Answer) -> bool {
    matches!(answer, Answer::Refused(Refusal::HistoryFull))
}

// Whether a drive mounts the site's tape to write to it, and its mount is numbered by this entry.
fn mounts(answer: &Answer, entry: u32) -> bool {
    match answer {
        Answer::Mounted {
            mount,
            direction: Direction::Archive,
            tape: 0,
        } => *mount == entry,
        _ => false,
    }
}

// Whether both files are on disk, as the pass is told in a turn.
fn sees_both(
    rt: &impl Wait,
    hall: &Hall<Archive<Blank>>,
    pass: &mut Pass<Archive<Blank>>,
    look: Look,
) -> bool
    requires { IsPassOf ⟦<Archive<Blank> as Keeps>⟧.site hall.now pass.old }
    ensures here { IsPassOf ⟦<Archive<Blank> as Keeps>⟧.site hall.now pass.new }
    ensures seats { pass.new.seats ≡ pass.old.seats }
{
    let back = hall.turn(rt, pass, ArchiveCall::Look { at: 100, look });
    let there = both_on_disk(&back);
    drop(back);
    there
}

// Whether the drive mounts with this entry, as it is told in a turn.
fn mounts_in_turn(
    rt: &impl Wait,
    hall: &Hall<Archive<Blank>>,
    pass: &mut Pass<Archive<Blank>>,
    entry: u32,
) -> bool
    requires here { IsPassOf ⟦<Archive<Blank> as Keeps>⟧.site hall.now pass.old }
    requires drive { 0 < length (first_of hall.now).site.drives.items }
    ensures here { IsPassOf ⟦<Archive<Blank> as Keeps>⟧.site hall.now pass.new }
    ensures seats { pass.new.seats ≡ pass.old.seats }
{
    let ask = Ask::Next { drive: 0 };
    let hand = Hand::Nothing;
    let back = hall.turn(rt, pass, ArchiveCall::Ask { at: 100, ask, hand });
    let ArchiveBack::Ask(Ok((answer, _))) = &back else {
        drop(back);
        return false;
    };
    let mounted = mounts(answer, entry);
    drop(back);
    mounted
}

// Whether the drive mounts with this entry.
fn mounts_with(archive: &mut Archive<Blank>, entry: u32) -> bool
    requires { 0 < length archive.old.site.drives.items }
{
    match archive.ask(100, Ask::Next { drive: 0 }, Hand::Nothing) {
        Ok((answer, hand)) => {
            drop(hand);
            mounts(&answer, entry)
        }
        Err(back) => {
            drop(back);
            false
        }
    }
}

// Whether a further file is refused since the history is full.
fn is_filled(archive: &mut Archive<Blank>, put: Put) -> bool {
    let Put { who, path, blob } = put;
    let sum = blob.sum();
    match archive.ask(100, Ask::Put { who, path, sum }, Hand::Blob(blob)) {
        Ok((answer, hand)) => {
            drop(hand);
            is_full(&answer)
        }
        Err(back) => {
            drop(back);
            false
        }
    }
}

// One thread puts a file, and then another, and the hall is closed: how many turns the first one's pass is told of, whether the
// archive has two entries then, so that the drive mounts with the third, and whether the history is full with it.
fn told_in_turn<R: Threads + Wait + Sync>(
    rt: &R,
    alloc: Global,
    keys: RandomState,
) -> Option<(u64, bool, bool)> {
    let puts = two_puts(alloc)?;
    let c = put_of(alloc, "/atlas/c")?;
    let archive = archive_of(alloc, keys, SITE)?;
    match two_passes(alloc, archive) {
        Ok((hall, first, second)) => {
            let (passed, all) = in_turn(rt, &hall, (first, second), puts);
            let mut archive = hall.close(all);
            let third = mounts_with(&mut archive, 3);
            let filled = is_filled(&mut archive, c);
            archive.let_go();
            Some((passed, third, filled))
        }
        Err(archive) => {
            archive.let_go();
            None
        }
    }
}

// Two threads put a file each at once: whether both files are there, and the drive mounts with the third entry.
fn told_at_once<R: Threads + Wait + Sync>(
    rt: &R,
    alloc: Global,
    keys: RandomState,
) -> Option<(bool, bool)> {
    let (a, b) = two_puts(alloc)?;
    let look = look_of(alloc)?;
    let archive = archive_of(alloc, keys, SITE)?;
    match two_passes(alloc, archive) {
        Ok((hall, first, second)) => {
            let mut all = both(rt, &hall, first, second, a, b);
            let seen = sees_both(rt, &hall, &mut all, look);
            let third = mounts_in_turn(rt, &hall, &mut all, 3);
            hall.close(all).let_go();
            Some((seen, third))
        }
        Err(archive) => {
            archive.let_go();
            None
        }
    }
}

// The history has room for three entries. A hall that is one mutex round everything tells the first pass of its own turn alone.
#[test]
fn passed_tells_of_turns_of_others(rt: HostRuntime) -> Result<(), Fail> {
    let keys = RandomState::new(&rt)?;
    assert_eq!(rt; told_in_turn(&rt, rt.alloc(), keys), Some((2, true, true)));
    Ok(())
}

#[test]
fn two_threads_put_one_file_each(rt: HostRuntime) -> Result<(), Fail> {
    let keys = RandomState::new(&rt)?;
    assert_eq!(rt; told_at_once(&rt, rt.alloc(), keys), Some((true, true)));
    Ok(())
}
