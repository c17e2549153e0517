// A session whose drive alters what it reads, with ample memory.
ghost use Rattle.std.specs.Prelude.{◌<◌, ◌≡◌, [], ◌∷◌, IfSome, IsTrue, None, Some, false, is_none, length, true};
ghost use Rattle.std.specs.Arc.{arc_value};
ghost use Rattle.blob.specs.Sums.{sum_of};
ghost use Rattle.cta_model.specs.declared.answers.Answer.{Answer};
ghost use Rattle.cta_model.specs.declared.answers.Answer.TheVariants as answer;
ghost use Rattle.cta_model.specs.declared.asks.Direction.TheVariants as direction;
ghost use Rattle.drive_session.specs.Steps.{is_loaded_in};
ghost use Rattle.drive_session.specs.declared.reports.StepLine.TheVariants as line;
ghost use Rattle.drive_session.specs.declared.states.Asked.TheVariants as asked;
ghost use Rattle.drive_session.specs.declared.states.State.TheVariants as state;
ghost use Rattle.media.specs.Memory.{mem_drive, mem_medium};
ghost use Rattle.drive_tests.specs.OneRecord.{Fits, IsClaim, one_record, read_item};

use crate::session_tests::site_of;
use blob::{Blob, Sum256};
use cta_model::{Answer, Ask, Direction, Hand, Item, Job};
use cta_site::{CallKind, Rows, ValidSite};
use drive_session::{Call, Done, Report, Session};
use media::{MemDrive, MemMedium, Planned, TapeDrive};
use std::alloc::Global;
use std::sync::Arc;
use std::test::Fail;

// The SHA-256 of `hello`.
const HELLO: [u8; 32] = [
    0x2c, 0xf2, 0x4d, 0xba, 0x5f, 0xb0, 0xa3, 0x0e, 0x26, 0xe8, 0x3b, 0x2a, 0xc5, 0xb9, 0xe2, 0x9e,
    0x1b, 0x16, 0x1e, 0x5c, 0x1f, 0xa7, 0x42, 0x5e, 0x73, 0x04, 0x33, 0x62, 0x93, 0x8b, 0x98, 0x24,
];

// The SHA-256 of `iello`.
const IELLO: [u8; 32] = [
    0xdb, 0x36, 0x5f, 0x3e, 0xb1, 0x97, 0xfa, 0xeb, 0x1f, 0xc6, 0xa4, 0x03, 0x8f, 0x04, 0xbd, 0xc5,
    0xc0, 0xbf, 0x41, 0x85, 0xe6, 0x3b, 0xc7, 0x2e, 0xb5, 0x00, 0x13, 0xbc, 0x12, 0x2c, 0x53, 0x77,
];

fn hello(alloc: Global) -> Option<Arc<Blob>> {
    let bytes = Vec::from_slice(alloc, b"hello").ok()?;
    let blob = Blob::of(bytes).ok()?;
    Arc::new(alloc, blob).ok()
}

// A medium of the tape 0 whose one record has this content, and is safe.
fn recorded(alloc: Global, blob: &Arc<Blob>) -> Option<MemMedium>
    ensures { IfSome result (λ m. mem_medium m ≡ one_record (sum_of (arc_value blob.now))) }
{
    let mut drive = MemDrive::new(alloc, Vec::new(alloc));
    let mut medium = MemMedium::new(alloc, 0);
    drive.load(&mut medium).ok()?;
    drive.write(&mut medium, 1, blob).ok()?;
    drive.flush(&mut medium).ok()?;
    drive.unload(&mut medium).ok()?;
    Some(medium)
}

// A drive that alters its first read.
fn altering(alloc: Global) -> Option<MemDrive>
    ensures { IfSome result (λ d. (mem_drive d).loaded ≡ false) }
{
    let mut plan = Vec::new(alloc);
    let (call, number, alter) = (CallKind::Read, 1, true);
    plan.push(Planned {
        call,
        number,
        alter,
    })
    .ok()?;
    Some(MemDrive::new(alloc, plan))
}

// A new session asks what its drive is to mount.
fn asks_next(session: &mut Session<MemDrive>, drive: &mut MemDrive, site: &ValidSite)
    requires free { session.old ≡ record { number = 0; state = state.Free; asked = asked.Nothing line.Idle; kept = None } }
    requires loaded { (mem_drive drive.old).loaded ≡ false }
    requires drives { 0 < length site.now.drives.items }
    ensures asked { session.new ≡ record { number = 0; state = state.Free; asked = asked.Next; kept = None } }
    ensures loaded { (mem_drive drive.new).loaded ≡ false }
{
    let _site = site;
    drop(session.work(drive));
}

// It is to mount the tape with this medium, to read from it.
fn mounts(session: &mut Session<MemDrive>, medium: MemMedium, site: &ValidSite, sum: Sum256)
    requires asked { session.old ≡ record { number = 0; state = state.Free; asked = asked.Next; kept = None } }
    requires medium { mem_medium medium ≡ one_record sum }
    requires drives { 0 < length site.now.drives.items }
    ensures fits { Fits site.now sum answer.Nothing session.new }
    ensures state { is_loaded_in session.new.state ≡ false }
{
    let _site = site;
    let _sum = sum;
    let answer = Answer::Mounted {
        mount: 4,
        direction: Direction::Retrieve,
        tape: 0,
    };
    session.take(Ok((answer, Hand::Medium(medium))));
}

// Whether the drive is loaded, and nothing is asked.
fn loads(
    session: &mut Session<MemDrive>,
    drive: &mut MemDrive,
    site: &ValidSite,
    sum: Sum256,
) -> bool
    requires fits { Fits site.now sum answer.Nothing session.old }
    requires loaded { (mem_drive drive.old).loaded ≡ is_loaded_in session.old.state }
    ensures fits { IsTrue result → Fits site.now sum answer.Nothing session.new }
    ensures loaded { (mem_drive drive.new).loaded ≡ is_loaded_in session.new.state }
{
    let _site = site;
    let _sum = sum;
    let report = session.work(drive);
    let quiet = report.ask.is_none();
    let loaded = matches!(report.device, Some(Done::Ok(Call::Load)));
    drop(report);
    quiet && loaded
}

// Whether a report is a Claim of the mount.
fn is_claim(report: &Report<MemMedium>) -> bool
    ensures { IsTrue result → IsClaim report.now.ask }
{
    matches!(&report.ask, Some((Ask::Claim { mount: 4 }, _)))
}

// Whether the session asks for a batch, which is this item.
fn claims(
    session: &mut Session<MemDrive>,
    drive: &mut MemDrive,
    site: &ValidSite,
    sum: Sum256,
    batch: (Rows<Item>, Rows<u32>),
) -> bool
    requires fits { Fits site.now sum answer.Nothing session.old }
    requires loaded { (mem_drive drive.old).loaded ≡ is_loaded_in session.old.state }
    requires items { batch.0.items ≡ read_item sum ∷ [] }
    ensures fits { IsTrue result → (a : Answer) × Fits site.now sum a session.new }
    ensures loaded { IsTrue result → (mem_drive drive.new).loaded ≡ is_loaded_in session.new.state }
{
    let _site = site;
    let _sum = sum;
    let report = session.work(drive);
    let asked = is_claim(&report);
    drop(report);
    if asked {
        let (items, evicted) = batch;
        session.take(Ok((Answer::Batch { items, evicted }, Hand::Nothing)));
        return true;
    }
    false
}

// The sums of a mismatch: what was read, and what the catalogue has.
fn reads(
    session: &mut Session<MemDrive>,
    drive: &mut MemDrive,
    site: &ValidSite,
    sum: Sum256,
) -> Option<(Sum256, Sum256)>
    requires fits { (a : Answer) × Fits site.now sum a session.old }
    requires loaded { (mem_drive drive.old).loaded ≡ is_loaded_in session.old.state }
{
    let _site = site;
    let _sum = sum;
    let report = session.work(drive);
    let device = report.device;
    drop(report);
    match device {
        Some(Done::Mismatch { found, wanted }) => Some((found, wanted)),
        _ => None,
    }
}

// A batch of one item, which is to be read.
fn batch_of(alloc: Global, sum: Sum256) -> Option<(Rows<Item>, Rows<u32>)>
    ensures { IfSome result (λ b. b.0.items ≡ read_item sum ∷ []) }
{
    let mut items = Vec::new(alloc);
    let (birth, file, copy) = (4, 1, 0);
    let job = Job { birth, file, copy };
    items.push(Item { job, fseq: 1, sum }).ok()?;
    Some((Rows::of(items), Rows::of(Vec::new(alloc))))
}

// The sums of the mismatch of a session that has this medium and is to load it.
fn sums_read(
    session: &mut Session<MemDrive>,
    drive: &mut MemDrive,
    site: &ValidSite,
    sum: Sum256,
    batch: (Rows<Item>, Rows<u32>),
) -> Option<(Sum256, Sum256)>
    requires fits { Fits site.now sum answer.Nothing session.old }
    requires loaded { (mem_drive drive.old).loaded ≡ is_loaded_in session.old.state }
    requires items { batch.0.items ≡ read_item sum ∷ [] }
{
    if loads(session, drive, site, sum) {
        if claims(session, drive, site, sum, batch) {
            return reads(session, drive, site, sum);
        }
        return None;
    }
    drop(batch);
    None
}

// The sums of the mismatch of a new session that reads the one record of this medium.
fn sums_with(
    alloc: Global,
    site: &ValidSite,
    sum: Sum256,
    batch: (Rows<Item>, Rows<u32>),
    medium: MemMedium,
    mut drive: MemDrive,
) -> Option<(Sum256, Sum256)>
    requires drives { 0 < length site.now.drives.items }
    requires items { batch.0.items ≡ read_item sum ∷ [] }
    requires medium { mem_medium medium ≡ one_record sum }
    requires loaded { (mem_drive drive).loaded ≡ false }
{
    let mut session: Session<MemDrive> = Session::new(alloc, 0);
    asks_next(&mut session, &mut drive, site);
    mounts(&mut session, medium, site, sum);
    let sums = sums_read(&mut session, &mut drive, site, sum, batch);
    drop(session);
    drop(drive);
    sums
}

// The sums of the mismatch of a session that reads one record.
fn sums_of(alloc: Global, site: &ValidSite) -> Option<(Sum256, Sum256)>
    requires { 0 < length site.now.drives.items }
{
    let blob = hello(alloc)?;
    let sum = blob.sum();
    let batch = batch_of(alloc, sum)?;
    let medium = recorded(alloc, &blob)?;
    let drive = altering(alloc)?;
    sums_with(alloc, site, sum, batch, medium, drive)
}

fn told(alloc: Global) -> Option<(Sum256, Sum256)> {
    let site = site_of(alloc)?;
    let sums = if site.drives().is_empty() {
        None
    } else {
        sums_of(alloc, &site)
    };
    drop(site);
    sums
}

// A record of `hello` whose read is altered.
#[test]
fn mismatch_carries_both_sums(rt: HostRuntime) -> Result<(), Fail> {
    let (found, wanted) = told(rt.alloc()).ok_or("no mismatch")?;
    let Sum256 {
        len: found_len,
        digest: found_digest,
    } = found;
    let Sum256 {
        len: wanted_len,
        digest: wanted_digest,
    } = wanted;
    assert!(rt; found_len == 5 && found_digest == IELLO);
    assert!(rt; wanted_len == 5 && wanted_digest == HELLO);
    Ok(())
}
