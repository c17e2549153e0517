// A drive and a medium of a bench in memory, with ample memory.
ghost use Rattle.std.specs.Prelude.{◌≡◌, IfSome, false, true};
ghost use Rattle.media.specs.Memory.{mem_drive, mem_tape};
ghost use Rattle.media.specs.Records.{no_records};

use blob::{Blob, Sum256, sum_of};
use cta_site::ValidSite;
use media::{Bench, DeviceErr, MemBench, MemDrive, MemMedium, TapeDrive};
use site_json::read_site;
use std::alloc::Global;
use std::sync::Arc;
use std::test::Fail;

// The first drive alters its second read, and each first call of the second drive fails.
const SITE: &str =
    r#"{"classes":[{"copies":1,"name":"raw","vo":"atlas"}],"defaultPolicy":"std","directories":[{"class":"raw","path":"/atlas"}],"drives":[{"library":"L1","name":"d1"},{"library":"L1","name":"d2"}],"endpoint":"https://tape.example.org/api/v1","failures":[{"alter":true,"call":"read","drive":"d1","number":2},{"call":"load","drive":"d2","number":1},{"call":"write","drive":"d2","number":1},{"call":"flush","drive":"d2","number":1},{"call":"read","drive":"d2","number":1},{"call":"unload","drive":"d2","number":1}],"libraries":["L1"],"limits":{"archiveBytes":100,"archiveFiles":1,"batchFiles":10,"buffer":1000,"file":1000,"history":1000,"lifetime":60,"retrieveBytes":100,"retrieveFiles":1,"tries":3},"policies":[{"archiveMinAge":10,"archivePriority":1,"name":"std","retrieveMinAge":10,"retrievePriority":1}],"pools":[{"name":"p1","vo":"atlas"}],"repackPolicy":"std","routes":[{"class":"raw","copy":1,"pool":"p1"}],"sitename":"T1","tapes":[{"capacity":1000,"library":"L1","pool":"p1","state":"ACTIVE","vid":"V1"}],"version":1,"vos":[{"name":"atlas","readDrives":1,"writeDrives":1}]}"#;

fn site_of(alloc: Global) -> Option<ValidSite> {
    let site = read_site(alloc, SITE.as_bytes()).ok()?;
    site.check(alloc).ok()
}

fn content(alloc: Global, text: &str) -> Option<Arc<Blob>> {
    let bytes = Vec::from_slice(alloc, text.as_bytes()).ok()?;
    let blob = Blob::of(bytes).ok()?;
    Arc::new(alloc, blob).ok()
}

// The sums of two reads of a record that is written and flushed.
fn read_twice(
    drive: &mut MemDrive,
    medium: &mut MemMedium,
    blob: &Arc<Blob>,
) -> Option<(Sum256, Sum256)>
    requires drive { (mem_drive drive.old).loaded ≡ false }
    requires medium { mem_tape medium.old ≡ no_records }
{
    drive.load(medium).ok()?;
    drive.write(medium, 1, blob).ok()?;
    drive.flush(medium).ok()?;
    let first = drive.read(medium, 1).ok()?.sum();
    let second = drive.read(medium, 1).ok()?.sum();
    drive.unload(medium).ok()?;
    Some((first, second))
}

// Whether the first of two loads fails, and the second does not.
fn load_fails(drive: &mut MemDrive, medium: &mut MemMedium) -> Option<bool>
    requires { (mem_drive drive.old).loaded ≡ false }
    ensures { IfSome result (λ _. (mem_drive drive.new).loaded ≡ true) }
{
    if drive.load(medium).is_ok() {
        return None;
    }
    drive.load(medium).ok()?;
    Some(true)
}

// Whether the first of two writes fails, and the second does not.
fn write_fails(drive: &mut MemDrive, medium: &mut MemMedium, blob: &Arc<Blob>) -> bool
    requires { (mem_drive drive.old).loaded ≡ true }
    ensures { (mem_drive drive.new).loaded ≡ true }
{
    let first = drive.write(medium, 1, blob);
    first == Err(DeviceErr::Fault) && drive.write(medium, 1, blob).is_ok()
}

// Whether a flush fails.
fn flush_fails(drive: &mut MemDrive, medium: &mut MemMedium) -> bool
    requires { (mem_drive drive.old).loaded ≡ true }
    ensures { (mem_drive drive.new).loaded ≡ true }
{
    drive.flush(medium) == Err(DeviceErr::Fault)
}

// Whether the read of a flushed record fails.
fn read_fails(drive: &mut MemDrive, medium: &mut MemMedium, blob: &Arc<Blob>) -> Option<bool>
    requires { (mem_drive drive.old).loaded ≡ true }
    ensures { IfSome result (λ _. (mem_drive drive.new).loaded ≡ true) }
{
    drive.write(medium, 1, blob).ok()?;
    drive.flush(medium).ok()?;
    Some(drive.read(medium, 1).is_err())
}

// Whether each first call fails, and a second one of a load and a write does not.
fn fails_first(drive: &mut MemDrive, medium: &mut MemMedium, blob: &Arc<Blob>) -> Option<bool>
    requires { (mem_drive drive.old).loaded ≡ false }
{
    let load = load_fails(drive, medium)?;
    let write = write_fails(drive, medium, blob);
    let flush = flush_fails(drive, medium);
    let read = read_fails(drive, medium, blob)?;
    let unload = drive.unload(medium).is_err();
    Some(load && write && flush && read && unload)
}

fn drive_of(bench: &mut MemBench, site: &ValidSite, drive: u32) -> Option<MemDrive>
    ensures { IfSome result (λ d. (mem_drive d).loaded ≡ false) }
{
    if drive as usize >= site.drives().len() {
        return None;
    }
    bench.drive(site, drive).ok()
}

fn medium_of(bench: &mut MemBench, site: &ValidSite) -> Option<MemMedium>
    ensures { IfSome result (λ m. mem_tape m ≡ no_records) }
{
    if site.tapes().is_empty() {
        return None;
    }
    bench.medium(site, 0).ok()
}

// The sums of two reads of one record of the first drive.
fn sums(alloc: Global, bench: &mut MemBench, site: &ValidSite) -> Option<(Sum256, Sum256)> {
    let blob = content(alloc, "hello")?;
    let mut drive = drive_of(bench, site, 0)?;
    let mut medium = medium_of(bench, site)?;
    read_twice(&mut drive, &mut medium, &blob)
}

// Whether each first call of the second drive fails.
fn faults(alloc: Global, bench: &mut MemBench, site: &ValidSite) -> Option<bool> {
    let blob = content(alloc, "hello")?;
    let mut drive = drive_of(bench, site, 1)?;
    let mut medium = medium_of(bench, site)?;
    fails_first(&mut drive, &mut medium, &blob)
}

// What the drives of a site say.
fn told_of(alloc: Global, site: &ValidSite) -> Option<(Sum256, Sum256, bool)> {
    let mut bench = MemBench::new(alloc);
    let (first, second) = sums(alloc, &mut bench, site)?;
    let fails = faults(alloc, &mut bench, site)?;
    Some((first, second, fails))
}

fn run(alloc: Global) -> Option<(Sum256, Sum256, bool)> {
    let site = site_of(alloc)?;
    let told = told_of(alloc, &site);
    drop(site);
    told
}

#[test]
fn calls_answer_as_planned(rt: HostRuntime) -> Result<(), Fail> {
    let (first, second, fails) = run(rt.alloc()).ok_or("no memory")?;
    assert!(rt; first == sum_of(b"hello") && second == sum_of(b"iello"));
    assert!(rt; fails);
    Ok(())
}
