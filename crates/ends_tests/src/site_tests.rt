// Runs of the public call, with ample memory.
use cta_site::{Limits, Site, SiteError, TapeState};
use site_json::read_site;
use std::alloc::{AllocError, Global};

// The smallest site that keeps all rules, with a member that is unknown. `tests/site-members` changes it member by member.
const SMALLEST: &str =
    r#"{"unknown":{"a":[null,-1.5]},"version":1,"sitename":"s","endpoint":"e","defaultPolicy":"p","repackPolicy":"p","limits":{"buffer":1,"file":0,"archiveBytes":1,"retrieveBytes":1,"archiveFiles":1,"retrieveFiles":1,"batchFiles":1,"tries":1,"history":1,"lifetime":0},"vos":[],"classes":[],"pools":[],"routes":[],"policies":[{"name":"p","archivePriority":0,"archiveMinAge":0,"retrievePriority":0,"retrieveMinAge":0}],"libraries":[],"tapes":[],"drives":[],"directories":[]}"#;

// The site of `examples/first-path/site`.
pub(crate) const EXAMPLE: &str =
    r#"{"classes":[{"copies":1,"name":"raw","vo":"atlas"}],"defaultPolicy":"std","directories":[{"class":"raw","path":"/atlas"}],"drives":[{"library":"L1","name":"d1"}],"endpoint":"https://tape.example.org/api/v1","libraries":["L1"],"limits":{"archiveBytes":100,"archiveFiles":1,"batchFiles":10,"buffer":1000,"file":1000,"history":1000,"lifetime":60,"retrieveBytes":100,"retrieveFiles":1,"tries":3},"policies":[{"archiveMinAge":10,"archivePriority":1,"name":"std","retrieveMinAge":10,"retrievePriority":1}],"pools":[{"name":"p1","vo":"atlas"}],"repackPolicy":"std","routes":[{"class":"raw","copy":1,"pool":"p1"}],"sitename":"T1","tapes":[{"capacity":1000,"library":"L1","pool":"p1","state":"ACTIVE","vid":"V1"}],"version":1,"vos":[{"name":"atlas","readDrives":1,"writeDrives":1}]}"#;

// The rule and the item that a file breaks, None where it is read; rule 0 stands for want of memory.
fn fault_of(alloc: Global, bytes: &[u8]) -> Option<(u8, u32)> {
    match read_site(alloc, bytes).err()? {
        SiteError::Fault { rule, item } => Some((rule, item)),
        SiteError::NoMemory => Some((0, 0)),
    }
}

// What a file with so many blanks in front, of so many bytes in all, breaks.
fn blank_fault(alloc: Global, bytes: usize) -> Result<Option<(u8, u32)>, AllocError> {
    let mut text = vec![in alloc; b' '; bytes.saturating_sub(SMALLEST.len())]?;
    text.extend_from_slice(SMALLEST.as_bytes())?;
    Ok(fault_of(alloc, text.as_slice()))
}

#[test]
fn long_files(rt: HostRuntime) {
    let alloc = rt.alloc();
    let faults = [
        blank_fault(alloc, 16_777_216),
        blank_fault(alloc, 16_777_217),
    ];
    assert_eq!(rt; faults, [Ok(None), Ok(Some((1, 0)))]);
}

// Whether a site keeps all rules of a site.
fn is_valid(alloc: Global, site: Site) -> bool {
    site.check(alloc).err().is_none()
}

// Whether the example's texts and limits are read as they stand.
fn has_example(site: &Site) -> bool {
    site.version == 1
        && site.sitename.is(b"T1")
        && site.endpoint.is(b"https://tape.example.org/api/v1")
        && has_limits(&site.limits)
        && site.rules.len() == 0
        && site.failures.len() == 0
}

// Whether the example's limits are read as they stand.
fn has_limits(limits: &Limits) -> bool {
    limits.buffer == 1000
        && limits.archive_bytes == 100
        && limits.batch_files == 10
        && limits.tries == 3
        && limits.lifetime == 60
}

// Whether the example's first tape and policy are read as they stand.
fn has_elements(site: &Site) -> bool {
    match (site.tapes.as_slice(), site.policies.as_slice()) {
        ([tape], [policy]) => {
            tape.vid.is(b"V1")
                && tape.capacity == 1000
                && tape.state == TapeState::Active
                && policy.archive_priority == 1
                && policy.retrieve_min_age == 10
        }
        _ => false,
    }
}

// The same of the site of a file, where it can be read.
fn is_valid_file(alloc: Global, text: &str) -> Option<bool> {
    let site = read_site(alloc, text.as_bytes()).ok()?;
    Some(is_valid(alloc, site))
}

// Whether the example is read as it stands, where it can be read.
fn is_example(alloc: Global) -> Option<bool> {
    let site = read_site(alloc, EXAMPLE.as_bytes()).ok()?;
    Some(has_example(&site) && has_elements(&site))
}

#[test]
fn sites(rt: HostRuntime) {
    let alloc = rt.alloc();
    let valid = [
        is_valid_file(alloc, EXAMPLE),
        is_valid_file(alloc, SMALLEST),
    ];
    assert_eq!(rt; valid, [Some(true), Some(true)]);
    assert_eq!(rt; is_example(alloc), Some(true));
}
