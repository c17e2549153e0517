// The site of the tests, archives of it, and links that give texts.
ghost use Rattle.std.specs.Prelude.{◌≡◌, IfSome, length};
ghost use Rattle.archive.specs.States.{AreFirstMedia};

use archive::Archive;
use cta_model::Told;
use cta_site::ValidSite;
use outside::MemLink;
use site_json::read_site;
use std::alloc::{AllocError, Global};
use std::hash::RandomState;

const SITE: &str =
    r#"{"classes":[{"copies":1,"name":"raw","vo":"atlas"}],"defaultPolicy":"std","directories":[{"class":"raw","path":"/atlas"}],"drives":[{"library":"L1","name":"d1"}],"endpoint":"https://tape.example.org/api/v1","libraries":["L1"],"limits":{"archiveBytes":100,"archiveFiles":1,"batchFiles":10,"buffer":1000,"file":1000,"history":1000,"lifetime":60,"retrieveBytes":100,"retrieveFiles":1,"tries":3},"policies":[{"archiveMinAge":10,"archivePriority":1,"name":"std","retrieveMinAge":10,"retrievePriority":1}],"pools":[{"name":"p1","vo":"atlas"}],"repackPolicy":"std","routes":[{"class":"raw","copy":1,"pool":"p1"}],"sitename":"T1","tapes":[{"capacity":1000,"library":"L1","pool":"p1","state":"ACTIVE","vid":"V1"}],"version":1,"vos":[{"name":"atlas","readDrives":1,"writeDrives":1}]}"#;

// The medium of the site's one tape, which tells no records.
#[derive(Drop)]
pub(crate) struct Blank;

impl Told for Blank {
    ghost use Rattle.std.specs.Prelude.{None};

    ghost told = { λ m. record { label = 0; records = None } };
}

pub(crate) fn site_of(alloc: Global) -> Option<ValidSite> {
    read_site(alloc, SITE.as_bytes()).ok()?.check(alloc).ok()
}

fn one_medium(alloc: Global) -> Option<Vec<Blank>>
    ensures { IfSome result (λ media. length media.items ≡ 1) }
{
    let mut media = Vec::new(alloc);
    media.push(Blank).ok()?;
    Some(media)
}

// The media of a site with one tape, and None of another site.
#[tactic(auto, using(crate::proofs::OneTape::one_medium))]
pub(crate) fn media_of(alloc: Global, site: &ValidSite) -> Option<Vec<Blank>>
    ensures { IfSome result (λ media. AreFirstMedia ⟦<Blank as Told>⟧.told site.now media.items) }
{
    if site.tapes().len() != 1 {
        return None;
    }
    one_medium(alloc)
}

// A new archive of this site with these media.
pub(crate) fn archive_of<M: Told + Drop>(
    alloc: Global,
    keys: RandomState,
    site: &ValidSite,
    media: Vec<M>,
) -> Option<Archive<M>>
    requires { AreFirstMedia M.told site.now media.items }
    ensures { IfSome result (λ archive. site.now ≡ archive.site) }
{
    match site.copy(alloc) {
        Ok(copy) => match Archive::new(alloc, copy, media, keys) {
            Ok(archive) => Some(archive),
            Err(_) => None,
        },
        Err(_) => None,
    }
}

pub(crate) fn bytes_of(alloc: Global, texts: &[&str]) -> Result<Vec<u8>, AllocError> {
    let mut bytes = Vec::new(alloc);
    for text in texts {
        bytes.extend_from_slice(text.as_bytes())?;
    }
    Ok(bytes)
}

// A link that gives these texts, and fails at these reads and writes, each counted from 1.
pub(crate) fn link_of(
    alloc: Global,
    texts: &[&str],
    reads: &[u64],
    writes: &[u64],
) -> Result<MemLink, AllocError> {
    let bytes = bytes_of(alloc, texts)?;
    let mut failing_reads = Vec::new(alloc);
    failing_reads.extend_from_slice(reads)?;
    let mut failing_writes = Vec::new(alloc);
    failing_writes.extend_from_slice(writes)?;
    Ok(MemLink::new(alloc, bytes, failing_reads, failing_writes))
}
