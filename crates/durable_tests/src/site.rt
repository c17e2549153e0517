// A site of one drive and one tape, and what goes with it.
ghost use Rattle.std.specs.Prelude.{◌≡◌, IfSome, length};

use cta_model::Told;
use cta_site::ValidSite;
use site_json::read_site;
use std::alloc::Global;

const SITE: &str =
    r#"{"classes":[{"copies":1,"name":"raw","vo":"atlas"}],"defaultPolicy":"std","directories":[{"class":"raw","path":"/atlas"}],"drives":[{"library":"L1","name":"d1"}],"endpoint":"https://tape.example.org/api/v1","libraries":["L1"],"limits":{"archiveBytes":1,"archiveFiles":1,"batchFiles":10,"buffer":1000,"file":1000,"history":1000,"lifetime":60,"retrieveBytes":1,"retrieveFiles":1,"tries":3},"policies":[{"archiveMinAge":10,"archivePriority":1,"name":"std","retrieveMinAge":10,"retrievePriority":1}],"pools":[{"name":"p1","vo":"atlas"}],"repackPolicy":"std","routes":[{"class":"raw","copy":1,"pool":"p1"}],"sitename":"T1","tapes":[{"capacity":1000,"library":"L1","pool":"p1","state":"ACTIVE","vid":"V1"}],"version":1,"vos":[{"name":"atlas","readDrives":1,"writeDrives":1}]}"#;

/// The medium of the site's one tape, which tells no records.
#[derive(Drop)]
pub struct Blank;

impl Told for Blank {
    ghost use Rattle.std.specs.Prelude.{None};

    ghost told = { λ m. record { label = 0; records = None } };
}

/// The site, where it has one tape.
pub fn site_of(alloc: Global) -> Option<ValidSite>
    ensures { IfSome result (λ site. length site.tapes.items ≡ 1) }
{
    let site = read_site(alloc, SITE.as_bytes()).ok()?.check(alloc).ok()?;
    if site.tapes().len() != 1 {
        drop(site);
        return None;
    }
    Some(site)
}

/// A medium for one tape.
pub fn media_of(alloc: Global) -> Option<Vec<Blank>>
    ensures { IfSome result (λ media. length media.items ≡ 1) }
{
    let mut media = Vec::new(alloc);
    media.push(Blank).ok()?;
    Some(media)
}
