// A small site for the tests.
use cta_site::{SiteError, ValidSite};
use site_json::read_site;
use std::alloc::Global;

// The file of a site of two virtual organisations, pools, tapes and drives.
const SITE: &str =
    r#"{"version":1,"sitename":"s","endpoint":"e","defaultPolicy":"p","repackPolicy":"p","limits":{"buffer":1,"file":0,"archiveBytes":1,"retrieveBytes":1,"archiveFiles":1,"retrieveFiles":1,"batchFiles":1,"tries":1,"history":1,"lifetime":0},"vos":[{"name":"alice","readDrives":0,"writeDrives":3},{"name":"lhcb","readDrives":1,"writeDrives":2}],"classes":[],"pools":[{"name":"p1","vo":"alice"},{"name":"p2","vo":"lhcb"}],"routes":[],"policies":[{"name":"p","archivePriority":0,"archiveMinAge":0,"retrievePriority":0,"retrieveMinAge":0}],"libraries":["L1"],"tapes":[{"vid":"V1","pool":"p1","library":"L1","capacity":100,"state":"ACTIVE"},{"vid":"V2","pool":"p1","library":"L1","capacity":100,"state":"ACTIVE"}],"drives":[{"name":"d1","library":"L1"},{"name":"d2","library":"L1"}],"directories":[]}"#;

// That site. Who owns it lets it go by `drop`: that all of it goes is proved there for any value, and is dear to prove in a function
// that knows all of its fields.
pub(crate) fn valid_site(alloc: Global) -> Result<ValidSite, SiteError> {
    let site = read_site(alloc, SITE.as_bytes())?;
    site.check(alloc)
}
