// The site file, read whole.
ghost use Rattle.std.specs.Prelude.{◌≡◌, [], MatchResult};
ghost use Rattle.cta_site.specs.Faults.{IsCauseOf};
ghost use Rattle.archive_opening.specs.Seen.{source_view};
ghost use Rattle.archive_opening.specs.SiteFile.{IsSiteOf, TellsNoSite, site_fault};
ghost use Rattle.archive_opening.specs.SiteReading.{IsStatusOf, SiteRead, SiteTaken, TookSite};

use crate::opening::open_archive;
use crate::status::Status;
use archive::Archive;
use cta_site::{SiteError, ValidSite};
use media::{Bench, TapeDrive};
use outside::{Failed, Source};
use site_json::read_site;
use std::alloc::Global;
use std::hash::RandomState;

// The most bytes of a site file.
const SITE_LIMIT: usize = 16_777_216;

// The most bytes that are taken at a time.
const PIECE: usize = 4096;

// How the reading of a site file ended.
#[derive(Clone, Copy, Debug, PartialEq, Eq)]
pub(crate) enum SiteEnd {
    // It was read to its end.
    Whole,
    // It has more bytes than a site file may have.
    Long,
    // Its source failed.
    Fault,
    // Memory was wanted.
    Memory,
}

// The whole site file, put into `bytes`, or one byte more than it may have.
fn take_site<A: Source>(site: &mut A, bytes: &mut Vec<u8>) -> SiteEnd
    requires { bytes.old.items ≡ [] }
    ensures { TookSite result (source_view (A.left site.old) (A.faults site.old)) (source_view (A.left site.new) (A.faults site.new)) bytes.new.items }
{
    let mut piece = [0u8; PIECE];
    while bytes.len() <= SITE_LIMIT {
        let most = (SITE_LIMIT + 1 - bytes.len()).min(PIECE);
        match site.read(&mut piece[..most]) {
            Ok(0) => return SiteEnd::Whole,
            Ok(count) => {
                if bytes.extend_from_slice(&piece[..count]).is_err() {
                    return SiteEnd::Memory;
                }
            }
            Err(Failed) => return SiteEnd::Fault,
        }
    }
    SiteEnd::Long
}

// The status of a site file that is refused.
fn refused(error: SiteError) -> Status
    ensures { IsStatusOf error result }
{
    match error {
        SiteError::Fault { rule, item } => Status::Site { rule, item },
        SiteError::NoMemory => Status::NoMemory,
    }
}

// The valid site that these bytes tell.
fn site_of(alloc: Global, bytes: &[u8]) -> Result<ValidSite, SiteError>
    ensures { MatchResult result (IsSiteOf bytes.now) (λ e. IsCauseOf e (site_fault bytes.now)) }
{
    match read_site(alloc, bytes) {
        Ok(site) => site.check(alloc),
        Err(error) => Err(error),
    }
}

// The valid site that these bytes tell, or the status of the first rule that they break.
fn told_site(alloc: Global, bytes: &[u8]) -> Result<ValidSite, Status>
    ensures { MatchResult result (IsSiteOf bytes.now) (λ status. TellsNoSite status bytes.now) }
{
    match site_of(alloc, bytes) {
        Ok(site) => Ok(site),
        Err(error) => Err(refused(error)),
    }
}

/// The site that a site file tells, or why there is none. `site` gives the file, of at most 16,777,216 bytes, which is read whole before
/// anything is made.
/// - `Ok`: all bytes of the source were taken, they break none of the thirty rules of a site file, and this is the site that they tell, its
///   numbered lists in order.
/// - `Site`: they break this rule, of the thirty rules the first, and first at this item of its list (0 where the rule speaks of no
///   element). All bytes were taken, or one more than a site file may have, which breaks rule 1.
/// - `ReadFault`: the source's count of faults rose in this call, with no more bytes taken than a site file may have.
/// - `NoMemory`: memory was wanted. What was taken of the source is lost.
///
/// No other status is answered. It always returns. Its cost is the bytes of the file. This project's own.
pub fn read_valid_site<A: Source>(alloc: Global, site: &mut A) -> Result<ValidSite, Status>
    ensures { SiteTaken result (source_view (A.left site.old) (A.faults site.old)) (source_view (A.left site.new) (A.faults site.new)) }
{
    let mut bytes = Vec::new(alloc);
    match take_site(site, &mut bytes) {
        SiteEnd::Whole => told_site(alloc, &bytes),
        SiteEnd::Long => Err(Status::Site { rule: 1, item: 0 }),
        SiteEnd::Fault => Err(Status::ReadFault),
        SiteEnd::Memory => Err(Status::NoMemory),
    }
}

/// An archive of the site that a site file tells, which has kept nothing yet, with the media that a bench makes; or why there is none.
///
/// The site file is read as `read_valid_site` reads it, whose statuses are the ones that come, and no other; paths are hashed with `keys`.
/// The archive's site is what the file tells. NoMemory comes also where there is none for the archive. It always returns. Its cost is that of
/// `read_valid_site` and of `open_archive`. This project's own.
pub fn read_archive<A: Source, D: TapeDrive, B: Bench<D>>(
    alloc: Global,
    site: &mut A,
    bench: &mut B,
    keys: RandomState,
) -> Result<Archive<D::Medium>, Status>
    ensures read { SiteRead (B.tells bench.old) result (source_view (A.left site.old) (A.faults site.old)) (source_view (A.left site.new) (A.faults site.new)) }
    ensures tells { B.tells bench.new ≡ B.tells bench.old }
{
    match read_valid_site(alloc, site) {
        Ok(valid) => match open_archive(alloc, valid, bench, keys) {
            Ok(archive) => Ok(archive),
            Err(_) => Err(Status::NoMemory),
        },
        Err(status) => Err(status),
    }
}
