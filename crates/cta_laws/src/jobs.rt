// Laws of jobs.
ghost use Rattle.cta_laws.specs.Jobs.{ArchiveIsResident, ArchiveKeyIsPool, ClaimedBytesMove, ClaimedOnce, ClaimerMoves, ClaimsGoTheirWay, ClaimsNoJobTwice, EndsForGood, IsQueuedOrClaimed, JobFileHasPut, JobFileIsLive, NoBirthIsLost, NoClaimAfterEnd, RecallIsAway, RecallKeyIsTape};

use cta_site::numbers_are_known;

/// A job that has ended is live no more. This project's own.
pub fn ends_for_good()
    ensures { EndsForGood }
{}

/// No Claim names a job that has ended. This project's own.
pub fn no_claim_after_end()
    ensures { NoClaimAfterEnd }
{}

/// At most one open mount claims a job. This project's own.
pub fn claimed_once()
    ensures { ClaimedOnce }
{}

/// A live job that no open mount claims is in the queue of its direction and key, once, and in no other; one that is claimed is
/// claimed by one open mount, and in no queue. This project's own.
pub fn is_queued_or_claimed()
    ensures { IsQueuedOrClaimed }
{}

/// The key of a recall is a tape of the site. This project's own.
pub fn recall_key_is_tape()
    ensures { RecallKeyIsTape }
{}

/// The key of a live archive job is a pool of the site, where the site is valid. This project's own.
pub fn archive_key_is_pool()
    ensures { ArchiveKeyIsPool }
{
    numbers_are_known();
}

/// A claimed job goes the way of its mount. This project's own.
pub fn claims_go_their_way()
    ensures { ClaimsGoTheirWay }
{}

/// An entry moves the claimer of a job as its ask says. This project's own.
pub fn claimer_moves()
    ensures { ClaimerMoves }
{}

/// A mount claims a job at most once. This project's own.
pub fn claims_no_job_twice()
    ensures { ClaimsNoJobTwice }
{}

/// What the open mounts claim grows by the sizes of what a Claim takes, and falls by exactly those of what ends a claim. This
/// project's own.
pub fn claimed_bytes_move()
    ensures { ClaimedBytesMove }
{}

/// The file of a live archive job is resident. This project's own.
pub fn archive_is_resident()
    ensures { ArchiveIsResident }
{}

/// The file of a live recall is not resident. This project's own.
pub fn recall_is_away()
    ensures { RecallIsAway }
{}

/// The file of a live job is live. This project's own.
pub fn job_file_is_live()
    ensures { JobFileIsLive }
{}

/// An entry bears an archive job only for a copy that has no live one. This project's own.
pub fn no_birth_is_lost()
    ensures { NoBirthIsLost }
{}

/// The file of a live job has its Put. This project's own.
pub fn job_file_has_put()
    ensures { JobFileHasPut }
{}
