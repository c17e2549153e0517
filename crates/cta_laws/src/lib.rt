//! Laws of the archive: what holds of every legal history, whatever callers ask and drives report. Each law is the
//! contract of a function with no parameters and an empty body, so that a law which no longer follows from the
//! definitions is a failed check.
//! The laws of the archive together, said of one legal history: so a clause of what keeps a history can name them all at once.
#![tactic(auto)]

mod asks;
mod histories;
mod jobs;
mod lengths;
mod localities;
mod media;
mod mounts;
mod places;
mod recalls;
mod repacks;
mod space;
mod stages;

pub use asks::asks_are_answered;
pub use histories::legal_histories_hold;
pub use jobs::{
    archive_is_resident, archive_key_is_pool, claimed_bytes_move, claimed_once, claimer_moves,
    claims_go_their_way, claims_no_job_twice, ends_for_good, is_queued_or_claimed,
    job_file_has_put, job_file_is_live, no_birth_is_lost, no_claim_after_end, recall_is_away,
    recall_key_is_tape,
};
pub use lengths::{
    claims_are_short, flushes_are_short, fseqs_are_low, moments_never_fall, stays_short,
};
pub use localities::{resident_or_flushed, tape_is_flushed, told_tape_is_flushed};
pub use media::{flushed_is_true, mounted_stays_true, shelf_stays_true, true_medium_stays};
pub use mounts::{
    claims_nothing_after_end, keeps_quota, mounts_choice, open_mount_stays, tapes_are_mounted_once,
};
pub use places::{
    batches_are_rising, flushed_in_turn, items_are_of_files, items_in_turn, live_items_in_order,
    one_place_on_tape, places_are_apart, places_are_never_reclaimed, places_are_of_copies,
    places_are_on_site, places_below, places_on_tape, places_stay,
};
pub use recalls::{completes_once, recalled_is_resident, stale_after_end, stays_resident};
pub use repacks::{reading_has_recall, writing_has_job};
pub use space::{buffer_has_room, tapes_have_room};
pub use stages::{
    asked_has_waiting, away_is_unpinned, finishes_after_start, subscribers_wait, waiting_has_recall,
};
