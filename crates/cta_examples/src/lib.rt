//! The definitions of the sequential archive, tried on closed examples. Each is the contract of a function with no
//! parameters and an empty body: a history that is legal, and what is answered or reported on it. So a definition that
//! no longer says what a reader expects is a failed check.
#![tactic(auto)]

mod choices;
mod failures;
mod recalling;
mod refusals;
mod requests;
mod tapes;
mod writing;

pub use choices::{
    archive_goes_before_retrieve, drive_waits_for_quota, old_file_warrants_a_mount,
    requester_has_own_policy, second_mount_needs_twice_as_much,
};
pub use failures::{
    drive_comes_up_again, drive_put_down_mounts_nothing, failed_copy_is_told_and_retried,
    failed_copy_tells_its_last_job, flush_fault_charges_the_batch, last_read_fault_fails_the_file,
    mismatch_charges_one_and_goes_on, returned_jobs_weigh_too,
};
pub use recalling::{
    deletion_fails_the_request, late_read_is_told, one_recall_serves_two_requests,
    recall_is_reported, unknown_path_fails_at_once, whole_batch_is_read_by_fseq,
};
pub use refusals::{
    callers_are_refused, full_history_refuses, operators_are_refused, requests_are_refused,
    sessions_are_refused, unknown_path_is_told,
};
pub use requests::{
    dropped_request_is_unknown, lifetime_pins_a_file, moments_do_not_fall, release_unpins,
    request_is_completed_with_its_last_file,
};
pub use tapes::{
    broken_tape_loses_its_files, deleted_item_is_gone, disabled_tape_is_unavailable,
    empty_tape_gives_an_empty_repack, lost_tape_fails_its_repack, recall_moves_to_another_source,
    repack_moves_a_copy,
};
pub use writing::{
    batch_skips_what_does_not_fit, empty_file_uses_no_byte, queues_are_told,
    stale_item_keeps_its_bytes,
};
