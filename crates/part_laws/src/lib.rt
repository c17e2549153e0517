//! Laws of the parts: what the parts of an archive say of its history, and how one more entry moves them. Each law is the
//! contract of a function with no parameters and an empty body, so that a law which no longer follows from the definitions is a
//! failed check. `queues` has those of queues and of failed copies, `jobs` those of the job book, the mounts and the counts,
//! `space` those of the index of paths, the tapes, the buffer, the stage requests and the repacks, `entries` those of all parts
//! together, and `sizes` how much the queues can hold.
#![tactic(auto)]

mod entries;
mod jobs;
mod queues;
mod sizes;
mod space;

pub use entries::{
    accepted_ask_moves_kept, calls_move_all_parts, contents_move, contents_start_empty,
    empty_parts_stand, end_brings_medium, kept_begins, kept_moves, next_takes_medium,
    parts_tell_ends, parts_tell_looks, parts_tell_mounts, parts_tell_operators, shelf_starts_full,
    shelf_stays,
};
pub use jobs::{
    births_move_parts, book_calls_agree, book_calls_in_turn, cancel_moves_parts, claim_moves_parts,
    delete_moves_parts, downs_move, drop_is_two_calls, drop_moves_parts, end_is_counted,
    end_moves_parts, failed_moves_parts, flushed_moves_parts, job_parts_move, mounts_start_empty,
    next_is_counted, next_moves_parts, others_leave_counts, others_leave_parts, parts_start_empty,
    put_moves_parts, queue_calls_in_turn, recalled_moves_parts, repack_moves_parts,
    retry_moves_parts, rows_move, rows_tell_mounts, stage_moves_parts, stale_moves_parts,
    state_lists_are_recalls, tape_state_moves_parts,
};
pub use queues::{
    failed_move, failed_start_empty, failed_tell, fits_tell, flushed_leaves_queues,
    last_birth_tells_errors, others_leave_queues, queue_is_in_order, sums_tell,
};
pub use sizes::{copies_are_few, files_fit_buffer, lines_are_small, queues_are_small};
pub use space::{
    buffer_calls_agree, buffer_tells, buffer_tells_files, calls_keep_pins_held, calls_move_buffer,
    calls_move_names, calls_move_parts, calls_move_repacks, calls_move_requests, calls_move_table,
    copies_end_as_told, first_parts_stand, flag_is_found, parts_tell_files, parts_tell_repacks,
    parts_tell_requests, parts_tell_tapes, recalls_end_as_told, repack_calls_agree,
    repacks_tell_live, request_calls_agree, table_counts_live,
};
