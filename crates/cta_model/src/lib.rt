//! What the archive is asked and what it answers, as types, and in `specs/` the sequential archive: what each answer is,
//! on which history. Every other crate of the archive is proved against these definitions.
#![tactic(auto)]

mod answers;
mod asks;
mod entries;
mod examples;
mod hands;
mod laws;
mod reports;
mod states;

pub use answers::{Answer, Refusal};
pub use asks::{Ask, Direction, Fate, Fault, Item, Job, Look, Wanted, Who};
pub use blob::{Sum256, Told};
pub use cta_site::{NoMemory, Rows, TapeState, Text};
pub use entries::{Actor, Entry};
pub use examples::{
    both_copies_are_needed, claimed_job_is_not_queued, directions_have_their_own_quotas,
    flushed_is_on_tape, late_read_is_dropped, old_place_counts_until_the_new,
    priority_goes_before_age, put_is_on_disk, queued_copy_keeps_its_file,
    returned_jobs_keep_their_place,
};
pub use hands::Hand;
pub use laws::histories_stay_legal;
pub use reports::{
    FailedCopy, FileState, ItemState, Locality, PlaceInfo, QueueInfo, RepackInfo, RepackItem,
    StageFileInfo, StageInfo, TapeInfo,
};
pub use states::{
    Candidate, Charge, Mount, Place, Recall, RepackCopy, RequestFile, StageFile, Sums,
};
