//! The tests of the crates of parts, which call each of them as the crates above do.
#![tactic(auto)]

#[cfg(test)]
mod disk_buffer_tests;
#[cfg(test)]
mod failed_copies_tests;
#[cfg(test)]
mod job_book_tests;
#[cfg(test)]
mod job_queues_tests;
#[cfg(test)]
mod mount_choice_tests;
#[cfg(test)]
mod name_index_tests;
#[cfg(test)]
mod open_mounts_tests;
#[cfg(test)]
mod repack_book_tests;
#[cfg(test)]
mod site;
#[cfg(test)]
mod stage_book_tests;
#[cfg(test)]
mod sum_trees_tests;
#[cfg(test)]
mod tape_files_tests;
#[cfg(test)]
mod vo_quota_tests;
