// Records of all variants, and what of them the tests compare.
use crate::numbers::{Numbers, answer_numbers, ask_numbers};
use crate::records::{
    fronts_are_no_bodies, fronts_need_more, is_written, joined, record_with, whole,
};
use std::alloc::Global;

// The numbers of the ask and of the answer of a record that is written as it was read.
fn numbers_in(alloc: Global, record: &[u8]) -> Option<(Numbers, Numbers)> {
    let kept = whole(alloc, record)?;
    let numbers = (
        ask_numbers(&kept.entry.ask),
        answer_numbers(&kept.entry.answer),
    );
    let is_same = is_written(alloc, &kept, record);
    drop(kept);
    if is_same { Some(numbers) } else { None }
}

/// The numbers of the ask and of the answer in a body of three parts, where its record is written as it was read, and no front of it
/// is one.
pub fn numbers_of(
    alloc: Global,
    first: &[u8],
    second: &[u8],
    third: &[u8],
) -> Option<(Numbers, Numbers)> {
    let body = joined(alloc, first, second, third).ok()?;
    let record = record_with(alloc, &body).ok()?;
    if fronts_need_more(alloc, &record) && fronts_are_no_bodies(alloc, &body) {
        numbers_in(alloc, &record)
    } else {
        None
    }
}
