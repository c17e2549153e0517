// Sets of numbers, as a mark for each number below a bound.
ghost use Rattle.std.specs.Prelude.{◌≡◌, false, get_or, replicate, IfOk, IfSome};
ghost use Rattle.std.specs.List.{list_all};
ghost use Rattle.mill_history.specs.Marks.{AreMarks};

use cta_model::NoMemory;
use std::alloc::Global;

// The marks of no number below the bound.
fn no_marks(alloc: Global, bound: usize) -> Result<Vec<bool>, NoMemory>
    ensures { IfOk result (λ v. v.items ≡ replicate bound false) }
{
    Ok(vec![in alloc; false; bound]?)
}

/// The marks of these numbers; None where one of them is not below the bound.
pub(crate) fn marks(
    alloc: Global,
    numbers: &[u32],
    bound: usize,
) -> Result<Option<Vec<bool>>, NoMemory>
    ensures { IfOk result (λ o. IfSome o (λ v. AreMarks v.items numbers.now)) }
{
    let mut marks = no_marks(alloc, bound)?;
    for number in numbers {
        let place = *number as usize;
        if place >= marks.len() {
            return Ok(None);
        }
        marks[place] = true;
    }
    Ok(Some(marks))
}

/// Whether a number is marked.
pub(crate) fn is_marked(marks: &[bool], number: u32) -> bool
    ensures { result ≡ get_or marks.now number false }
{
    match marks.get(number as usize) {
        Some(mark) => *mark,
        None => false,
    }
}

/// Whether each of the numbers is marked.
pub(crate) fn are_marked(marks: &[bool], numbers: &[u32]) -> bool
    ensures { result ≡ list_all (λ n. get_or marks.now n false) numbers.now }
{
    for number in numbers {
        if !is_marked(marks, *number) {
            return false;
        }
    }
    true
}
