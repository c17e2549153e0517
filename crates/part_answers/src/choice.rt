// The first of candidates.
ghost use Rattle.std.specs.Prelude.{◌≡◌, [], MatchOption, None, Some};
ghost use Rattle.cta_model.specs.Choice as said;
ghost use Rattle.part_answers.specs.First.{IsFirst};

use cta_model::{Candidate, Direction};

/// The candidate that goes before all others: that of the highest priority, then archive before retrieve, then the earliest
/// birth of its first job, then the lowest key. None exactly where the list is empty. Of candidates that are the same in
/// all four, it is the first of the list. Its cost is their number, and it takes no memory.
pub fn first_of(list: &[Candidate]) -> Option<Candidate>
    ensures said { result ≡ said.first_of list.now }
    // The same, in the words of the rule.
    ensures first { MatchOption result (list.now ≡ []) (IsFirst list.now) }
{
    let mut best = None;
    for at in (0..list.len()).rev() {
        best = Some(better_of(list[at], best));
    }
    best
}

// Of a candidate and perhaps another, the one that goes before the other.
fn better_of(candidate: Candidate, other: Option<Candidate>) -> Candidate
    ensures { Some result ≡ said.better_of candidate other }
{
    match other {
        Some(other) if goes_before(&other, &candidate) => other,
        _ => candidate,
    }
}

// Whether a candidate goes before another.
fn goes_before(left: &Candidate, right: &Candidate) -> bool
    ensures { result ≡ said.goes_before left.now right.now }
{
    if left.priority != right.priority {
        return right.priority < left.priority;
    }
    if left.direction != right.direction {
        return goes_first(left.direction, right.direction);
    }
    if left.birth != right.birth {
        return left.birth < right.birth;
    }
    left.key < right.key
}

// Whether a direction goes before another: archive before retrieve.
fn goes_first(left: Direction, right: Direction) -> bool
    ensures { result ≡ said.goes_first left right }
{
    match left {
        Direction::Archive => match right {
            Direction::Archive => false,
            Direction::Retrieve => true,
        },
        Direction::Retrieve => false,
    }
}
