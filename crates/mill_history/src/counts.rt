// How many items were flushed, and how many recalls completed.
ghost use Rattle.std.specs.Prelude.{◌≡◌, ◌<◌, ◌≤◌, ◌^◌, ℕ, List, length, get_or, IfSome, filter, zip};
ghost use Rattle.cta_model.specs.Bare.{bare_answer, bare_ask};
ghost use Rattle.cta_model.specs.Newest.{history_in};
ghost use Rattle.cta_model.specs.Places.{flushed_in, is_done};
ghost use Rattle.mill_history.specs.Counts.{completed_recalls, completes, done_items, is_done_of};
ghost use Rattle.mill_history.specs.Marks.{AreMarks};

use crate::marks::is_marked;
use cta_model::{Answer, Ask, Entry, Fate, Item};

fn is_done(fate: Fate) -> bool
    ensures { result ≡ is_done fate }
{
    match fate {
        Fate::Done => true,
        Fate::Stale => false,
    }
}

// Whether an item is one of the marked files, and its fate is Done.
fn is_done_of(item: &Item, fate: Fate, marks: &[bool]) -> bool
    ensures { (files : List ℕ) → AreMarks marks.now files → result ≡ is_done_of files (item.now, fate) }
{
    is_done(fate) && is_marked(marks, item.job.file)
}

fn item_at(items: &[Item], at: usize) -> Item
    requires { at < length items.now }
    ensures { result ≡ get_or items.now at result }
{
    items[at]
}

fn fate_at(fates: &[Fate], at: usize) -> Fate
    requires { at < length fates.now }
    ensures { result ≡ get_or fates.now at result }
{
    fates[at]
}

// How many of these items are marked files and Done.
fn done_among(items: &[Item], fates: &[Fate], marks: &[bool]) -> u64
    ensures count { (files : List ℕ) → AreMarks marks.now files → result ≡ length (filter (is_done_of files) (zip items.now fates.now)) }
    ensures few { result ≤ length items.now }
{
    let mut count: u64 = 0;
    for at in 0..items.len() {
        if at >= fates.len() {
            break;
        }
        let item = item_at(items, at);
        let fate = fate_at(fates, at);
        count += u64::from(is_done_of(&item, fate, marks));
    }
    count
}

// How many of the items that an entry flushes are marked files and Done.
fn done_in(entry: &Entry, marks: &[bool]) -> u64
    ensures { (files : List ℕ) → AreMarks marks.now files → result ≡ length (filter (is_done_of files) (flushed_in (bare_ask entry.now.ask) (bare_answer entry.now.answer))) }
{
    match &entry.ask {
        Ask::Flushed { items, .. } => match &entry.answer {
            Answer::Told { fates } => done_among(items.as_slice(), fates.as_slice(), marks),
            _ => 0,
        },
        _ => 0,
    }
}

/// How many flushed items of the marked files were done; None where 64 bits do not hold it.
#[tactic(auto, using(cta_model::proofs::Newest::scans))]
pub(crate) fn done_items(entries: &[Entry], marks: &[bool]) -> Option<u64>
    ensures { IfSome result (λ n. (files : List ℕ) → AreMarks marks.now files → n ≡ length (done_items files (history_in entries.now))) }
{
    let mut count: u64 = 0;
    for entry in entries {
        count = count.checked_add(done_in(entry, marks))?;
    }
    Some(count)
}

// Whether an entry completes a recall of a marked file.
fn completes(entry: &Entry, marks: &[bool]) -> bool
    ensures { (files : List ℕ) → AreMarks marks.now files → result ≡ completes files (bare_ask entry.now.ask) (bare_answer entry.now.answer) }
{
    match &entry.ask {
        Ask::Recalled { job, .. } => match &entry.answer {
            Answer::Arrived { fate: Fate::Done } => is_marked(marks, job.file),
            _ => false,
        },
        _ => false,
    }
}

/// How many recalls of the marked files completed.
#[tactic(auto, using(cta_model::proofs::Newest::scans, crate::proofs::Done::filtered_first))]
pub(crate) fn completed_recalls(entries: &[Entry], marks: &[bool]) -> u64
    requires { length entries.now < 2 ^ 32 }
    ensures { (files : List ℕ) → AreMarks marks.now files → result ≡ length (completed_recalls files (history_in entries.now)) }
{
    let mut count: u64 = 0;
    for entry in entries {
        count += u64::from(completes(entry, marks));
    }
    count
}
