// The Puts.
ghost use Rattle.std.specs.Prelude.{◌≡◌, ◌<◌, ◌≤◌, ◌+◌, ◌^◌, [], ◌∷◌, length, set, get_or, replicate, slice_get, true, Some, option_map, nat_lt, IfOk, IfSome};
ghost use Rattle.cta_model.specs.Bare.{bare_ask};
ghost use Rattle.cta_model.specs.Newest.{history_in};
ghost use Rattle.load_mill.specs.Files.{big_path};
ghost use Rattle.mill_history.specs.Puts.{numbers_of, put_in, puts_of};
ghost use Rattle.mill_history.specs.Found.{IsPutNoted, puts_big};
ghost use Rattle.mill_history.specs.Tallies.{ArePut};
ghost use Rattle.std.specs.List.{list_all};

use crate::paths::{index_of, is_big};
use cta_model::{Ask, Entry, NoMemory, Sum256};
use std::alloc::Global;

// The path and the sum of a Put.
#[derive(Clone, Copy)]
struct PutOf<'a> {
    path: &'a [u8],
    sum: Sum256,
}

fn put_in(ask: &Ask) -> Option<PutOf<'_>>
    ensures { option_map (λ p. (p.path.now, p.sum)) result ≡ put_in (bare_ask ask.now) }
{
    match ask {
        Ask::Put { path, sum, .. } => Some(PutOf {
            path: path.as_bytes(),
            sum: *sum,
        }),
        _ => None,
    }
}

// Whether an ask puts the file that fills the buffer.
fn puts_big(ask: &Ask) -> bool
    ensures { result ≡ puts_big (put_in (bare_ask ask.now)) }
{
    match put_in(ask) {
        Some(put) => is_big(put.path),
        None => false,
    }
}

/// The number of the one Put of the file that fills the buffer; None where there is none or more than one.
#[tactic(auto, using(cta_model::proofs::Newest::scans))]
pub(crate) fn one_big(entries: &[Entry]) -> Option<u32>
    requires { length entries.now < 2 ^ 32 }
    ensures { IfSome result (λ n. numbers_of (puts_of (history_in entries.now) big_path) ≡ n ∷ []) }
{
    let mut found: Option<u32> = None;
    let mut number: u32 = 0;
    for entry in entries {
        number += 1;
        if puts_big(&entry.ask) {
            if found.is_some() {
                return None;
            }
            found = Some(number);
        }
    }
    found
}

fn put_at(numbers: &mut Vec<u32>, place: usize, number: u32)
    requires { place < length numbers.old.items }
    ensures { numbers.new.items ≡ set numbers.old.items place number }
{
    numbers[place] = number;
}

// Whether no number is at this place.
fn is_none_at(numbers: &[u32], place: usize) -> bool
    ensures { result ≡ true → get_or numbers.now place 0 ≡ 0 }
{
    match numbers.get(place) {
        Some(number) => *number == 0,
        None => true,
    }
}

fn is_same(a: &Sum256, b: &Sum256) -> bool
    ensures { result ≡ true → a.now ≡ b.now }
{
    *a == *b
}

// Whether this sum is at this place.
fn has_sum(sums: &[Sum256], place: usize, sum: Sum256) -> bool
    ensures { result ≡ true → slice_get sums.now place ≡ Some sum }
{
    match sums.get(place) {
        Some(wanted) => is_same(wanted, &sum),
        None => false,
    }
}

// Notes a Put, unless its path is none of the mill's, or its file was put before or has another sum.
#[tactic(auto, using(crate::proofs::Found::big_noted, crate::proofs::Found::file_noted))]
fn noted_put(numbers: &mut Vec<u32>, number: u32, path: &[u8], sum: Sum256, sums: &[Sum256]) -> bool
    requires count { length numbers.old.items ≡ length sums.now }
    requires few { length sums.now ≤ 1000000 }
    ensures { result ≡ true → IsPutNoted numbers.old.items numbers.new.items number (Some (path.now, sum)) sums.now }
{
    if is_big(path) {
        return true;
    }
    let Some(k) = index_of(path, sums.len() as u32) else {
        return false;
    };
    if !is_none_at(numbers, k as usize) || !has_sum(sums, k as usize, sum) {
        return false;
    }
    put_at(numbers, k as usize, number);
    true
}

// Notes what an ask puts, if it puts anything.
fn noted(numbers: &mut Vec<u32>, number: u32, ask: &Ask, sums: &[Sum256]) -> bool
    requires count { length numbers.old.items ≡ length sums.now }
    requires few { length sums.now ≤ 1000000 }
    ensures { result ≡ true → IsPutNoted numbers.old.items numbers.new.items number (put_in (bare_ask ask.now)) sums.now }
{
    match put_in(ask) {
        Some(put) => noted_put(numbers, number, put.path, put.sum, sums),
        None => true,
    }
}

// Whether no number is 0.
fn are_some(numbers: &[u32]) -> bool
    ensures { result ≡ list_all (λ n. nat_lt 0 n) numbers.now }
{
    numbers.iter().all(|number| *number > 0)
}

// So many times 0.
fn no_numbers(alloc: Global, count: usize) -> Result<Vec<u32>, NoMemory>
    ensures { IfOk result (λ v. v.items ≡ replicate count 0) }
{
    Ok(vec![in alloc; 0; count]?)
}

/// The numbers of the Puts of the files with these sums, in their order; None where a file is not put, or more than once,
/// or with another sum, and where a path is put that is none of the mill's.
#[tactic(auto, using(cta_model::proofs::Newest::scans, crate::proofs::Found::found_none, crate::proofs::Found::found_next, crate::proofs::Found::found_all))]
pub(crate) fn file_puts(
    alloc: Global,
    entries: &[Entry],
    sums: &[Sum256],
) -> Result<Option<Vec<u32>>, NoMemory>
    requires entries { length entries.now < 2 ^ 32 }
    requires few { length sums.now ≤ 1000000 }
    ensures { IfOk result (λ o. IfSome o (λ v. ArePut (history_in entries.now) sums.now v.items)) }
{
    let mut numbers = no_numbers(alloc, sums.len())?;
    let mut number: u32 = 0;
    for entry in entries {
        number += 1;
        if !noted(&mut numbers, number, &entry.ask, sums) {
            return Ok(None);
        }
    }
    if are_some(&numbers) {
        Ok(Some(numbers))
    } else {
        Ok(None)
    }
}
