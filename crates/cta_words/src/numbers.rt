// Numbers as words.
ghost use Rattle.std.specs.Prelude.{◌≡◌, ◌≤◌, ◌<◌, ◌^◌, ℕ, IsTrue, MatchOption, MatchResult, ◌↔◌, decimal, map, string_bytes};
ghost use Rattle.cta_words.specs.Numbers.{AreSpelled, ExplainsNoRun, IsBare, SpellsIn, SpellsRun};
ghost use Rattle.cta_words.specs.declared.numbers.MillNumbers.{MillNumbers};

use crate::form::{Form, WordsError};
use crate::read::read_words;
use std::alloc::Global;

/// The numbers of a run of the mill.
#[derive(Clone, Copy, Debug, PartialEq, Eq)]
pub struct MillNumbers {
    /// What its files are made from.
    pub seed: u64,
    /// How many files it has, from 1 to 10,000.
    pub files: u32,
    /// How many callers put and fetch them, from 1 to 64.
    pub workers: u32,
}

// That digits have no sign and no leading zero.
fn is_bare(text: &[u8]) -> bool
    ensures { IsTrue result ↔ IsBare text.now }
{
    !matches!(text, [b'+', ..] | [b'0', _, ..])
}

// The number below 2^64 that a text spells in decimal digits, with no sign and no leading zero.
fn number_of(text: &str) -> Option<u64>
    ensures { MatchOption result ((n : ℕ) → n < 2 ^ 64 → decimal n ≡ text.now → ⊥) (λ n. decimal n ≡ text.now) }
{
    if !is_bare(text.as_bytes()) {
        return None;
    }
    match text.parse::<u64>() {
        Ok(n) => Some(n),
        Err(_) => None,
    }
}

fn is_within(n: u64, least: u64, most: u64) -> bool
    ensures { IsTrue result ↔ (least ≤ n) × (n ≤ most) }
{
    least <= n && n <= most
}

/// The number from `least` to `most` that a text spells in decimal digits, with no sign and with no leading zero other than
/// `0` itself; None exactly where it spells none. It takes no memory. The form is this project's own.
pub fn number_in(text: &str, least: u64, most: u64) -> Option<u64>
    ensures { MatchOption result ((n : ℕ) → SpellsIn text.now least most n → ⊥) (SpellsIn text.now least most) }
{
    match number_of(text) {
        Some(n) => {
            if is_within(n, least, most) {
                Some(n)
            } else {
                None
            }
        }
        None => None,
    }
}

/// The number of workers that a text spells: 1 to 64, as `number_in` reads it.
pub fn workers_of(text: &str) -> Option<u32>
    ensures { MatchOption result ((n : ℕ) → SpellsIn text.now 1 64 n → ⊥) (SpellsIn text.now 1 64) }
{
    match number_in(text, 1, 64) {
        Some(n) => Some(n as u32),
        None => None,
    }
}

// The number of files that a text spells.
fn files_of(text: &str) -> Option<u32>
    ensures { MatchOption result ((n : ℕ) → SpellsIn text.now 1 10000 n → ⊥) (SpellsIn text.now 1 10000) }
{
    match number_in(text, 1, 10000) {
        Some(n) => Some(n as u32),
        None => None,
    }
}

// The numbers that three texts spell.
fn numbers_in(seed: &str, files: &str, workers: &str) -> Option<MillNumbers>
    ensures { MatchOption result ((m : MillNumbers) → AreSpelled seed.now files.now workers.now m → ⊥) (AreSpelled seed.now files.now workers.now) }
{
    let seed = number_in(seed, 0, u64::MAX)?;
    let files = files_of(files)?;
    let workers = workers_of(workers)?;
    Some(MillNumbers {
        seed,
        files,
        workers,
    })
}

/// The numbers of the words `mill SEED FILES WORKERS` behind the program's own name: SEED is 0 to 2^64 - 1, FILES 1 to
/// 10,000 and WORKERS 1 to 64, each in decimal digits with no sign and with no leading zero other than `0` itself. `Usage`
/// stands for all other words, and for no others; `NoMemory` says nothing of the words.
pub fn read_mill(alloc: Global, words: &[String]) -> Result<MillNumbers, WordsError>
    ensures { MatchResult result (SpellsRun (map string_bytes words.now))
        (ExplainsNoRun (map string_bytes words.now)) }
{
    match read_words(alloc, words) {
        Ok(
            Form::Mill {
                seed,
                files,
                workers,
            },
        ) => match numbers_in(seed, files, workers) {
            Some(numbers) => Ok(numbers),
            None => Err(WordsError::Usage),
        },
        Ok(Form::Replay { .. }) => Err(WordsError::Usage),
        Ok(Form::Serve { .. }) => Err(WordsError::Usage),
        Ok(Form::Durable { .. }) => Err(WordsError::Usage),
        Err(error) => Err(error),
    }
}
