// The words of a server that keeps a journal.
ghost use Rattle.std.specs.Prelude.{MatchResult, map, string_bytes};
ghost use Rattle.cta_words.specs.Durable.{ExplainsNoDurable, SpellsDurable};

use crate::form::{Form, WordsError};
use crate::numbers::workers_of;
use crate::read::read_words;
use std::alloc::Global;

/// The words of a server that keeps a journal.
#[derive(Clone, Copy, Debug, PartialEq, Eq)]
pub struct DurableWords<'a> {
    /// The path of the site file.
    pub site: &'a str,
    /// The address at which it listens, HOST:PORT.
    pub addr: &'a str,
    /// The folder of the media.
    pub media: &'a str,
    /// How many workers serve links, from 1 to 64.
    pub workers: u32,
    /// The path of the file that keeps the history.
    pub journal: &'a str,
}

/// The words `durable SITE ADDR MEDIA WORKERS JOURNAL` behind the program's own name, where WORKERS is 1 to 64 in decimal digits, with
/// no sign and no leading zero. `Usage` stands for all other words, and for no others; `NoMemory` says nothing of the words.
pub fn read_durable<'a>(alloc: Global, words: &'a [String]) -> Result<DurableWords<'a>, WordsError>
    ensures { MatchResult result (SpellsDurable (map string_bytes words.now))
        (ExplainsNoDurable (map string_bytes words.now)) }
{
    match read_words(alloc, words) {
        Ok(
            Form::Durable {
                site,
                addr,
                media,
                workers,
                journal,
            },
        ) => match workers_of(workers) {
            Some(workers) => Ok(DurableWords {
                site,
                addr,
                media,
                workers,
                journal,
            }),
            None => Err(WordsError::Usage),
        },
        Ok(Form::Replay { .. }) => Err(WordsError::Usage),
        Ok(Form::Serve { .. }) => Err(WordsError::Usage),
        Ok(Form::Mill { .. }) => Err(WordsError::Usage),
        Err(error) => Err(error),
    }
}
