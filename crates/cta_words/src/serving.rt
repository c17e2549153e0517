// The words of a server.
ghost use Rattle.std.specs.Prelude.{MatchResult, map, string_bytes};
ghost use Rattle.cta_words.specs.Serving.{ExplainsNoServer, SpellsServer};

use crate::form::{Form, WordsError};
use crate::numbers::workers_of;
use crate::read::read_words;
use std::alloc::Global;

/// The words of a server.
#[derive(Clone, Copy, Debug, PartialEq, Eq)]
pub struct ServeWords<'a> {
    /// The path of the site file.
    pub site: &'a str,
    /// The address at which it listens, HOST:PORT.
    pub addr: &'a str,
    /// The folder of the media.
    pub media: &'a str,
    /// How many workers serve links, from 1 to 64.
    pub workers: u32,
}

/// The words `serve SITE ADDR MEDIA WORKERS` behind the program's own name, where WORKERS is 1 to 64 in decimal digits, with no sign
/// and no leading zero. `Usage` stands for all other words, and for no others; `NoMemory` says nothing of the words.
pub fn read_serve<'a>(alloc: Global, words: &'a [String]) -> Result<ServeWords<'a>, WordsError>
    ensures { MatchResult result (SpellsServer (map string_bytes words.now))
        (ExplainsNoServer (map string_bytes words.now)) }
{
    match read_words(alloc, words) {
        Ok(
            Form::Serve {
                site,
                addr,
                media,
                workers,
            },
        ) => match workers_of(workers) {
            Some(workers) => Ok(ServeWords {
                site,
                addr,
                media,
                workers,
            }),
            None => Err(WordsError::Usage),
        },
        Ok(Form::Replay { .. }) => Err(WordsError::Usage),
        Ok(Form::Mill { .. }) => Err(WordsError::Usage),
        Ok(Form::Durable { .. }) => Err(WordsError::Usage),
        Err(error) => Err(error),
    }
}
