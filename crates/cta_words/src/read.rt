// The reading of the words.
ghost use Rattle.std.specs.Prelude.{◌≡◌, ◌↔◌, MatchResult, map, string_bytes};
ghost use Rattle.clap.specs.Words.{kind_of};
ghost use Rattle.cta_words.specs.Words.{Explains, Spells};

use crate::command::cta_command;
use crate::form::{Form, WordsError};
use crate::found::form_of;
use crate::plain::are_plain;
use clap::Error;
use clap::error::ErrorKind;
use std::alloc::Global;

// Why `clap` refused the words.
fn reason_of(error: &Error) -> WordsError
    ensures { (result ≡ WordsError.NoMemory) ↔ (kind_of error.now ≡ ErrorKind.OutOfMemory) }
{
    match error.kind() {
        ErrorKind::OutOfMemory => WordsError::NoMemory,
        _ => WordsError::Usage,
    }
}

/// The form of the words behind the program's own name. `Usage` stands for words that have no form, and for no others;
/// `NoMemory` says nothing of the words. The words stay as they are, and the form borrows its texts from them.
pub fn read_words<'a>(alloc: Global, words: &'a [String]) -> Result<Form<'a>, WordsError>
    ensures { MatchResult result (Spells (map string_bytes words.now))
        (Explains (map string_bytes words.now)) }
{
    if !are_plain(words) {
        return Err(WordsError::Usage);
    }
    let command = cta_command(alloc)?;
    match command.try_get_matches_from(words) {
        Ok(matches) => form_of(&matches).ok_or(WordsError::Usage),
        Err(error) => Err(reason_of(&error)),
    }
}
