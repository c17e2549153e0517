// The words of the command line.
ghost use Rattle.std.specs.Prelude.{IsTrue, ◌↔◌, IfOk, map, string_bytes};
ghost use Rattle.replay.specs.Words.{IsReplayForm};

use cta_model::NoMemory;
use cta_words::{Form, WordsError, read_words};
use std::alloc::Global;

// Whether the words are `replay SITE`.
pub(crate) fn is_replay_form(alloc: Global, words: &[String]) -> Result<bool, NoMemory>
    ensures { IfOk result (λ is_form. IsTrue is_form ↔ IsReplayForm (map string_bytes words.now)) }
{
    match read_words(alloc, words) {
        Ok(Form::Replay { .. }) => Ok(true),
        Ok(Form::Serve { .. }) => Ok(false),
        Ok(Form::Mill { .. }) => Ok(false),
        Ok(Form::Durable { .. }) => Ok(false),
        Err(WordsError::Usage) => Ok(false),
        Err(WordsError::NoMemory) => Err(NoMemory),
    }
}
