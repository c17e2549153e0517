// The words of the command line.
ghost use Rattle.std.specs.Prelude.{◌≡◌, IfOk, drop, map, string_bytes};
ghost use Rattle.cta_words.specs.Words.{Spells};
ghost use Rattle.cta_words.specs.declared.form.Form.{Form};
ghost use Rattle.cta_main.specs.Exit.{site_word};

use archive_opening::Status;
use cta_words::{Form, WordsError, read_words};
use std::alloc::Global;
use std::env;
use std::io::ErrorKind;

// The arguments of the process: the program's name, and then the words of the command line. A word that is not UTF-8 is no word of any form.
pub(crate) fn arguments_of(rt: &HostRuntime) -> Result<Vec<String>, Status> {
    let args = match env::args(rt) {
        Ok(args) => args,
        Err(error) => {
            return Err(match error.kind() {
                ErrorKind::OutOfMemory => Status::NoMemory,
                _ => Status::Usage,
            });
        }
    };
    let mut arguments = Vec::new(rt.alloc());
    for word in args {
        if arguments.push(word).is_err() {
            return Err(Status::NoMemory);
        }
    }
    Ok(arguments)
}

// The words behind the program's name.
pub(crate) fn words_of(arguments: &[String]) -> &[String]
    ensures { result.now ≡ drop 1 arguments.now }
{
    match arguments {
        [_, words @ ..] => words,
        [] => arguments,
    }
}

// Whether the first of the words behind the program's name is this one: the name of the run that they are meant for.
pub(crate) fn begins_with(arguments: &[String], name: &str) -> bool {
    match words_of(arguments) {
        [first, ..] => first.as_str() == name,
        [] => false,
    }
}

// The path of the site file, where the words have the form that is built; otherwise a path that no file has.
pub(crate) fn site_path(alloc: Global, arguments: &[String]) -> Result<&str, Status>
    ensures { let words = map string_bytes (drop 1 arguments.now) in (form : Form) → Spells words form → IfOk result (λ path. path.now ≡ site_word words) }
{
    match read_words(alloc, words_of(arguments)) {
        Ok(Form::Replay { site }) => Ok(site),
        Ok(Form::Serve { .. }) => Ok(""),
        Ok(Form::Mill { .. }) => Ok(""),
        Ok(Form::Durable { .. }) => Ok(""),
        Err(WordsError::Usage) => Ok(""),
        Err(WordsError::NoMemory) => Err(Status::NoMemory),
    }
}
