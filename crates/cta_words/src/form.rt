// What the words of the command line ask for.
use std::alloc::AllocError;

/// A command line of one of the four forms, by the texts in its places. The program `cta` and its four forms are this
/// project's own. Each text is a word as it was given: it is not empty and does not begin with `-`. A number stays the
/// text that was given for it, which nothing here checks.
#[derive(Clone, Copy, Debug, PartialEq, Eq)]
pub enum Form<'a> {
    /// `replay SITE`: replay a script for the site that the file SITE describes.
    Replay {
        site: &'a str,
    },
    /// `serve SITE ADDR MEDIA WORKERS`: serve the site that the file SITE describes at the address ADDR, over the folder
    /// MEDIA, with WORKERS workers.
    Serve {
        site: &'a str,
        addr: &'a str,
        media: &'a str,
        workers: &'a str,
    },
    /// `mill SEED FILES WORKERS`: the run that SEED determines, over FILES files, with WORKERS workers.
    Mill {
        seed: &'a str,
        files: &'a str,
        workers: &'a str,
    },
    /// `durable SITE ADDR MEDIA WORKERS JOURNAL`: serve the site that the file SITE describes at the address ADDR, over the
    /// folder MEDIA, with WORKERS workers, and keep its history in the file JOURNAL.
    Durable {
        site: &'a str,
        addr: &'a str,
        media: &'a str,
        workers: &'a str,
        journal: &'a str,
    },
}

/// Why words were not read.
#[derive(Clone, Copy, Debug, PartialEq, Eq)]
pub enum WordsError {
    /// The words have none of the four forms, or a word is empty or begins with `-`.
    Usage,
    /// There is no memory to read the words. It says nothing of the words.
    NoMemory,
}

impl From<AllocError> for WordsError {
    ghost use Rattle.std.specs.Prelude.{◌≡◌};
    ghost use Rattle.cta_words.specs.declared.form.WordsError.TheVariants.{NoMemory};

    ghost from_gives = { λ _ e. e ≡ NoMemory };

    fn from(_error: AllocError) -> WordsError {
        WordsError::NoMemory
    }
}
