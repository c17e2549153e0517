// What the entries say of files.
ghost use Rattle.std.specs.Prelude.{◌≡◌, true};
ghost use Rattle.cta_model.specs.Bare.{bare_ask};
ghost use Rattle.cta_model.specs.Files.{path_in, path_of, sum_in, sum_of};
ghost use Rattle.cta_model.specs.History.{entry_of};
ghost use Rattle.kept_history.specs.Puts.{is_put, puts_file};

use crate::history::KeptHistory;
use cta_model::{Ask, Sum256};

// The path that an ask puts, empty where it puts none.
fn path_in(ask: &Ask) -> &[u8]
    ensures { result.now ≡ path_in (bare_ask ask.now) }
{
    match ask {
        Ask::Put { path, .. } => path.as_bytes(),
        _ => &[],
    }
}

// The length and SHA-256 that a Put puts.
fn sum_in(ask: &Ask) -> Sum256
    requires { puts_file (bare_ask ask.now) ≡ true }
    ensures { result ≡ sum_in (bare_ask ask.now) }
{
    match ask {
        Ask::Put { sum, .. } => *sum,
        _ => unreachable!(),
    }
}

impl KeptHistory {
    /// The path in the Put of a file, by the file's number; empty where there is no such file. In constant time.
    pub fn path_of(&self, file: u32) -> &[u8]
        ensures { result.now ≡ path_of self.now.value file }
    {
        match self.entry(file) {
            Some(entry) => path_in(&entry.ask),
            None => &[],
        }
    }

    /// The length in bytes and the SHA-256 in the Put of a file, by the file's number. In constant time.
    pub fn sum_of(&self, file: u32) -> Sum256
        requires put { is_put (entry_of self.now.value file) ≡ true }
        ensures { result ≡ sum_of self.now.value file }
    {
        match self.entry(file) {
            Some(entry) => sum_in(&entry.ask),
            None => unreachable!(),
        }
    }
}
