// What callers of a mill call, and what they hear.
ghost use Rattle.std.specs.Prelude.{◌≡◌, ◌≤◌, List, None};
ghost use Rattle.cta_model.specs.Legal.{greatest_moment};

use blob::Blob;
use cta_model::{Answer, Wanted};
use cta_site::{Rows, Text};
use std::alloc::Global;
use std::sync::Arc;
use turn_hall::Keeps;

/// What a caller of a mill calls, as nobody that is named.
#[derive(Drop)]
pub enum MillCall {
    /// Puts a file.
    Put { path: Text, blob: Arc<Blob, Global> },
    /// Deletes a file.
    Delete { path: Text },
    /// Wants files on disk.
    Stage { files: Rows<Wanted> },
    /// Looks at the bytes of a file.
    Fetch { path: Text },
    /// Looks where files are kept.
    Places { paths: Rows<Text> },
    /// Looks how a stage request stands.
    Report { id: u32 },
}

/// What a caller hears of what came back.
#[derive(Drop)]
pub enum Heard {
    /// The content of a file that was fetched.
    Content(Arc<Blob, Global>),
    /// Any other answer.
    Answer(Answer),
    /// None, since memory was wanted.
    Nothing,
}

/// The calls of a mill's callers, as calls of a value that a hall keeps. Each may be made whatever was seen before.
pub trait MillFront<T: Keeps> {
    /// The call at this moment, in seconds since 1970, at most the last second of the year 9999. It takes no memory.
    fn call(&self, at: u64, call: MillCall) -> T::Call
        requires { at ≤ greatest_moment }
        ensures fits { (s : T.Site) (h : List T.Entry) → T.fits s h result }
        ensures asks { T.asks result ≡ None };

    /// What a caller hears of what came back. It takes no memory. No clause says what it is: what a mill promises, it reads in the
    /// closed archive.
    fn hear(&self, back: T::Back) -> Heard;
}
