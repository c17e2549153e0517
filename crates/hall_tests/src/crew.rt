// Two threads at one hall. It is written for every value whose callers put files: that a pass may cross threads is found where the
// value is a type parameter, and not where it is a type with as many fields as an archive.
ghost use Rattle.std.specs.Prelude.{◌≡◌, ◌+◌};
ghost use Rattle.turn_hall.specs.Handles.{IsPassOf};

use archive::Archive;
use archive_turns::{ArchiveBack, ArchiveCall};
use blob::Blob;
use cta_model::{Ask, Hand, Told, Who};
use cta_site::Text;
use std::alloc::Global;
use std::sync::{Arc, Wait};
use std::thread::{Threads, join};
use turn_hall::{Hall, Keeps, Pass};

// A file that is to be put: who asks, its path, and its content.
#[derive(Drop)]
pub(crate) struct Put {
    pub(crate) who: Who,
    pub(crate) path: Text,
    pub(crate) blob: Arc<Blob, Global>,
}

// A value whose callers put files.
pub(crate) trait Serves: Keeps {
    ghost use Rattle.std.specs.Prelude.{◌≡◌, List, None};

    // The call that puts a file: it is fit whatever was seen, and asks about nothing that another opened.
    fn call_of(put: Put) -> Self::Call
        ensures fits { (s : Self.Site) (h : List Self.Entry) → Self.fits s h result }
        ensures asks { Self.asks result ≡ None };

    // Lets go what came back.
    fn let_go(back: Self::Back);
}

impl<M: Told + Drop> Serves for Archive<M> {
    fn call_of(put: Put) -> ArchiveCall<M> {
        let Put { who, path, blob } = put;
        let sum = blob.sum();
        let ask = Ask::Put { who, path, sum };
        let hand = Hand::Blob(blob);
        ArchiveCall::Ask { at: 100, ask, hand }
    }

    fn let_go(back: ArchiveBack<M>) {
        drop(back);
    }
}

// Puts one file in a turn, and gives the pass back.
fn served<R: Wait, T: Serves>(rt: &R, hall: &Hall<T>, pass: Pass<T>, put: Put) -> Pass<T>
    requires { IsPassOf T.site hall.now pass }
    ensures here { IsPassOf T.site hall.now result }
    ensures seats { result.seats ≡ pass.seats }
{
    let mut pass = pass;
    let call = T::call_of(put);
    T::let_go(hall.turn(rt, &mut pass, call));
    pass
}

// One thread puts a file with the first pass, and then another thread puts one with the second.
pub(crate) fn one_then_other<R: Threads + Wait + Sync, T: Serves + Send>(
    rt: &R,
    hall: &Hall<T>,
    first: Pass<T>,
    second: Pass<T>,
    a: Put,
    b: Put,
) -> (Pass<T>, Pass<T>)
    requires { IsPassOf T.site hall.now first × IsPassOf T.site hall.now second }
    ensures here { IsPassOf T.site hall.now result.0 × IsPassOf T.site hall.now result.1 }
    ensures seats { (result.0.seats ≡ first.seats) × (result.1.seats ≡ second.seats) }
{
    let (first, ()) = join(rt, || served(rt, hall, first, a), || ());
    let ((), second) = join(rt, || (), || served(rt, hall, second, b));
    (first, second)
}

// Each of two threads puts one file with a pass of its own, and the passes are one again.
pub(crate) fn both<R: Threads + Wait + Sync, T: Serves + Send>(
    rt: &R,
    hall: &Hall<T>,
    first: Pass<T>,
    second: Pass<T>,
    a: Put,
    b: Put,
) -> Pass<T>
    requires { IsPassOf T.site hall.now first × IsPassOf T.site hall.now second }
    ensures here { IsPassOf T.site hall.now result }
    ensures seats { result.seats ≡ first.seats + second.seats }
{
    let (mut all, other) = join(
        rt,
        || served(rt, hall, first, a),
        || served(rt, hall, second, b),
    );
    hall.join(&mut all, other);
    all
}
