// The run of `cta serve`.
ghost use Rattle.std.specs.Prelude.{◌≡◌, ◌≤◌, ◌↔◌, IfSome, IsSome, [], map, string_bytes};
ghost use Rattle.archive_opening.specs.Seen.{source_view};
ghost use Rattle.archive_opening.specs.SiteFile.{ReadsSite};
ghost use Rattle.archive_opening.specs.declared.status.Status.TheVariants as status;
ghost use Rattle.turn_hall.specs.Handles.{first_of};
ghost use Rattle.site_server.specs.Serving.{EndsServing, IsServed};
ghost use Rattle.site_server.specs.Top.{Ends};

use crate::serving::{Served, serve_archive};
use archive::Archive;
use archive_opening::{Status, drives_of, read_archive};
use cta_model::Told;
use cta_words::{WordsError, read_serve};
use media::{Bench, TapeDrive};
use outside::{Clock, Gate, Link, Listener, Source};
use std::alloc::Global;
use std::hash::RandomState;
use std::sync::Wait;
use std::thread::Threads;

// Serves an archive that has kept nothing yet, over drives that a bench makes.
fn serve_new<
    R: Threads + Wait + Sync,
    M: Told + Send + Drop,
    D: TapeDrive<Medium = M> + Send + Drop,
    B: Bench<D>,
    K: Link + Send + Drop,
    L: Listener<L = K> + Send,
    C: Clock + Copy + Send + Sync + Drop,
    G: Gate + Sync,
>(
    rt: &R,
    alloc: Global,
    archive: Archive<M>,
    workers: u32,
    listener: &mut L,
    bench: &mut B,
    clock: C,
    gate: &G,
) -> (Status, Option<Served<M>>)
    requires { workers ≤ 64 }
    ensures cause { EndsServing result.0 (L.faults listener.old) (L.faults listener.new) (L.ended listener.new) }
    ensures given { IsSome result.1 ↔ result.0 ≡ status.Ok }
    ensures served { IfSome result.1 (λ s. IsServed K.left K.firm (L.left listener.old) s.hall s.pass s.wanted) }
    ensures first { IfSome result.1 (λ s. first_of s.hall ≡ archive) }
{
    let Ok(site) = archive.site().copy(alloc) else {
        archive.let_go();
        return (Status::NoMemory, None);
    };
    match drives_of(alloc, &site, bench) {
        Ok(drives) => serve_archive(
            rt, alloc, archive, &site, drives, workers, listener, clock, gate,
        ),
        Err(_) => {
            archive.let_go();
            (Status::NoMemory, None)
        }
    }
}

/// Serves a site: `words` are those of the command line behind the program's name, `serve SITE ADDR MEDIA WORKERS`; the site file comes from
/// `site_bytes`, links from `listener`, drives and empty media from `bench`, moments from `clock`, and `gate` tells each worker whether it goes
/// on. Paths are hashed with `keys`. It waits for links, at the gate and for turns at the archive.
///
/// A worker for each drive of the site makes one step after the other; WORKERS workers take links from a pool of 64 and serve each; this thread
/// accepts links. The workers of drives have the numbers from 0 in order of drive, those of links the next ones, and the last number is that of
/// the worker that tells links for which there is no room that the server is busy (503). Once the listener has ended or failed and each worker was
/// told to stop, this thread serves the links that are still waiting.
///
/// The history begins empty. The statuses are looked at in the order in which the work meets them: words, site file, listener.
/// - `Ok`: the listener has ended and all was served. The hall comes back with its archive, and a pass with all of its seats, so that `Hall::close`
///   gives the archive and says what each call came to. Where the listener told its links at the start, and these are at most 64, what callers
///   asked by the calls of that pass is what these links asked, each as often; and where `wanted` is 0, all that the bytes of a link ask was asked
///   on each that tells its bytes, fewer than 2^40, and never fails.
/// - `Usage`: the words are of another form. Nothing was touched.
/// - `Site`: the site file breaks this rule, of the thirty rules of a site file the first, and first at this item of its list.
/// - `ReadFault`: the count of faults of the site file's source rose in this call.
/// - `ListenFault`: the listener's count of faults rose in this call.
/// - `NoMemory`: memory ran out for the site, the archive, the drives or the threads. A request for which there is none is answered 500, and
///   the server goes on.
///
/// No other status comes, and nothing is given back but at `Ok`. The return is not promised, nor that threads overlap or that workers of drives go on.
pub fn serve_top<
    R: Threads + Wait + Sync,
    A: Source,
    K: Link + Send + Drop,
    L: Listener<L = K> + Send,
    M: Told + Send + Drop,
    D: TapeDrive<Medium = M> + Send + Drop,
    B: Bench<D>,
    C: Clock + Copy + Send + Sync + Drop,
    G: Gate + Sync,
>(
    rt: &R,
    alloc: Global,
    words: &[String],
    site_bytes: &mut A,
    listener: &mut L,
    bench: &mut B,
    clock: C,
    gate: &G,
    keys: RandomState,
) -> (Status, Option<Served<M>>)
    ensures cause { Ends result.0 (map string_bytes words.now) (source_view (A.left site_bytes.old) (A.faults site_bytes.old)) (source_view (A.left site_bytes.new) (A.faults site_bytes.new))
        (L.faults listener.old) (L.faults listener.new) (L.ended listener.new) }
    ensures given { IsSome result.1 ↔ result.0 ≡ status.Ok }
    ensures site { IfSome result.1 (λ s. ReadsSite (source_view (A.left site_bytes.old) (A.faults site_bytes.old)) (source_view (A.left site_bytes.new) (A.faults site_bytes.new)) (first_of s.hall).site) }
    ensures empty { IfSome result.1 (λ s. (first_of s.hall).history ≡ []) }
    ensures served { IfSome result.1 (λ s. IsServed K.left K.firm (L.left listener.old) s.hall s.pass s.wanted) }
{
    let workers = match read_serve(alloc, words) {
        Ok(words) => words.workers,
        Err(WordsError::Usage) => return (Status::Usage, None),
        Err(WordsError::NoMemory) => return (Status::NoMemory, None),
    };
    match read_archive(alloc, site_bytes, bench, keys) {
        Ok(archive) => serve_new(rt, alloc, archive, workers, listener, bench, clock, gate),
        Err(status) => (status, None),
    }
}
