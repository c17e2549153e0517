// The run of `cta mill`.
ghost use Rattle.std.specs.Prelude.{◌≡◌, ◌≤◌, ◌↔◌, IfSome, IsSome, map, string_bytes};
ghost use Rattle.archive_opening.specs.declared.status.Status.TheVariants as status;
ghost use Rattle.load_mill.specs.Sites.{mill_site};
ghost use Rattle.mill_crew.specs.Contents.{AreFetched, file_sums};
ghost use Rattle.cta_words.specs.Numbers.{SpellsRun};
ghost use Rattle.mill.specs.Milled.{IsMilled};
ghost use Rattle.mill.specs.Top.{Ends, HasMilled};

use crate::hall::{Milled, mill_archive};
use crate::summary::{Figures, put_text, summary_of};
use archive::Archive;
use archive_opening::Status;
use cta_model::Told;
use cta_words::{MillNumbers, WordsError, read_mill};
use media::{Bench, TapeDrive};
use mill_crew::{Load, total_len};
use outside::{Gate, Sink};
use std::alloc::Global;
use std::hash::RandomState;
use std::sync::Wait;
use std::thread::Threads;

// Writes the lines of a run that went to its end.
fn tell<K: Sink, M: Told + Drop>(
    alloc: Global,
    words: &[String],
    out: &mut K,
    numbers: MillNumbers,
    milled: Milled<M>,
) -> (Status, Option<Archive<M>>)
    requires words { SpellsRun (map string_bytes words.now) numbers }
    requires site { milled.archive.site ≡ mill_site }
    requires milled { IsMilled milled.archive.site milled.archive.history (file_sums numbers.seed 0 numbers.files) milled.tally.archived milled.tally.recalled }
    requires fetched { AreFetched (file_sums numbers.seed 0 numbers.files) milled.total }
    ensures cause { Ends result.0 (map string_bytes words.now) (K.written out.old) (K.written out.new) (K.faults out.old) (K.faults out.new) }
    ensures given { IsSome result.1 ↔ result.0 ≡ status.Ok }
    ensures milled { IfSome result.1 (λ a. HasMilled (map string_bytes words.now) a (K.written out.old) (K.written out.new)) }
{
    let _words = words;
    let Milled {
        archive,
        tally,
        total,
    } = milled;
    archive.keeps_history();
    let figures = Figures {
        files: u64::from(numbers.files),
        bytes: total_len(numbers.seed, numbers.files),
        archived: tally.archived,
        recalled: tally.recalled,
        total,
    };
    match summary_of(alloc, figures) {
        Ok(text) => {
            if put_text(out, &text) {
                (Status::Ok, Some(archive))
            } else {
                archive.let_go();
                (Status::WriteFault, None)
            }
        }
        Err(_) => {
            archive.let_go();
            (Status::NoMemory, None)
        }
    }
}

/// Runs a mill: `words` are those of the command line behind the program's name, `mill SEED FILES WORKERS`; drives and empty media come from
/// `bench`, and each worker asks `gate` before it goes on, and does not look at what that answers. Paths are hashed with `keys`. It waits at the
/// gate and for turns at the archive.
///
/// The files are those of `load_mill`, and so is the site. The run has five phases, each of which ends before the next begins and whose number
/// is its moment (`run_phases` of `mill_crew`): WORKERS callers put the files, while four drives step; the drives step until each file is on
/// disk and on tape; `/mill/x`, as large as the buffer, is put and deleted; one Stage wants all files, and the drives step until each is
/// completed; WORKERS callers fetch the files. The workers of drives have the numbers from 0 in order of drive, callers the next ones.
///
/// The statuses are:
/// - `Ok`: the history of the archive, which comes back, tells that all of this was done. The five lines were written: the number of files, the
///   sum of their sizes, the flushed items of these files that were done, the recalls of these files that completed, and the sum modulo 2^64 of
///   the bytes of what was fetched.
/// - `Usage`: the words are of another form. Nothing was touched.
/// - `WriteFault`: the sink's count of faults rose in this call.
/// - `NoMemory`: memory was wanted, or anything was not as it should be, as where a drive failed too often. Nothing was written.
///
/// No other status comes, and nothing is given back but at `Ok`. The return is not promised, nor that threads overlap.
pub fn mill_top<
    R: Threads + Wait + Sync,
    K: Sink,
    M: Told + Send + Drop,
    D: TapeDrive<Medium = M> + Send + Drop,
    B: Bench<D>,
    G: Gate + Sync,
>(
    rt: &R,
    alloc: Global,
    words: &[String],
    out: &mut K,
    bench: &mut B,
    gate: &G,
    keys: RandomState,
) -> (Status, Option<Archive<M>>)
    ensures cause { Ends result.0 (map string_bytes words.now) (K.written out.old) (K.written out.new) (K.faults out.old) (K.faults out.new) }
    ensures given { IsSome result.1 ↔ result.0 ≡ status.Ok }
    ensures milled { IfSome result.1 (λ a. HasMilled (map string_bytes words.now) a (K.written out.old) (K.written out.new)) }
{
    let numbers = match read_mill(alloc, words) {
        Ok(numbers) => numbers,
        Err(WordsError::Usage) => return (Status::Usage, None),
        Err(WordsError::NoMemory) => return (Status::NoMemory, None),
    };
    let load = Load {
        seed: numbers.seed,
        files: numbers.files,
        workers: numbers.workers,
    };
    match mill_archive(rt, alloc, bench, gate, keys, load) {
        Ok(milled) => tell(alloc, words, out, numbers, milled),
        Err(_) => (Status::NoMemory, None),
    }
}
