// The run of `cta mill`.
ghost use Rattle.std.specs.Prelude.{◌≡◌, drop, map, string_bytes};
ghost use Rattle.cta_main.specs.Exit.{IsNumberOf};
ghost use Rattle.mill.specs.Top.{Ends};

use crate::report::end_with;
use crate::words::words_of;
use cta_model::Told;
use media::{Bench, MemBench, TapeDrive};
use mill::mill_top;
use outside::{Gate, PauseGate, Sink, std_sink};
use std::alloc::Global;
use std::hash::RandomState;
use std::io::{Eprint, Print};
use std::sync::Wait;
use std::thread::Threads;
use std::time::{Clock, Duration};

// How long a drive that found nothing to do pauses, in microseconds: about as long as a caller takes for one file, so that drives that wait
// for files take few turns.
const PAUSE: u64 = 100;

// Runs a mill by the words behind the program's name, prints the line of the status, and gives the number that the process is to end with.
fn mill_with<
    R: Threads + Wait + Sync + Eprint,
    K: Sink,
    M: Told + Send + Drop,
    D: TapeDrive<Medium = M> + Send + Drop,
    B: Bench<D>,
    G: Gate + Sync,
>(
    rt: &R,
    alloc: Global,
    arguments: &[String],
    out: &mut K,
    bench: &mut B,
    gate: &G,
    keys: RandomState,
) -> u8
    ensures { IsNumberOf (λ status. Ends status (map string_bytes (drop 1 arguments.now)) (K.written out.old) (K.written out.new) (K.faults out.old) (K.faults out.new)) result }
{
    let words = words_of(arguments);
    let (status, archive) = mill_top(rt, alloc, words, out, bench, gate, keys);
    if let Some(archive) = archive {
        archive.let_go();
    }
    end_with(rt, status)
}

// Runs a mill over drives and media in memory, and standard output.
pub(crate) fn mill_here<R: Threads + Wait + Sync + Eprint + Print + Clock>(
    rt: &R,
    alloc: Global,
    arguments: &[String],
    keys: RandomState,
) -> u8 {
    let mut out = std_sink(rt);
    let mut bench = MemBench::new(alloc);
    let gate = PauseGate::new(rt, Duration::from_micros(PAUSE));
    mill_with(rt, alloc, arguments, &mut out, &mut bench, &gate, keys)
}
