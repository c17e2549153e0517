// The program over any ends.
ghost use Rattle.std.specs.Prelude.{drop, map, string_bytes};
ghost use Rattle.replay.specs.Top.{handed, HasReplayed};
ghost use Rattle.cta_main.specs.Exit.{IsNumberOf};

use crate::report::end_with;
use crate::words::words_of;
use media::{Bench, TapeDrive};
use outside::{Sink, Source};
use replay::replay_top;
use std::alloc::Global;
use std::hash::RandomState;
use std::io::Eprint;

// Runs by the words behind the program's name, which the arguments begin with, prints the line of the status, and gives the number that the
// process is to end with.
pub(crate) fn run<E: Eprint, A: Source, S: Source, K: Sink, D: TapeDrive + Drop, B: Bench<D>>(
    errors: &E,
    alloc: Global,
    arguments: &[String],
    site: &mut A,
    script: &mut S,
    out: &mut K,
    bench: &mut B,
    keys: RandomState,
) -> u8
    ensures { let old = handed (A.left site.old) (A.faults site.old) (S.left script.old) (S.faults script.old) (K.written out.old) (K.faults out.old) in
        let new = handed (A.left site.new) (A.faults site.new) (S.left script.new) (S.faults script.new) (K.written out.new) (K.faults out.new) in
        IsNumberOf (λ status. HasReplayed (B.tells bench.old) status (map string_bytes (drop 1 arguments.now)) old new) result }
{
    let words = words_of(arguments);
    let status = replay_top(alloc, words, site, script, out, bench, keys);
    end_with(errors, status)
}
