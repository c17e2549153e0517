// The lines of steps.
ghost use Rattle.std.specs.Prelude.{◌≡◌, ◌≤◌, ◌<◌, ◌++◌, IfOk, codes, decimal, length, string_bytes};
ghost use Rattle.cta_site.specs.Lookups.{vid_of};
ghost use Rattle.replay.specs.Seen.{sink_view};
ghost use Rattle.replay.specs.StepRecords.{IsPut};
ghost use Rattle.replay.specs.Steps.{end_text, how, line_words, step_line, way_text};

use crate::output::{Unwritten, put};
use cta_model::{Direction, NoMemory};
use cta_site::ValidSite;
use drive_session::{ReadEnd, StepLine};
use outside::Sink;
use std::alloc::Global;

// Whether a call succeeded.
fn how(ok: bool) -> &'static str
    ensures { result.now ≡ how ok }
{
    if ok { "ok" } else { "failed" }
}

// Which way a mount goes.
fn way_text(direction: Direction) -> &'static str
    ensures { result.now ≡ way_text direction }
{
    match direction {
        Direction::Archive => "archive",
        Direction::Retrieve => "retrieve",
    }
}

// How a read ended.
fn end_text(end: ReadEnd) -> &'static str
    ensures { result.now ≡ end_text end }
{
    match end {
        ReadEnd::Done => "done",
        ReadEnd::Stale => "stale",
        ReadEnd::Failed => "failed",
        ReadEnd::Mismatch => "mismatch",
    }
}

// The VID of a tape.
fn vid_of(site: &ValidSite, tape: u32) -> &str
    ensures { result.now ≡ vid_of site.now tape }
{
    match site.tapes().get(tape as usize) {
        Some(tape) => tape.vid.as_str(),
        None => "",
    }
}

// A word.
fn one_word(alloc: Global, word: &str) -> Result<String, NoMemory>
    ensures { IfOk result (λ s. string_bytes s ≡ word.now) }
{
    let text = String::from_str(alloc, word)?;
    Ok(text)
}

// Two words.
fn two_words(alloc: Global, first: &str, second: &str) -> Result<String, NoMemory>
    ensures { IfOk result (λ s. string_bytes s ≡ first.now ++ codes " " ++ second.now) }
{
    let text = format!(in alloc; "{first} {second}")?;
    Ok(text)
}

// Two words and the VID of a mount.
fn mount_words(alloc: Global, way: &str, vid: &str) -> Result<String, NoMemory>
    ensures { IfOk result (λ s. string_bytes s ≡ codes "mount " ++ way.now ++ codes " " ++ vid.now) }
{
    let text = format!(in alloc; "mount {way} {vid}")?;
    Ok(text)
}

// A word with a number.
fn counted_words(alloc: Global, word: &str, count: u32) -> Result<String, NoMemory>
    ensures { IfOk result (λ s. string_bytes s ≡ word.now ++ codes " " ++ decimal count) }
{
    let text = format!(in alloc; "{word} {count}")?;
    Ok(text)
}

// The words of a write of this fSeq.
fn write_words(alloc: Global, fseq: u32, end: &str) -> Result<String, NoMemory>
    ensures { IfOk result (λ s. string_bytes s ≡ codes "write " ++ decimal fseq ++ codes " " ++ end.now) }
{
    let text = format!(in alloc; "write {fseq} {end}")?;
    Ok(text)
}

// The words of a read of this fSeq.
fn read_words(alloc: Global, fseq: u32, end: &str) -> Result<String, NoMemory>
    ensures { IfOk result (λ s. string_bytes s ≡ codes "read " ++ decimal fseq ++ codes " " ++ end.now) }
{
    let text = format!(in alloc; "read {fseq} {end}")?;
    Ok(text)
}

// The words of a flush.
fn flush_words(alloc: Global, done: u32, stale: u32) -> Result<String, NoMemory>
    ensures { IfOk result (λ s. string_bytes s ≡ codes "flush " ++ decimal done ++ codes " " ++ decimal stale) }
{
    let text = format!(in alloc; "flush {done} {stale}")?;
    Ok(text)
}

// The words of a line.
fn line_words(alloc: Global, site: &ValidSite, line: StepLine) -> Result<String, NoMemory>
    ensures { IfOk result (λ s. string_bytes s ≡ line_words site.now line) }
{
    match line {
        StepLine::Mount { direction, tape } => {
            mount_words(alloc, way_text(direction), vid_of(site, tape))
        }
        StepLine::Idle => one_word(alloc, "idle"),
        StepLine::Down => one_word(alloc, "down"),
        StepLine::Busy => one_word(alloc, "busy"),
        StepLine::Full => one_word(alloc, "full"),
        StepLine::Load(ok) => two_words(alloc, "load", how(ok)),
        StepLine::Claim(count) => counted_words(alloc, "claim", count),
        StepLine::ClaimFull => one_word(alloc, "claim full"),
        StepLine::Write(fseq, ok) => write_words(alloc, fseq, how(ok)),
        StepLine::Flush { done, stale } => flush_words(alloc, done, stale),
        StepLine::FlushFailed => one_word(alloc, "flush failed"),
        StepLine::Read(fseq, end) => read_words(alloc, fseq, end_text(end)),
        StepLine::Unload(ok) => two_words(alloc, "unload", how(ok)),
        StepLine::Memory => one_word(alloc, "memory"),
    }
}

// The line of a step of a drive of the site, with its LF.
#[tactic(auto, unfolding(crate::specs::Steps::step_line))]
fn step_line(
    alloc: Global,
    site: &ValidSite,
    drive: u32,
    line: StepLine,
) -> Result<String, NoMemory>
    requires { drive < length site.now.drives.items }
    ensures { IfOk result (λ s. string_bytes s ≡ step_line site.now drive line) }
{
    let words = line_words(alloc, site, line)?;
    let name = site.drives()[drive as usize].name.as_str();
    let text = format!(in alloc; "step {name} {words}\n")?;
    Ok(text)
}

// Writes the line of a step of a drive of the site.
pub(crate) fn put_line<K: Sink>(
    alloc: Global,
    site: &ValidSite,
    out: &mut K,
    drive: u32,
    line: StepLine,
) -> Result<(), Unwritten>
    requires { drive < length site.now.drives.items }
    ensures put { IsPut result (sink_view (K.written out.old) (K.faults out.old)) (sink_view (K.written out.new) (K.faults out.new)) (step_line site.now drive line) }
    ensures later { K.faults out.old ≤ K.faults out.new }
{
    match step_line(alloc, site, drive, line) {
        Ok(text) => put(out, text.as_bytes()),
        Err(_) => Err(Unwritten::Wanting),
    }
}
