// What is written for the events of a link.
ghost use Rattle.std.specs.Prelude.{◌≡◌, ◌≤◌, MatchResult, IfOk, OnOk, string_bytes, codes, [], ◌∷◌, ◌++◌};
ghost use Rattle.std.specs.Fmt.{decimal};
ghost use Rattle.std.specs.Io.KnownBytes.{Appends};
ghost use Rattle.outside.specs.Causes.{Rose};
ghost use Rattle.outside.specs.Streams.{AppendsFront};
ghost use Rattle.cta_model.specs.Legal.{greatest_moment};
ghost use Rattle.wire_http.specs.Reply.{reply_text, refusal_reply};
ghost use Rattle.conn.specs.Cut.{Requests};
ghost use Rattle.conn.specs.Stands.{next_events, given_by};
ghost use Rattle.replay.specs.Seen.{sink_view};
ghost use Rattle.replay.specs.Output.{frame};
ghost use Rattle.replay.specs.RecordTurns.{AnswersEvents, IsFramed};
ghost use Rattle.replay.specs.declared.output.Unwritten.TheVariants.{Broken};

use crate::desk::Desk;
use conn::{Next, continue_text};
use cta_model::NoMemory;
use media::TapeDrive;
use outside::Sink;
use std::alloc::Global;
use wire_http::{Request, WireRefusal, refusal_reply, write_reply};

// Why not all replies were written.
#[derive(Clone, Copy, Debug, PartialEq, Eq)]
pub(crate) enum Unwritten {
    // The sink failed.
    Broken,
    // Memory was wanted.
    Wanting,
}

// The line before a reply.
fn line_before(alloc: Global, link: u32, len: usize) -> Result<String, NoMemory>
    ensures { IfOk result (λ s. string_bytes s ≡ codes "reply " ++ decimal link ++ codes " " ++ decimal len ++ codes "\n") }
{
    let line = format!(in alloc; "reply {link} {len}\n")?;
    Ok(line)
}

// The frame of a reply on a link.
#[tactic(auto, unfolding(crate::specs::Output::frame))]
fn frame_of(alloc: Global, link: u32, text: &[u8]) -> Result<Vec<u8>, NoMemory>
    ensures { IfOk result (λ v. v.items ≡ frame (record { link = link; text = text.now })) }
{
    let line = line_before(alloc, link, text.len())?;
    let mut frame = Vec::with_capacity(alloc, line.len() + text.len() + 1)?;
    frame.extend_from_slice(line.as_bytes())?;
    frame.extend_from_slice(text)?;
    frame.extend_from_slice(b"\n")?;
    Ok(frame)
}

// Writes bytes.
pub(crate) fn put<K: Sink>(out: &mut K, bytes: &[u8]) -> Result<(), Unwritten>
    ensures put { MatchResult result (λ _. Appends (K.written out.old) (K.written out.new) bytes.now)
        (λ why. (why ≡ Broken) × AppendsFront (K.written out.old) (K.written out.new) bytes.now × Rose (K.faults out.old) (K.faults out.new)) }
    ensures later { K.faults out.old ≤ K.faults out.new }
{
    match out.write_all_of(bytes) {
        Ok(()) => Ok(()),
        Err(_) => Err(Unwritten::Broken),
    }
}

// Writes the frame of a reply on a link.
fn put_reply<K: Sink>(alloc: Global, out: &mut K, link: u32, text: &[u8]) -> Result<(), Unwritten>
    ensures framed { IsFramed result (sink_view (K.written out.old) (K.faults out.old)) (sink_view (K.written out.new) (K.faults out.new))
        (record { link = link; text = text.now }) }
    ensures later { K.faults out.old ≤ K.faults out.new }
{
    match frame_of(alloc, link, text) {
        Ok(frame) => put(out, &frame),
        Err(_) => Err(Unwritten::Wanting),
    }
}

// The text of the reply to bytes that were refused.
fn refusal_text(alloc: Global, refusal: WireRefusal) -> Result<Vec<u8>, NoMemory>
    ensures { IfOk result (λ text. text.items ≡ reply_text (refusal_reply refusal)) }
{
    let reply = refusal_reply(alloc, refusal)?;
    write_reply(alloc, &reply)
}

// Writes the frame of the reply to bytes that were refused.
fn refuse<K: Sink>(
    alloc: Global,
    out: &mut K,
    link: u32,
    refusal: WireRefusal,
) -> Result<(), Unwritten>
    ensures framed { IsFramed result (sink_view (K.written out.old) (K.faults out.old)) (sink_view (K.written out.new) (K.faults out.new))
        (record { link = link; text = reply_text (refusal_reply refusal) }) }
    ensures later { K.faults out.old ≤ K.faults out.new }
{
    match refusal_text(alloc, refusal) {
        Ok(text) => put_reply(alloc, out, link, &text),
        Err(_) => Err(Unwritten::Wanting),
    }
}

// Answers a request, and writes the frame of the reply.
fn answer<K: Sink, D: TapeDrive + Drop>(
    alloc: Global,
    desk: &mut Desk<D>,
    out: &mut K,
    link: u32,
    moment: u64,
    request: Request,
) -> Result<(), Unwritten>
    requires { moment ≤ greatest_moment }
    ensures answered { AnswersEvents result desk.old.run desk.new.run link moment (Requests request ∷ [])
        (sink_view (K.written out.old) (K.faults out.old)) (sink_view (K.written out.new) (K.faults out.new)) }
    ensures ready { OnOk result (desk.new.ready ≡ desk.old.ready) }
    ensures later { K.faults out.old ≤ K.faults out.new }
{
    match desk.answer(alloc, moment, request) {
        Ok(text) => put_reply(alloc, out, link, &text),
        Err(_) => Err(Unwritten::Wanting),
    }
}

// Answers an event of a link, and writes the frame of the reply.
fn answer_event<K: Sink, D: TapeDrive + Drop>(
    alloc: Global,
    desk: &mut Desk<D>,
    out: &mut K,
    link: u32,
    moment: u64,
    event: Next,
) -> Result<(), Unwritten>
    requires { moment ≤ greatest_moment }
    ensures answered { AnswersEvents result desk.old.run desk.new.run link moment (next_events event)
        (sink_view (K.written out.old) (K.faults out.old)) (sink_view (K.written out.new) (K.faults out.new)) }
    ensures ready { OnOk result (desk.new.ready ≡ desk.old.ready) }
    ensures later { K.faults out.old ≤ K.faults out.new }
{
    match event {
        Next::Need => Ok(()),
        Next::Closed => Ok(()),
        Next::Continue => put_reply(alloc, out, link, continue_text()),
        Next::Refused(refusal) => refuse(alloc, out, link, refusal),
        Next::Request(request) => answer(alloc, desk, out, link, moment, request),
    }
}

// Answers the events of a link in order, each at this moment on what those before it left, and writes the frame of each
// reply. An event is let go once it was answered.
pub(crate) fn answer_events<K: Sink, D: TapeDrive + Drop>(
    alloc: Global,
    desk: &mut Desk<D>,
    out: &mut K,
    link: u32,
    moment: u64,
    mut events: Vec<Next>,
) -> Result<(), Unwritten>
    requires { moment ≤ greatest_moment }
    ensures answered { AnswersEvents result desk.old.run desk.new.run link moment (given_by events.items)
        (sink_view (K.written out.old) (K.faults out.old)) (sink_view (K.written out.new) (K.faults out.new)) }
    ensures ready { OnOk result (desk.new.ready ≡ desk.old.ready) }
    ensures later { K.faults out.old ≤ K.faults out.new }
{
    // The first event is then the last of the list, from which it is taken.
    events.reverse();
    'events: while let Some(event) = events.pop() {
        if let Err(why) = answer_event(alloc, desk, out, link, moment, event) {
            return Err(why);
        }
    }
    Ok(())
}
