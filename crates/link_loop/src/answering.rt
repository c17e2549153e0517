// The events of a link, answered.
ghost use Rattle.std.specs.Prelude.{◌≡◌, true, ◌<◌, MatchResult, [], ◌∷◌, ◌++◌, ℕ, length};
ghost use mathlib.Core.List.{IsPrefix};
ghost use Rattle.conn.specs.Stands.{next_events, limit_of};
ghost use Rattle.conn.specs.Cut.{Requests};
ghost use Rattle.turn_hall.specs.Handles.{IsPassOf, view, first_of};
ghost use Rattle.turn_hall.specs.declared.view.Made.{Made};
ghost use Rattle.turn_hall.specs.declared.view.View.{View};
ghost use Rattle.wire_http.specs.declared.request.Request.{Request};
ghost use Rattle.link_loop.specs.declared.front.Routed.TheVariants as routed;
ghost use Rattle.link_loop.specs.Fronts.{IsFreeCall};
ghost use Rattle.link_loop.specs.Exchanges.{WasPlayed, SaysSo};
ghost use Rattle.link_loop.specs.Served.{Handled, Session, Paused, Broken, IsFirmEnd, LinkView, link_view, why_not};

use crate::front::{Front, Routed, Said};
use crate::sending::{Unserved, send, send_refusal, send_reply, send_said};
use conn::{Conn, Next, continue_text};
use cta_site::NoMemory;
use outside::{Clock, Link};
use std::alloc::Global;
use std::sync::Wait;
use turn_hall::{Hall, Keeps, Pass};
use wire_http::Request;

/// Why no further event comes now.
#[derive(Clone, Copy, Debug, PartialEq, Eq)]
pub enum Pause {
    /// More bytes are needed.
    Waits,
    /// Nothing comes any more.
    Over,
}

// Makes a call in a turn of its own: what is said to what comes back.
fn call_told<T: Keeps, F: Front<T>, R: Wait>(
    rt: &R,
    alloc: Global,
    hall: &Hall<T>,
    pass: &mut Pass<T>,
    front: &F,
    call: T::Call,
    close: bool,
) -> Result<Said<F::Cause>, NoMemory>
    requires here { IsPassOf T.site hall.now pass.old }
    requires site { F.site front.now ≡ T.site (first_of hall.now) }
    requires free { IsFreeCall (T.fits (F.site front.now)) T.asks (T.legal (F.site front.now)) (T.plays (F.site front.now)) (F.gets (F.site front.now)) call }
    ensures here { IsPassOf T.site hall.now pass.new }
    ensures seats { pass.new.seats ≡ pass.old.seats }
    ensures seen { IsPrefix (view pass.old).seen (view pass.new).seen }
    ensures made { (m : Made T.Call T.Back) × (m.call ≡ call) × ((view pass.new).mine ≡ (view pass.old).mine ++ m ∷ []) × WasPlayed (T.legal (F.site front.now)) (T.plays (F.site front.now)) (view pass.old).seen (view pass.new).seen m
        × SaysSo (F.says (F.site front.now) m.back close) result }
{
    let back = hall.turn(rt, pass, call);
    front.told(alloc, back, close)
}

// Makes a call in a turn of its own, and sends what is said to what comes back.
fn answer_call<T: Keeps, F: Front<T>, L: Link, R: Wait>(
    rt: &R,
    alloc: Global,
    hall: &Hall<T>,
    pass: &mut Pass<T>,
    front: &F,
    link: &mut L,
    call: T::Call,
    close: bool,
    buffer: &mut [u8],
) -> Result<(), Unserved<F::Cause>>
    requires here { IsPassOf T.site hall.now pass.old }
    requires site { F.site front.now ≡ T.site (first_of hall.now) }
    requires buffer { 0 < length buffer.old }
    requires free { IsFreeCall (T.fits (F.site front.now)) T.asks (T.legal (F.site front.now)) (T.plays (F.site front.now)) (F.gets (F.site front.now)) call }
    ensures here { IsPassOf T.site hall.now pass.new }
    ensures seats { pass.new.seats ≡ pass.old.seats }
    ensures handled { (request : Request) → request.close ≡ close → F.needs (F.site front.now) request ≡ routed.Call (F.question call)
        → Handled F.question (F.needs (F.site front.now)) (F.says (F.site front.now)) (T.legal (F.site front.now)) (T.plays (F.site front.now)) (why_not result) (Requests request ∷ []) (view pass.old) (view pass.new)
        (link_view (L.left link.old) (L.written link.old) (L.read_faults link.old) (L.write_faults link.old)) (link_view (L.left link.new) (L.written link.new) (L.read_faults link.new) (L.write_faults link.new)) }
    ensures other { (L.left link.new ≡ L.left link.old) × (L.read_faults link.new ≡ L.read_faults link.old) }
    ensures firm { (L.firm link.new ≡ L.firm link.old) × (L.firm link.old ≡ true → IsFirmEnd result) }
{
    match call_told(rt, alloc, hall, pass, front, call, close) {
        Ok(said) => send_said(alloc, link, said, buffer),
        Err(_) => Err(Unserved::NoMemory),
    }
}

// Answers a request.
fn answer_request<T: Keeps, F: Front<T>, L: Link, C: Clock, R: Wait>(
    rt: &R,
    alloc: Global,
    hall: &Hall<T>,
    pass: &mut Pass<T>,
    front: &F,
    tools: &F::Tools,
    link: &mut L,
    clock: &mut C,
    request: Request,
    buffer: &mut [u8],
) -> Result<(), Unserved<F::Cause>>
    requires here { IsPassOf T.site hall.now pass.old }
    requires site { F.site front.now ≡ T.site (first_of hall.now) }
    requires buffer { 0 < length buffer.old }
    ensures here { IsPassOf T.site hall.now pass.new }
    ensures seats { pass.new.seats ≡ pass.old.seats }
    ensures handled { Handled F.question (F.needs (F.site front.now)) (F.says (F.site front.now)) (T.legal (F.site front.now)) (T.plays (F.site front.now)) (why_not result) (Requests request ∷ []) (view pass.old) (view pass.new)
        (link_view (L.left link.old) (L.written link.old) (L.read_faults link.old) (L.write_faults link.old)) (link_view (L.left link.new) (L.written link.new) (L.read_faults link.new) (L.write_faults link.new)) }
    ensures other { (L.left link.new ≡ L.left link.old) × (L.read_faults link.new ≡ L.read_faults link.old) }
    ensures firm { (L.firm link.new ≡ L.firm link.old) × (L.firm link.old ≡ true → IsFirmEnd result) }
{
    let close = request.close;
    let moment = clock.now();
    let routed = match front.route(tools, alloc, moment, request) {
        Ok(routed) => routed,
        Err(_) => return Err(Unserved::NoMemory),
    };
    match routed {
        Routed::Reply(reply) => send_reply(alloc, link, &reply, buffer),
        Routed::Call(call) => answer_call(rt, alloc, hall, pass, front, link, call, close, buffer),
    }
}

// Answers an event.
fn answer<T: Keeps, F: Front<T>, L: Link, C: Clock, R: Wait>(
    rt: &R,
    alloc: Global,
    hall: &Hall<T>,
    pass: &mut Pass<T>,
    front: &F,
    tools: &F::Tools,
    link: &mut L,
    clock: &mut C,
    event: Next,
    buffer: &mut [u8],
) -> Result<(), Unserved<F::Cause>>
    requires here { IsPassOf T.site hall.now pass.old }
    requires site { F.site front.now ≡ T.site (first_of hall.now) }
    requires buffer { 0 < length buffer.old }
    ensures here { IsPassOf T.site hall.now pass.new }
    ensures seats { pass.new.seats ≡ pass.old.seats }
    ensures handled { Handled F.question (F.needs (F.site front.now)) (F.says (F.site front.now)) (T.legal (F.site front.now)) (T.plays (F.site front.now)) (why_not result) (next_events event) (view pass.old) (view pass.new)
        (link_view (L.left link.old) (L.written link.old) (L.read_faults link.old) (L.write_faults link.old)) (link_view (L.left link.new) (L.written link.new) (L.read_faults link.new) (L.write_faults link.new)) }
    ensures other { (L.left link.new ≡ L.left link.old) × (L.read_faults link.new ≡ L.read_faults link.old) }
    ensures firm { (L.firm link.new ≡ L.firm link.old) × (L.firm link.old ≡ true → IsFirmEnd result) }
{
    match event {
        Next::Need => Ok(()),
        Next::Closed => Ok(()),
        Next::Continue => send(link, continue_text()),
        Next::Refused(refusal) => send_refusal(alloc, link, refusal, buffer),
        Next::Request(request) => answer_request(
            rt, alloc, hall, pass, front, tools, link, clock, request, buffer,
        ),
    }
}

// Answers all that the bytes give that came so far.
pub(crate) fn answer_all<T: Keeps, F: Front<T>, L: Link, C: Clock, R: Wait>(
    rt: &R,
    alloc: Global,
    hall: &Hall<T>,
    pass: &mut Pass<T>,
    front: &F,
    tools: &F::Tools,
    link: &mut L,
    clock: &mut C,
    conn: &mut Conn,
    buffer: &mut [u8],
) -> Result<Pause, Unserved<F::Cause>>
    requires here { IsPassOf T.site hall.now pass.old }
    requires site { F.site front.now ≡ T.site (first_of hall.now) }
    requires buffer { 0 < length buffer.old }
    ensures here { IsPassOf T.site hall.now pass.new }
    ensures seats { pass.new.seats ≡ pass.old.seats }
    ensures answered { (taken : ℕ) (v : View T.Site T.Entry T.Call T.Back) (a : LinkView)
        → Session F.question (F.needs (F.site front.now)) (F.says (F.site front.now)) (T.legal (F.site front.now)) (T.plays (F.site front.now)) conn.old taken v (view pass.old) a (link_view (L.left link.old) (L.written link.old) (L.read_faults link.old) (L.write_faults link.old))
        → MatchResult result
        (λ pause. Paused F.question (F.needs (F.site front.now)) (F.says (F.site front.now)) (T.legal (F.site front.now)) (T.plays (F.site front.now)) pause conn.new taken v (view pass.new) a (link_view (L.left link.new) (L.written link.new) (L.read_faults link.new) (L.write_faults link.new)))
        (λ why. Broken F.question (F.needs (F.site front.now)) (F.says (F.site front.now)) (T.legal (F.site front.now)) (T.plays (F.site front.now)) why (limit_of conn.old) taken v (view pass.new) a (link_view (L.left link.new) (L.written link.new) (L.read_faults link.new) (L.write_faults link.new))) }
    ensures limit { limit_of conn.new ≡ limit_of conn.old }
    ensures reads { L.read_faults link.new ≡ L.read_faults link.old }
    ensures firm { (L.firm link.new ≡ L.firm link.old) × (L.firm link.old ≡ true → IsFirmEnd result) }
{
    'events: loop {
        match conn.next(alloc) {
            Ok(Next::Need) => return Ok(Pause::Waits),
            Ok(Next::Closed) => return Ok(Pause::Over),
            Ok(event) => if let Err(why) = answer(
                rt, alloc, hall, pass, front, tools, link, clock, event, buffer,
            ) {
                conn.has_completion();
                return Err(why);
            },
            Err(_) => {
                conn.has_completion();
                return Err(Unserved::NoMemory);
            }
        }
    }
}
