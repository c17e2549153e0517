// How requests become calls of what a hall keeps, and what is said to what comes back.
ghost use Rattle.std.specs.Prelude.{◌≡◌, ◌≤◌, Bool, IfOk, IsOk};
ghost use Rattle.wire_http.specs.declared.request.Request.{Request};
ghost use Rattle.link_loop.specs.Fronts.{routed_as, IsFree};
ghost use Rattle.link_loop.specs.declared.front.Routed.{Routed};
ghost use Rattle.link_loop.specs.declared.front.Said.{Said};
ghost use Rattle.link_loop.specs.declared.front.Said.TheVariants as said;

use cta_site::NoMemory;
use std::alloc::Global;
use turn_hall::Keeps;
use wire_http::{Reply, Request};

/// What a request comes to.
#[derive(Drop)]
pub enum Routed<C> {
    /// A call of what the hall keeps.
    Call(C),
    /// A reply that needs none.
    Reply(Reply),
}

/// What is said to what came back from a call.
#[derive(Drop)]
pub enum Said<S> {
    /// This reply.
    Reply(Reply),
    /// Nothing: the link isn't served on, for this cause.
    Stop(S),
}

/// The requests of callers, as calls of a value that a hall keeps.
pub trait Front<T: Keeps> {
    /// What is asked of the value: a call without its moment and without what is handed in.
    type Question;

    /// Why a link isn't served on.
    type Cause;

    /// What routing needs beside the front, such as a table of routes. Each thread has its own, so that nothing is asked of it that threads
    /// would ask.
    type Tools;

    // The site that it was made for.
    ghost site: { Self → T.Site };

    // What a call asks.
    ghost question: { T.Call → Self.Question };

    // What a request needs: a call that asks this, or its reply alone.
    ghost needs: { T.Site → Request → Routed Self.Question };

    // What a caller's call may get.
    ghost gets: { T.Site → T.Back → Type 0 };

    // What is said to what came back, where the request says whether the connection closes.
    ghost says: { T.Site → T.Back → Bool → Said Self.Cause };

    /// What routing needs beside the front. It takes memory.
    fn tools(&self, alloc: Global) -> Result<Self::Tools, NoMemory>;

    /// Lets tools go.
    fn put_away(tools: Self::Tools);

    /// What a request comes to at this moment, in seconds since 1970, at most the last second of the year 9999. Its call is fit for
    /// each pass, and asks about nothing that another call opened. NoMemory drops the request.
    fn route(
        &self,
        tools: &Self::Tools,
        alloc: Global,
        moment: u64,
        request: Request,
    ) -> Result<Routed<T::Call>, NoMemory>
        requires { moment ≤ 253402300799 }
        ensures routed { IfOk result (λ r. routed_as question r ≡ needs (site self.now) request) }
        ensures free { IfOk result (λ r. IsFree (T.fits (site self.now)) T.asks (T.legal (site self.now)) (T.plays (site self.now)) (gets (site self.now)) r) };

    /// What is said to what came back. That the link isn't served on is said without memory. NoMemory drops what came back.
    fn told(&self, alloc: Global, back: T::Back, close: bool) -> Result<Said<Self::Cause>, NoMemory>
        requires { gets (site self.now) back }
        ensures told { IfOk result (λ t. t ≡ says (site self.now) back close) }
        ensures stop { (why : Self.Cause) → says (site self.now) back close ≡ said.Stop why → IsOk result };

    /// Lets a cause go. A bound on the type would do for one thread, and what rests on such a bound can't go to another.
    fn let_go(cause: Self::Cause);
}
