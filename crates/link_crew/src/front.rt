// What callers ask, apart from what others at the hall ask.
ghost use Rattle.std.specs.Prelude.{◌≡◌, Bool, true};
ghost use Rattle.wire_http.specs.declared.request.Request.{Request};
ghost use Rattle.link_loop.specs.declared.front.Routed.TheVariants as routed;

use link_loop::Front;
use turn_hall::Keeps;

/// A front that tells what callers ask from what others ask, such as the sessions of drives.
pub trait Callers<T: Keeps>: Front<T> {
    // Whether this is what a caller asks.
    ghost is_callers: { Self.Question → Bool };

    /// That each request asks what a caller asks: a law, which does nothing when it runs.
    fn callers_ask(&self)
        ensures { (request : Request) (k : Self.Question) → Self.needs (Self.site self.now) request ≡ routed.Call k → is_callers k ≡ true };
}
