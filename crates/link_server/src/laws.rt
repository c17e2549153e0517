// What the replies to requests are.
ghost use Rattle.link_server.specs.Serving.{FixedRepliesAreTheRoutes, RepliesAreTheArchives};

use archive::turns_in_order;
use archive_front::callers_are_served;
use cta_model::Told;
use tape_routes::callers_ask;

/// Each reply to a request that has a call is the sequential archive's to what the request asks, on the history of its place; or 500,
/// where the call found no memory. One to a request that has none is the routes' own, which needs no archive. A law (this project's own),
/// which does nothing when it runs.
pub fn replies_are_the_archives<M: Told>()
    ensures replies { RepliesAreTheArchives M.told }
    ensures fixed { FixedRepliesAreTheRoutes M }
{
    callers_ask();
    turns_in_order::<M>();
    callers_are_served::<M>();
}
