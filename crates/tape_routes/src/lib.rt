//! The routes of the archive's front end: a whole request becomes exactly one ask or look of the archive, or a reply that needs
//! none; and each answer that a caller can get becomes exactly one reply.
#![tactic(auto)]

mod asks;
mod bodies;
mod bodiless;
mod ids;
mod laws;
mod parameters;
mod refusals;
mod replies;
mod routed;
mod router;
mod routes;
mod routing;
mod statuses;
mod well_known;

pub use laws::{callers_ask, replies_carry_their_content};
pub use replies::reply_of;
pub use routed::Routed;
pub use router::Routes;
