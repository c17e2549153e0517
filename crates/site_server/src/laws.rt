// What sessions ask, beside what callers ask.
ghost use Rattle.site_server.specs.Serving.{SessionsAskApart};

use cta_model::Told;

/// What the session of a drive asks is nothing that a caller asks. A law (this project's own), which does nothing when it runs.
#[tactic(auto, using(crate::proofs::Sessions::apart))]
pub fn sessions_ask_apart<M: Told>()
    ensures { SessionsAskApart M }
{}
