// What the definitions of the replies say.
ghost use Rattle.std.specs.Prelude.{◌≡◌, Bool, option_map};
ghost use Rattle.std.specs.Arc.{arc_value};
ghost use Rattle.cta_site.specs.declared.site.Site.{Site};
ghost use Rattle.cta_model.specs.declared.answers.Answer.{Answer};
ghost use Rattle.wire_http.specs.Reply.{reply_view};
ghost use Rattle.tape_routes.specs.Replies.{Content, HasContent, reply_for};
ghost use Rattle.tape_routes.specs.Answering.{answer_view};
ghost use Rattle.tape_routes.specs.Callers.{CallersAsk};

/// The reply to an answer says nothing of its content but its bytes: it is told by the answer, by these bytes and by whether
/// the link closes. A law (this project's own), which does nothing when it runs.
pub fn replies_carry_their_content()
    ensures { (site : Site) (a : Answer) (content : Content) (close : Bool) → HasContent a content
        → reply_view (reply_for site a content close) ≡ answer_view site a (option_map arc_value content) close }
{}

/// Each request asks what a caller may ask: never what only the session of a drive asks, a Put comes with its content, and no other
/// ask with any. A law (this project's own), which does nothing when it runs.
pub fn callers_ask()
    ensures { CallersAsk }
{}
