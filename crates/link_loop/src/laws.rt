// Laws of what is served.
ghost use Rattle.link_loop.specs.Served.{AskInOrder, WholeLinksAreAsked};

use crate::front::Front;
use conn::steps_follow;
use turn_hall::Keeps;

/// The calls that are made for the events of a link ask, in their order, exactly what its requests ask. A law (this project's own),
/// which does nothing when it runs.
pub fn requests_are_asked<T: Keeps, F: Front<T>>(front: &F)
    ensures { AskInOrder T.Back F.question (F.needs (F.site front.now)) }
{}

/// A link that told all its bytes and was served to an end was asked all that they ask, and the calls that were added are these, in
/// order, each once. A law (this project's own), which does nothing when it runs.
pub fn whole_links_are_asked<T: Keeps, F: Front<T>>(front: &F)
    ensures { WholeLinksAreAsked T.Site F.question (F.needs (F.site front.now)) (F.says (F.site front.now)) (T.legal (F.site front.now)) (T.plays (F.site front.now)) }
{
    steps_follow();
}
