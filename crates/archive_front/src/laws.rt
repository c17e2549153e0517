// Laws of callers' calls.
ghost use Rattle.archive_front.specs.Laws.{CallersAreFit, CallersAskNoMount, CallersGetTheirs, CallersLeave, CallersMayPlay, RepliesAreRight, NoMemoryIsTold};

use cta_model::Told;
use tape_routes::replies_carry_their_content;

/// A caller's call is fit for each pass, whatever it has seen, and asks about no mount. It gets only what a caller may get. The reply to
/// what comes back is the one that the routes say of the sequential archive's answer, on the history on which the call was played; or it
/// says that there was no memory. And what is kept behind it is what the sequential archive keeps. A law (this project's own), which does nothing when it runs.
pub fn callers_are_served<M: Told>()
    ensures fit { CallersAreFit M.told }
    ensures about { CallersAskNoMount M }
    ensures gets { CallersGetTheirs M.told }
    ensures replies { RepliesAreRight M.told }
    ensures none { NoMemoryIsTold M }
    ensures plays { CallersMayPlay M.told }
    ensures leaves { CallersLeave M.told }
{
    replies_carry_their_content();
}
