// What the bytes of a body that is being read still give.
ghost use Rattle.std.specs.Prelude.{ℕ, List};
ghost use Rattle.conn.specs.Cut.{Event};
ghost use Rattle.conn.specs.Stands.{HasCompletion, Within};

use crate::state::Collected;
use crate::walk::{BodyEnd, body_end, has_cut};

// What was given is the front of what a cut of all bytes gives, from a place in a body on. It takes no memory.
pub(crate) fn body_completion(limit: u64, body: &Collected, rest: &[u8])
    ensures { (fed : List ℕ) (given : List Event) → Within limit body.now rest.now fed given → HasCompletion limit fed given }
{
    match body_end(rest, body.place) {
        BodyEnd::Open => {}
        BodyEnd::Refused(_) => {}
        BodyEnd::Whole(used) => if !body.head.close {
            has_cut(limit, &rest[used..]);
        },
    }
}
