// What a connection keeps behind an answer.
ghost use Rattle.std.specs.Prelude.{◌≡◌, ◌≤◌, ℕ, List, length};
ghost use Rattle.conn.specs.Cut.{Event};
ghost use Rattle.conn.specs.Held.{HoldsWith, IsOver, LeavesWith, held, unread};
ghost use Rattle.conn.specs.Stands.{Gives};
ghost use Rattle.conn.specs.Waiting.{RestsWith};

use crate::buffer::Buffer;
use crate::next::Next;
use crate::state::State;

// Lets go of the bytes that aren't needed behind that answer: of those that were read, and of all once nothing is read any more.
pub(crate) fn let_go(buffer: &mut Buffer, state: &State, next: &Next)
    requires { LeavesWith next.now (unread buffer.old) state.now }
    ensures gives { (limit : ℕ) (fed : List ℕ) (given : List Event) → Gives limit next.now state.now (unread buffer.old) fed given
        → Gives limit next.now state.now (unread buffer.new) fed given }
    ensures rests { (limit : ℕ) → RestsWith next.now limit state.now (unread buffer.old) → RestsWith next.now limit state.now (unread buffer.new) }
    ensures less { length (unread buffer.new) ≤ length (unread buffer.old) }
    ensures holds { HoldsWith next.now buffer.new }
    ensures fewer { held buffer.new ≤ held buffer.old }
    ensures over { IsOver state.now → held buffer.new ≡ 0 }
{
    if state.is_over() {
        buffer.let_go();
    } else if matches!(next, Next::Need) {
        buffer.drop_read();
    }
}
