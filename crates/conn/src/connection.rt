// One connection: its bytes come in any pieces, and its requests go out.
ghost use Rattle.std.specs.Prelude.{◌≡◌, Ok, ◌≤◌, ◌<◌, ◌+◌, ◌*◌, ◌++◌, [], IfOk, IsOk, OnOk, ℕ, List, length, min, ◌^◌, ◌-◌, MatchResult};
ghost use Rattle.conn.specs.Cut.{Event};
ghost use Rattle.conn.specs.Held.{IsOver, held};

use crate::advance::advance;
use crate::buffer::Buffer;
use crate::completion::body_completion;
use crate::keeping::let_go;
use crate::next::Next;
use crate::state::{Advance, State};
use crate::walk::has_cut;
use cta_site::NoMemory;
use std::alloc::Global;

/// The bytes of one connection, read as requests (RFC 9112). Contracts speak of it by `Stands conn fed given`: of all
/// bytes that it was fed, in whatever pieces, those events are what was given out. After a call of `close` it stands
/// for nothing any more.
///
/// Behind `feed` and `reserve` it holds the bytes that were not read, and at most as many that were; `next` adds none. Once `next` has
/// answered `Need` it holds the unfinished head, chunk line or trailer alone, which is at most 16,384 bytes: the bytes of a body go into
/// its content as they come. One that gave a refusal or a closing request, or was closed, holds none. The memory for bytes that come grows with the most that it held or made
/// room for, and is not made smaller while the connection goes on; it is given back with the event that ends it.
#[derive(Drop)]
pub struct Conn {
    limit: u64,
    buffer: Buffer,
    state: State,
    ghost over: { IsOver state → held buffer ≡ 0 },
}

impl Conn {
    ghost use Rattle.conn.specs.Stands.{Stands, GivesNext, HasCompletion, HasRoom, Holds, IsShut, UnlessLast, buffered, capacity, left, limit_of, rest_of};
    ghost use Rattle.conn.specs.Waiting.{WaitsWith, held_by};
    ghost use Rattle.conn.specs.declared.next.Next.TheVariants as Next;

    /// A connection that was fed nothing. A file may have `file_limit` bytes. It takes no memory.
    pub fn new(alloc: Global, file_limit: u64) -> Conn
        ensures stands { Stands result [] [] }
        ensures limit { limit_of result ≡ file_limit }
    {
        Conn {
            limit: file_limit,
            buffer: Buffer::new(alloc),
            state: State::AtHead,
        }
    }

    /// Makes room for so many bytes more: a piece of at most that length, fed next, takes no memory. NoMemory makes no room.
    /// In both cases the connection stands for the same bytes and gave the same. One that is over takes memory too, until `next` is
    /// called. Its cost is part of that of `feed`: over all calls of both, one move of each byte and the growing of the memory.
    pub fn reserve(&mut self, more: usize) -> Result<(), NoMemory>
        ensures stands { (fed : List ℕ) (given : List Event) → Stands self.old fed given → Stands self.new fed given }
        ensures room { OnOk result (HasRoom self.new more) }
        ensures rest { rest_of self.new ≡ rest_of self.old }
        ensures holds { buffered self.new ≤ 2 * length (rest_of self.new) }
        ensures shut { IsShut self.old → IsShut self.new }
        ensures limit { limit_of self.new ≡ limit_of self.old }
    {
        self.buffer.reserve(more)
    }

    /// Takes the next piece, of any length. NoMemory leaves the connection as before; it does not come where `reserve` made
    /// room for the piece. Once a refusal or a closing request was given, or `close` was called, the piece is dropped. Its cost
    /// is the length of the piece, and over all pieces together one move of each byte and the growing of the memory.
    pub fn feed(&mut self, piece: &[u8]) -> Result<(), NoMemory>
        ensures fed { (fed : List ℕ) (given : List Event) → Stands self.old fed given
            → MatchResult result (λ _. Stands self.new (fed ++ piece.now) given) (λ _. Stands self.new fed given) }
        ensures fits { HasRoom self.old (length piece.now) → IsOk result }
        ensures holds { buffered self.new ≤ 2 * (length (rest_of self.old) + length piece.now) }
        ensures over { IsOver self.old.state → (buffered self.new ≡ 0) × IsOver self.new.state }
        ensures shut { IsShut self.old → IsShut self.new }
        ensures limit { limit_of self.new ≡ limit_of self.old }
    {
        if self.state.is_over() {
            return Ok(());
        }
        self.buffer.append(piece)
    }

    /// What comes next. `Need` comes exactly where what is left of the bytes is unfinished and no 100 Continue is due. After
    /// NoMemory the connection stands for the same bytes and gave the same, and the call can be made again. With `Need` the connection
    /// holds the unfinished bytes alone, at most 16,384; with a closing request, a refusal and `Closed` it holds none, and no memory for
    /// one. Each byte of a body is looked at a fixed number of times; a head, a chunk line or a trailer that isn't whole is read again
    /// at the next call, and moved once, when `Need` comes.
    pub fn next(&mut self, alloc: Global) -> Result<Next, NoMemory>
        ensures answers { (fed : List ℕ) (given : List Event) → Stands self.old fed given
            → GivesNext self.new result fed given }
        ensures shut { IsShut self.old → (result ≡ Ok Next.Closed) × IsShut self.new }
        ensures less { IfOk result (λ n. UnlessLast n (left self.new < left self.old)) }
        ensures holds { IfOk result (λ n. Holds n self.new) }
        ensures waits { (fed : List ℕ) (given : List Event) → Stands self.old fed given → IfOk result (λ n. WaitsWith n self.new fed given) }
        ensures fewer { buffered self.new ≤ buffered self.old }
        ensures limit { limit_of self.new ≡ limit_of self.old }
    {
        'steps: loop {
            match advance(alloc, self.limit, self.buffer.unread(), &mut self.state) {
                Ok(Advance::Moved(used)) => self.buffer.pass(used),
                Ok(Advance::Gives(used, next)) => {
                    self.buffer.pass(used);
                    let_go(&mut self.buffer, &self.state, &next);
                    return Ok(next);
                }
                Err(e) => return Err(e),
            }
        }
    }

    /// What was given is the front of what a cut of all bytes gives that were fed: the further events are found by walking over
    /// the bytes that were not read. It takes no memory, and time in proportion to those bytes.
    pub fn has_completion(&self)
        ensures { (fed : List ℕ) (given : List Event) → Stands self.now fed given → HasCompletion (limit_of self.now) fed given }
    {
        let rest = self.buffer.unread();
        match &self.state {
            State::AtHead => has_cut(self.limit, rest),
            State::InBody(body) => body_completion(self.limit, body, rest),
            State::Over => {}
            State::Shut => {}
        }
    }

    /// How many bytes of an unfinished request it holds: all those of a head that isn't whole; behind the head, those of the body, and what
    /// has come of a chunk line, of a chunk's end or of a trailer. Bytes that `next` hasn't looked at yet count too, so it says no more than
    /// that where `next` answered `Need` last: it is then at most 32,768 more than the longest body. 0 once a refusal or a closing request was
    /// given, or `close` was called. It takes no memory, and constant time.
    pub fn held(&self) -> u64
        ensures { result ≡ min (held_by self.now) (2 ^ 64 - 1) }
    {
        let unread = self.buffer.unread().len() as u64;
        match &self.state {
            State::AtHead => unread,
            State::InBody(body) => body.maker.len().saturating_add(unread),
            State::Over | State::Shut => 0,
        }
    }

    /// Closes the connection from here: nothing comes any more, also of what was fed before. Its bytes and their memory are let go.
    pub fn close(&mut self)
        ensures shut { IsShut self.new }
        ensures holds { (buffered self.new ≡ 0) × (capacity self.new ≡ 0) }
        ensures limit { limit_of self.new ≡ limit_of self.old }
    {
        self.buffer.let_go();
        self.state = State::Shut;
    }
}
