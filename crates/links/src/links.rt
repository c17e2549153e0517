// The connections of the links.
ghost use Rattle.std.specs.Prelude.{◌≡◌, ◌≢◌, ◌<◌, ◌≤◌, ℕ, List, [], ◌∷◌, ◌++◌, IfOk, IsOk, OnOk, MatchResult, length, vec_len};
ghost use Rattle.conn.specs.Cut.{Event};

use conn::{Conn, Next};
use cta_site::NoMemory;
use std::alloc::Global;

const LINKS: u32 = 1024;

/// The connections of the links 0 to 1,023 of a script (this project's own). Contracts speak of them by `LinksStand links
/// limit fed given`: of all bytes that each link was fed, in whatever pieces and between whatever others, those events are
/// what it gave.
#[derive(Drop)]
pub struct Links {
    conns: Vec<Conn>,
    ghost count: { vec_len conns ≡ 1024 },
}

impl Links {
    ghost use Rattle.conn.specs.Stands.{HasCompletion, Settled, UnlessLast, given_by};
    ghost use Rattle.links.specs.Run.{Turn, join};
    ghost use Rattle.links.specs.Standing.{behind, LinksStand, Answers, HasRoomOn, conn_on, left_on, turn_of, StandFor, GoesOn, GoesOnJoined};

    /// The links of a script of which nothing was read. A file may have `file_limit` bytes. NoMemory leaves nothing.
    pub fn new(alloc: Global, file_limit: u64) -> Result<Links, NoMemory>
        ensures { IfOk result (λ links. LinksStand links file_limit (λ link. []) (λ link. [])) }
    {
        let mut conns = Vec::new(alloc);
        for _link in 0..LINKS {
            conns.push(Conn::new(alloc, file_limit))?;
        }
        Ok(Links { conns })
    }

    /// Makes room on a link for so many bytes more: a piece of at most that length, fed to it next, takes no memory. NoMemory
    /// makes no room. In both cases all links stand as before. Its cost is that of `Conn::reserve`, and none for the other links.
    pub fn reserve(&mut self, link: u32, more: usize) -> Result<(), NoMemory>
        requires { link < 1024 }
        ensures stands { (limit : ℕ) (fed : ℕ → List ℕ) (given : ℕ → List Event) → LinksStand self.old limit fed given
            → LinksStand self.new limit fed given }
        ensures room { OnOk result ((less : ℕ) → less ≤ more → HasRoomOn self.new link less) }
        ensures others { (other : ℕ) → other ≢ link → conn_on self.new other ≡ conn_on self.old other }
    {
        self.conns[link as usize].reserve(more)
    }

    /// Feeds a piece, of any length, to a link. Once the link gave a refusal or a closing request, the piece is dropped.
    /// NoMemory leaves all links as before; it does not come where `reserve` made room for the piece. Its cost is that of
    /// `Conn::feed`: the length of the piece, and none for the other links.
    pub fn feed(&mut self, link: u32, piece: &[u8]) -> Result<(), NoMemory>
        requires { link < 1024 }
        // The link stands for its bytes with the piece behind them, and has given what it had given.
        ensures fed { (limit : ℕ) (fed : ℕ → List ℕ) (given : ℕ → List Event) → LinksStand self.old limit fed given
            → MatchResult result (λ _. LinksStand self.new limit (behind fed link piece.now) given) (λ _. LinksStand self.new limit fed given) }
        ensures fits { HasRoomOn self.old link (length piece.now) → IsOk result }
        ensures others { (other : ℕ) → other ≢ link → conn_on self.new other ≡ conn_on self.old other }
    {
        self.conns[link as usize].feed(piece)
    }

    /// What comes next on a link. `Need` comes exactly where what is left of its bytes is unfinished and no 100 Continue is
    /// due, `Closed` exactly behind a refusal or a closing request. After NoMemory all links stand as before, and the call can
    /// be made again. Its cost is that of `Conn::next`, and none for the other links.
    pub fn next(&mut self, alloc: Global, link: u32) -> Result<Next, NoMemory>
        requires { link < 1024 }
        // The answer stands at the end of what the link had given.
        ensures answers { (limit : ℕ) (fed : ℕ → List ℕ) (given : ℕ → List Event) → LinksStand self.old limit fed given
            → Answers self.new limit link result fed given }
        ensures less { IfOk result (λ n. UnlessLast n (left_on self.new link < left_on self.old link)) }
        ensures others { (other : ℕ) → other ≢ link → conn_on self.new other ≡ conn_on self.old other }
    {
        self.conns[link as usize].next(alloc)
    }

    // All that can be given now on a link, at the end of `out`. NoMemory leaves the rest to be given: what was given stands in
    // `out`, and the call can be made again. Its cost is that of `next` for each.
    fn next_all(&mut self, alloc: Global, link: u32, out: &mut Vec<Next>) -> Result<(), NoMemory>
        requires { link < 1024 }
        ensures given { (limit : ℕ) (fed : ℕ → List ℕ) (given : ℕ → List Event) → LinksStand self.old limit fed (behind given link (given_by out.old.items))
            → LinksStand self.new limit fed (behind given link (given_by out.new.items))
            × OnOk result (Settled limit (fed link) (given link ++ given_by out.new.items)) }
        ensures others { (other : ℕ) → other ≢ link → conn_on self.new other ≡ conn_on self.old other }
    {
        'answers: loop {
            // So no event is lost where memory is wanted.
            out.reserve(1)?;
            match self.next(alloc, link) {
                Ok(Next::Need) => return Ok(()),
                Ok(Next::Closed) => return Ok(()),
                Ok(next) => if out.push(next).is_err() {
                    unreachable!()
                },
                Err(e) => return Err(e),
            }
        }
    }

    // What a link gave is the front of what a cut of all its bytes gives. It takes no memory.
    fn has_completion(&self, link: u32)
        requires { link < 1024 }
        ensures { (limit : ℕ) (fed : ℕ → List ℕ) (given : ℕ → List Event) → LinksStand self.now limit fed given
            → HasCompletion limit (fed link) (given link) }
    {
        self.conns[link as usize].has_completion();
    }

    /// Feeds a piece to a link and gives all events that it completes: 100 Continue, requests and the refusal, in their order.
    /// The bytes of a script's record are fed so, piece by piece, and at least once, be it with no bytes. NoMemory loses the
    /// events of the piece at hand, and the run stands: where `reserve` had made room for the piece, it goes on with the piece
    /// and all its events, those that are lost among them. Nothing is said of the links then.
    pub fn turn(&mut self, alloc: Global, link: u32, piece: &[u8]) -> Result<Vec<Next>, NoMemory>
        requires { link < 1024 }
        // The first piece of a record begins a turn, be its events given or lost.
        ensures first { (limit : ℕ) (turns : List Turn) (moment : ℕ) → StandFor self.old limit turns
            → MatchResult result (λ events. StandFor self.new limit (turns ++ turn_of link moment piece.now events.items ∷ []))
            (λ _. HasRoomOn self.old link (length piece.now) → GoesOn limit turns link moment piece.now) }
        // A further piece, and its events, given or lost, stand behind those of the record before it.
        ensures further { (limit : ℕ) (turns : List Turn) (begun : Turn) → begun.link ≡ link → StandFor self.old limit (turns ++ begun ∷ [])
            → MatchResult result (λ events. StandFor self.new limit (turns ++ join begun (turn_of link begun.moment piece.now events.items) ∷ []))
            (λ _. HasRoomOn self.old link (length piece.now) → GoesOnJoined limit turns begun piece.now) }
    {
        self.feed(link, piece)?;
        let mut events = Vec::new(alloc);
        if let Err(e) = self.next_all(alloc, link, &mut events) {
            self.has_completion(link);
            return Err(e);
        }
        Ok(events)
    }
}
