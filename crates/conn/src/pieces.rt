// All that a connection gives for its pieces.
ghost use Rattle.std.specs.Prelude.{◌≡◌, List, ℕ, IfOk, OnOk, flat_map};
ghost use Rattle.conn.specs.Stands.{Stands, Settled, given_by, limit_of};

use crate::connection::Conn;
use crate::next::Next;
use cta_site::NoMemory;
use std::alloc::Global;

// All that can be given now.
fn drain(alloc: Global, conn: &mut Conn, out: &mut Vec<Next>) -> Result<(), NoMemory>
    ensures settled { (fed : List ℕ) → Stands conn.old fed (given_by out.old.items)
        → OnOk result (Stands conn.new fed (given_by out.new.items) × Settled (limit_of conn.old) fed (given_by out.new.items)) }
    ensures limit { limit_of conn.new ≡ limit_of conn.old }
{
    'answers: loop {
        match conn.next(alloc) {
            Ok(Next::Need) => return Ok(()),
            Ok(Next::Closed) => return Ok(()),
            Ok(next) => out.push(next)?,
            Err(e) => return Err(e),
        }
    }
}

/// What a connection gives to which these pieces come, without the `Need` after each: exactly the events of a cut of all the
/// bytes, so it doesn't hang on how they were cut. NoMemory leaves nothing.
pub fn answers(alloc: Global, file_limit: u64, pieces: &[Vec<u8>]) -> Result<Vec<Next>, NoMemory>
    ensures { IfOk result (λ out. Settled file_limit (flat_map (λ piece. piece.items) pieces.now) (given_by out.items)) }
{
    let mut conn = Conn::new(alloc, file_limit);
    let mut out = Vec::new(alloc);
    drain(alloc, &mut conn, &mut out)?;
    for piece in pieces {
        conn.feed(piece)?;
        drain(alloc, &mut conn, &mut out)?;
    }
    Ok(out)
}
