// Links that are served over a hall, by one thread and by two. It is written for every medium and every value, front and link: that a
// pass may cross threads is found where the value is a type parameter, and not where it is a type with as many fields as an archive.
ghost use Rattle.std.specs.Prelude.{◌≡◌, ◌+◌, IfOk};
ghost use Rattle.archive.specs.States.{AreFirstMedia};
ghost use Rattle.turn_hall.specs.Handles.{IsPassOf, first_of, seats_in};

use crate::archives::archive_of;
use cta_model::Told;
use cta_site::ValidSite;
use link_loop::{Front, LinkEnd, Unserved, serve};
use link_server::{LinkFault, serve_link};
use outside::{Link, ListClock};
use std::alloc::Global;
use std::hash::RandomState;
use std::sync::Wait;
use std::thread::{Threads, join};
use turn_hall::{Hall, Keeps, Pass};

// How a link ends that is served over a hall of a new archive, at moment 100.
pub(crate) fn served_alone<R: Wait, M: Told + Drop, L: Link>(
    rt: &R,
    alloc: Global,
    keys: RandomState,
    site: &ValidSite,
    media: Vec<M>,
    link: &mut L,
) -> Option<Result<LinkEnd, LinkFault>>
    requires { AreFirstMedia M.told site.now media.items }
{
    let archive = archive_of(alloc, keys, site, media)?;
    match Hall::new(alloc, archive, 1) {
        Ok((hall, mut pass)) => {
            let mut clock = ListClock::new(&[100]);
            let end = serve_link(rt, alloc, &hall, &mut pass, site, link, &mut clock);
            hall.close(pass).let_go();
            Some(end)
        }
        Err((_, archive)) => {
            archive.let_go();
            None
        }
    }
}

// A hall over a value, with two passes. Want of memory gives the value back.
fn two_passes<T: Keeps>(alloc: Global, value: T) -> Result<(Hall<T>, Pass<T>, Pass<T>), T>
    ensures hall { IfOk result (λ r. first_of r.0 ≡ value) }
    ensures passes { IfOk result (λ r. IsPassOf T.site r.0 r.1 × IsPassOf T.site r.0 r.2 × (r.1.seats + r.2.seats ≡ seats_in r.0)) }
{
    match Hall::new(alloc, value, 2) {
        Ok((hall, mut first)) => {
            let Some(second) = hall.split(&mut first) else {
                unreachable!()
            };
            Ok((hall, first, second))
        }
        Err((_, value)) => Err(value),
    }
}

// Whether a link was served to its end.
fn is_ended<T: Keeps, F: Front<T>>(end: Result<LinkEnd, Unserved<F::Cause>>) -> bool {
    match end {
        Ok(end) => end == LinkEnd::Ended,
        Err(Unserved::Stopped(cause)) => {
            F::let_go(cause);
            false
        }
        Err(_) => false,
    }
}

// Serves a link at moment 100: the pass and the link, and whether it was served to its end.
fn served<R: Wait, T: Keeps, F: Front<T>, L: Link>(
    rt: &R,
    alloc: Global,
    hall: &Hall<T>,
    pass: Pass<T>,
    front: &F,
    file_limit: u64,
    link: L,
) -> (Pass<T>, L, bool)
    requires here { IsPassOf T.site hall.now pass }
    requires site { F.site front.now ≡ T.site (first_of hall.now) }
    ensures here { IsPassOf T.site hall.now result.0 }
    ensures seats { result.0.seats ≡ pass.seats }
{
    let mut pass = pass;
    let mut link = link;
    let Ok(tools) = front.tools(alloc) else {
        return (pass, link, false);
    };
    let mut clock = ListClock::new(&[100]);
    let end = serve(
        rt, alloc, hall, &mut pass, front, &tools, file_limit, &mut link, &mut clock,
    );
    F::put_away(tools);
    (pass, link, is_ended::<T, F>(end))
}

// Serves two links by two threads: the pass of both, and the links, each with whether it was served to its end.
fn both_served<
    R: Threads + Wait + Sync,
    T: Keeps + Send,
    F: Front<T> + Sync,
    L: Link + Send + Drop,
>(
    rt: &R,
    alloc: Global,
    hall: &Hall<T>,
    first: Pass<T>,
    second: Pass<T>,
    front: &F,
    file_limit: u64,
    a: L,
    b: L,
) -> (Pass<T>, (L, bool), (L, bool))
    requires here { IsPassOf T.site hall.now first × IsPassOf T.site hall.now second }
    requires site { F.site front.now ≡ T.site (first_of hall.now) }
    ensures here { IsPassOf T.site hall.now result.0 }
    ensures seats { result.0.seats ≡ first.seats + second.seats }
{
    let ((mut all, a, a_ended), (other, b, b_ended)) = join(
        rt,
        || served(rt, alloc, hall, first, front, file_limit, a),
        || served(rt, alloc, hall, second, front, file_limit, b),
    );
    hall.join(&mut all, other);
    (all, (a, a_ended), (b, b_ended))
}

// Serves two links by two threads over a hall of a value: the value behind them, and the links, each with whether it was served to its
// end. Want of memory gives the value back.
pub(crate) fn over_one_hall<
    R: Threads + Wait + Sync,
    T: Keeps + Send,
    F: Front<T> + Sync,
    L: Link + Send + Drop,
>(
    rt: &R,
    alloc: Global,
    value: T,
    front: &F,
    file_limit: u64,
    a: L,
    b: L,
) -> Result<(T, (L, bool), (L, bool)), T>
    requires { F.site front.now ≡ T.site value }
{
    match two_passes(alloc, value) {
        Ok((hall, first, second)) => {
            let (all, a, b) = both_served(rt, alloc, &hall, first, second, front, file_limit, a, b);
            Ok((hall.close(all), a, b))
        }
        Err(value) => Err(value),
    }
}
