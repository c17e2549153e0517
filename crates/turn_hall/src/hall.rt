// Halls and passes.
ghost use Rattle.std.specs.Prelude.{◌≡◌, ◌+◌, ◌<◌, ◌≤◌, ◌-◌, ◌/◌, [], Some, IfOk, IfErr, IfSome, IfNone};
ghost use mathlib.Core.List.{IsPrefix};
ghost use Rattle.turn_hall.specs.Lists.{longer, shorter};
ghost use Rattle.turn_hall.specs.Calls.{merged};
ghost use Rattle.turn_hall.specs.Handles.{first_of, seats_in, view, IsPassOf};
ghost use Rattle.turn_hall.specs.Views.{fresh, waited, keeping, told_of, joined};
ghost use Rattle.turn_hall.specs.Promises.{Turned, Accounted, Opened};
ghost use Rattle.turn_hall.specs.Told.{IsAtRest};

use crate::keeps::Keeps;
use crate::no_memory::NoMemory;
use crate::room::{Hall, Holder, Pass, Place, Room};
use crate::steps::{Both, Halve};
use crate::view::{About, InSlot};
use atomic_table::{Refused, Table};
use std::alloc::{AllocFailed, Global};
use std::snapshot::Snapshot;
use std::sync::{Mutex, Wait};

impl<T: Keeps> Pass<T> {
    /// The number of seats that the pass holds, from 1. It takes no memory and constant time.
    pub fn seats(&self) -> u32
        ensures { result ≡ self.now.seats }
    {
        self.seats
    }
}

impl<T: Keeps> Hall<T> {
    /// A hall that keeps this value, and the one pass that holds all of its seats, which has seen the value's history and has
    /// made no call. `seats` is the greatest number of passes that stand at one time, from 1. An error gives the value back.
    pub fn new(alloc: Global, value: T, seats: u32) -> Result<(Hall<T>, Pass<T>), (NoMemory, T)>
        requires { 0 < seats }
        ensures hall { IfOk result (λ r. (first_of r.0 ≡ value) × (seats_in r.0 ≡ seats)) }
        ensures pass { IfOk result (λ r. IsPassOf T.site r.0 r.1 × (r.1.seats ≡ seats) × (view r.1 ≡ fresh (Some (T.site value)) seats (T.history value))) }
        ensures legal { IfOk result (λ r. T.legal (T.site value) (view r.1).seen) }
        ensures back { IfErr result (λ r. r.1 ≡ value) }
    {
        value.keeps_history();
        T::keeps_laws();
        let about = About {
            seats: u64::from(seats),
            first: Snapshot::of(&value),
        };
        let mut slots = Vec::new(alloc);
        if let Err(failed) = slots.push(Some(InSlot { value, last: None })) {
            let AllocFailed { value: slot } = failed;
            slots.destroy_empty();
            let Some(kept) = slot else { unreachable!() };
            let InSlot { value, last: _ } = kept;
            return Err((NoMemory, value));
        }
        match Table::new(alloc, &[0, 0], slots, &about) {
            Ok((table, seat)) => {
                let entry = Mutex::new(());
                Ok((Room { table, entry }, Holder { seat, seats }))
            }
            Err(refused) => {
                let Refused { mut slots } = refused;
                let Some(slot) = slots.pop() else {
                    unreachable!()
                };
                slots.destroy_empty();
                let Some(kept) = slot else { unreachable!() };
                let InSlot { value, last: _ } = kept;
                Err((NoMemory, value))
            }
        }
    }

    /// Waits for its turn, plays the call once on the value, and passes the turn on. The call is the one call that is added to the
    /// pass's own. It takes no memory but what the call takes. A ticket of 2^62 or more is never drawn.
    pub fn turn<R: Wait>(&self, rt: &R, pass: &mut Pass<T>, call: T::Call) -> T::Back
        requires here { IsPassOf T.site self.now pass.old }
        requires fits { T.fits (T.site (first_of self.now)) (view pass.old).seen call }
        requires asked { Opened T.topic T.adds (T.asks call) (view pass.old) }
        ensures here { IsPassOf T.site self.now pass.new }
        ensures seats { pass.new.seats ≡ pass.old.seats }
        ensures turn { Turned (T.legal (T.site (first_of self.now))) (T.plays (T.site (first_of self.now))) T.topic T.adds (view pass.old) call result (view pass.new) }
    {
        self.take_turn(rt, &mut pass.seat, call)
    }

    /// How many turns have ended: at least as many as the pass knew of, and the pass then knows it. It waits for nobody, and takes
    /// no memory and constant time.
    pub fn passed(&self, pass: &mut Pass<T>) -> u64
        requires here { IsPassOf T.site self.now pass.old }
        ensures here { IsPassOf T.site self.now pass.new }
        ensures seats { pass.new.seats ≡ pass.old.seats }
        ensures later { (view pass.old).turns ≤ result }
        ensures known { view pass.new ≡ waited (view pass.old) result }
        ensures legal { T.legal (T.site (first_of self.now)) (view pass.new).seen }
    {
        self.glance(&mut pass.seat)
    }

    /// A new pass, which has seen what the old one has and has made no call. It gets one half, rounded down, of the old one's seats.
    /// `None` comes exactly where the old pass holds one seat; nothing changes then. It takes no memory and constant time.
    pub fn split(&self, pass: &mut Pass<T>) -> Option<Pass<T>>
        requires here { IsPassOf T.site self.now pass.old }
        ensures here { IsPassOf T.site self.now pass.new }
        ensures some { IfSome result (λ p. IsPassOf T.site self.now p × (1 < pass.old.seats) × (p.seats ≡ pass.old.seats / 2) × (pass.new.seats ≡ pass.old.seats - pass.old.seats / 2)) }
        ensures views { IfSome result (λ p. (view p ≡ told_of (view pass.old) p.seats) × (view pass.new ≡ keeping (view pass.old) pass.new.seats)) }
        ensures none { IfNone result ((pass.old.seats ≡ 1) × (pass.new.seats ≡ 1) × (view pass.new ≡ view pass.old)) }
    {
        if pass.seats == 1 {
            return None;
        }
        let half = pass.seats / 2;
        let seat = self.table.shared.split_seat::<Halve>(&mut pass.seat);
        pass.seats -= half;
        Some(Holder { seat, seats: half })
    }

    // Puts the view of one seat to that of another.
    fn merge(&self, seat: &mut Place<T>, other: Place<T>)
        requires here { (seat.old.table_id ≡ self.now.table.shared.table_id) × (other.table_id ≡ self.now.table.shared.table_id) }
        requires rest { IsAtRest seat.old.me × IsAtRest other.me }
        ensures same { (seat.new.table_id ≡ seat.old.table_id) × (seat.new.id ≡ seat.old.id) }
        ensures joined { seat.new.me ≡ (joined seat.old.me.0 other.me.0, []) }
    {
        self.table.shared.join_seat::<Both>(seat, other);
    }

    /// Puts another pass to this one, which then holds the seats and the calls of both, and has seen the longer of the two histories
    /// that they had seen, of which the shorter is a beginning. It takes no memory and constant time.
    pub fn join(&self, pass: &mut Pass<T>, other: Pass<T>)
        requires here { IsPassOf T.site self.now pass.old × IsPassOf T.site self.now other }
        ensures here { IsPassOf T.site self.now pass.new }
        ensures seats { pass.new.seats ≡ pass.old.seats + other.seats }
        ensures turns { ((view pass.old).turns ≤ (view pass.new).turns) × ((view other).turns ≤ (view pass.new).turns) }
        ensures calls { (view pass.new).mine ≡ merged (view pass.old).mine (view other).mine }
        ensures seen { (view pass.new).seen ≡ longer (view pass.old).seen (view other).seen }
        ensures begins { IsPrefix (view pass.old).seen (view pass.new).seen × IsPrefix (view other).seen (view pass.new).seen }
        ensures one { IsPrefix (shorter (view pass.old).seen (view other).seen) (longer (view pass.old).seen (view other).seen) }
        ensures legal { T.legal (T.site (first_of self.now)) (view pass.new).seen }
    {
        let Holder { seat, seats } = other;
        self.merge(&mut pass.seat, seat);
        let _ended = self.glance(&mut pass.seat);
        pass.seats += seats;
    }

    /// The value that the hall kept, once its pass holds all seats. Its history is the one that the pass has seen, and all calls of
    /// all passes are among the pass's. It takes no memory.
    pub fn close(self, pass: Pass<T>) -> T
        requires here { IsPassOf T.site self pass }
        requires all { pass.seats ≡ seats_in self }
        ensures history { T.history result ≡ (view pass).seen }
        ensures site { T.site result ≡ T.site (first_of self) }
        ensures legal { T.legal (T.site (first_of self)) (T.history result) }
        ensures calls { Accounted (T.plays (T.site (first_of self))) T.adds (T.history (first_of self)) (view pass) }
    {
        let Room { table, entry: _ } = self;
        let Holder { seat, seats: _ } = pass;
        let mut closed = table.close_with(seat);
        let slot = closed.take(0);
        closed.free();
        let Some(kept) = slot else { unreachable!() };
        let InSlot { value, last: _ } = kept;
        value
    }
}

fn is_send<X: Send>() {}

fn is_sync<X: Sync>() {}

/// A pass may go to another thread, where its value may: a law, which does nothing when it runs.
pub fn pass_is_send<T: Keeps + Send>() {
    is_send::<Pass<T>>();
}

/// Threads may share a hall, where its value may go to another thread: a law, which does nothing when it runs.
pub fn hall_is_sync<T: Keeps + Send>() {
    is_sync::<Hall<T>>();
}

/// A hall may go to another thread, where its value may: a law, which does nothing when it runs.
pub fn hall_is_send<T: Keeps + Send>() {
    is_send::<Hall<T>>();
}

/// A hall may be let go, where its value may.
pub fn let_go<T: Keeps + Drop>(hall: Hall<T>) {
    drop(hall);
}
