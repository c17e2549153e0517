// One turn, step by step.
ghost use Rattle.std.specs.Prelude.{◌≡◌, ℕ, ◌+◌, ◌<◌, ◌≤◌, true, false, Some, None, IfSome, IfNone, [], ◌∷◌};
ghost use mathlib.Core.List.{IsPrefix};
ghost use Rattle.turn_hall.specs.Handles.{first_of};
ghost use Rattle.turn_hall.specs.Calls.{RisesFrom};
ghost use Rattle.turn_hall.specs.Views.{holding, entered, waited, passed_on};
ghost use Rattle.turn_hall.specs.Promises.{Turned, Apart, Opened};
ghost use Rattle.turn_hall.specs.Told.{IsAtRest, CarriesPlay, HasEntered, HasPlayed, HasHeard};
ghost use Rattle.turn_hall.specs.Rule.{IsRightValue};

use crate::keeps::Keeps;
use crate::room::{Hall, Place};
use crate::steps::{DrawNext, Look, PassOn};
use crate::view::{InSlot, Last};
use std::snapshot::Snapshot;
use std::sync::Wait;
use std::thread;

// The word that counts the tickets that were drawn.
const TICKET: usize = 0;

// The word that counts the turns that have ended.
const SERVING: usize = 1;

// A ticket of this number or more is never drawn, so that the words never wrap.
const MOST: u64 = 1 << 62;

impl<T: Keeps> Hall<T> {
    // Draws the ticket of this number, where it is the next one. Where it isn't, nothing happens.
    fn draw_next(&self, seat: &mut Place<T>, ticket: u64) -> bool
        requires here { seat.old.table_id ≡ self.now.table.shared.table_id }
        requires rest { IsAtRest seat.old.me }
        requires low { ticket < 4611686018427387904 }
        ensures same { (seat.new.table_id ≡ seat.old.table_id) × (seat.new.id ≡ seat.old.id) }
        ensures drawn { result ≡ true → seat.new.me ≡ (holding seat.old.me.0 ticket, []) }
        ensures stays { result ≡ false → seat.new.me ≡ seat.old.me }
    {
        self.table
            .shared
            .compare_exchange::<DrawNext>(seat, TICKET, ticket, ticket + 1)
            == ticket
    }

    // Draws a ticket that is served at once, where the hall is free: a ticket that is drawn before its turn would wait for one certain thread,
    // which may sleep, while others run.
    fn draw_free(&self, seat: &mut Place<T>) -> Option<u64>
        requires here { seat.old.table_id ≡ self.now.table.shared.table_id }
        requires rest { IsAtRest seat.old.me }
        ensures same { (seat.new.table_id ≡ seat.old.table_id) × (seat.new.id ≡ seat.old.id) }
        ensures drawn { IfSome result (λ ticket. (seat.new.me ≡ (holding seat.old.me.0 ticket, [])) × (ticket < 4611686018427387904)) }
        ensures stays { IfNone result (seat.new.me ≡ seat.old.me) }
    {
        let ticket = self.table.shared.peek(SERVING);
        if ticket < MOST && self.draw_next(seat, ticket) {
            Some(ticket)
        } else {
            None
        }
    }

    // Waits until the hall is free, and draws a ticket then. Of all threads that wait one looks, and the others sleep.
    fn draw_waiting<R: Wait>(&self, rt: &R, seat: &mut Place<T>) -> u64
        requires here { seat.old.table_id ≡ self.now.table.shared.table_id }
        requires rest { IsAtRest seat.old.me }
        ensures same { (seat.new.table_id ≡ seat.old.table_id) × (seat.new.id ≡ seat.old.id) }
        ensures drawn { seat.new.me ≡ (holding seat.old.me.0 result, []) }
        ensures low { result < 4611686018427387904 }
    {
        let _entry = self.entry.lock(rt);
        for _ in rt.forever() {
            if let Some(ticket) = self.draw_free(seat) {
                return ticket;
            }
            thread::yield_now();
        }
        unreachable!()
    }

    // Draws a ticket once the hall is free.
    fn draw<R: Wait>(&self, rt: &R, seat: &mut Place<T>) -> u64
        requires here { seat.old.table_id ≡ self.now.table.shared.table_id }
        requires rest { IsAtRest seat.old.me }
        ensures same { (seat.new.table_id ≡ seat.old.table_id) × (seat.new.id ≡ seat.old.id) }
        ensures drawn { seat.new.me ≡ (holding seat.old.me.0 result, []) }
        ensures low { result < 4611686018427387904 }
    {
        match self.draw_free(seat) {
            Some(ticket) => ticket,
            None => self.draw_waiting(rt, seat),
        }
    }

    // Looks once, and says whether the turn has come. Where it has, the same step takes the slot.
    fn look(&self, seat: &mut Place<T>, ticket: u64) -> bool
        requires here { seat.old.table_id ≡ self.now.table.shared.table_id }
        requires waits { (seat.old.me.0.ticket ≡ Some ticket) × (seat.old.me.0.in_turn ≡ false) × (seat.old.me.1 ≡ []) }
        ensures same { (seat.new.table_id ≡ seat.old.table_id) × (seat.new.id ≡ seat.old.id) }
        ensures entered { result ≡ true → (k : _) × (seat.new.me ≡ (entered seat.old.me.0 ticket (T.history k.value), (0, Some k) ∷ [])) × IsPrefix seat.old.me.0.seen (T.history k.value) × (seat.old.me.0.turns ≤ ticket) × Apart T.topic T.adds (T.history k.value) seat.old.me.0 × IsRightValue T.site T.legal T.history seat.old.me.0.site k.value }
        ensures waits { result ≡ false → (n : ℕ) × (seat.new.me ≡ (waited seat.old.me.0 n, [])) × (seat.old.me.0.turns ≤ n) }
    {
        self.table.shared.load::<Look<T>>(seat, SERVING) == ticket
    }

    // Passes the turn on. The same step gives the slot back.
    fn pass_on(&self, seat: &mut Place<T>) -> u64
        requires here { seat.old.table_id ≡ self.now.table.shared.table_id }
        requires turn { (seat.old.me.0.in_turn ≡ true) × ((t : ℕ) → seat.old.me.0.ticket ≡ Some t → t < 4611686018427387904) }
        requires played { CarriesPlay T.history (IsRightValue T.site T.legal T.history (Some (T.site (first_of self.now)))) (T.plays (T.site (first_of self.now))) T.adds T.asks seat.old.me }
        ensures same { (seat.new.table_id ≡ seat.old.table_id) × (seat.new.id ≡ seat.old.id) }
        ensures gone { (k : _) → seat.old.me.1 ≡ (0, Some k) ∷ [] → seat.new.me ≡ (passed_on seat.old.me.0 result (T.history k.value) k.last, []) }
        ensures was { seat.old.me.0.ticket ≡ Some result }
        ensures rises { RisesFrom 0 seat.new.me.0.mine }
    {
        T::keeps_laws();
        self.table.shared.fetch_add::<PassOn<T>>(seat, SERVING, 1)
    }

    // Waits for the turn, and gives its number.
    fn enter<R: Wait>(&self, rt: &R, seat: &mut Place<T>) -> u64
        requires here { seat.old.table_id ≡ self.now.table.shared.table_id }
        requires rest { IsAtRest seat.old.me }
        ensures same { (seat.new.table_id ≡ seat.old.table_id) × (seat.new.id ≡ seat.old.id) }
        ensures entered { HasEntered T.history (IsRightValue T.site T.legal T.history) T.topic T.adds seat.old.me.0 result seat.new.me }
        ensures low { result < 4611686018427387904 }
    {
        let ticket = self.draw(rt, seat);
        for _ in rt.forever() {
            if self.look(seat, ticket) {
                return ticket;
            }
            thread::yield_now();
        }
        unreachable!()
    }

    // Plays the call on the value in hand, and leaves the call and what came back beside the value.
    fn play_in_turn(&self, seat: &mut Place<T>, call: T::Call) -> T::Back
        requires here { seat.old.table_id ≡ self.now.table.shared.table_id }
        requires in_hand { (k : _) × (seat.old.me.1 ≡ (0, Some k) ∷ []) × (T.history k.value ≡ seat.old.me.0.seen) × (T.site k.value ≡ T.site (first_of self.now)) }
        requires can { T.can_play (T.site (first_of self.now)) seat.old.me.0.seen call }
        ensures same { (seat.new.table_id ≡ seat.old.table_id) × (seat.new.id ≡ seat.old.id) × (seat.new.me.0 ≡ seat.old.me.0) }
        ensures played { HasPlayed T.history (T.plays (T.site (first_of self.entry.now))) call result seat.new.me }
        ensures site { (k : _) → seat.new.me.1 ≡ (0, Some k) ∷ [] → T.site k.value ≡ T.site (first_of self.entry.now) }
    {
        let kept = self.table.shared.exchange(seat, 0, None).unwrap();
        let InSlot { mut value, last: _ } = kept;
        let before = Snapshot::of(&call);
        let back = value.play(call);
        let after = Snapshot::of(&back);
        let last = Some(Last {
            call: before,
            back: after,
        });
        let nothing = self
            .table
            .shared
            .exchange(seat, 0, Some(InSlot { value, last }));
        let None = nothing else { unreachable!() };
        back
    }

    // Takes one turn.
    pub(crate) fn take_turn<R: Wait>(&self, rt: &R, seat: &mut Place<T>, call: T::Call) -> T::Back
        requires here { seat.old.table_id ≡ self.now.table.shared.table_id }
        requires rest { IsAtRest seat.old.me }
        requires site { seat.old.me.0.site ≡ Some (T.site (first_of self.now)) }
        requires fits { T.fits (T.site (first_of self.now)) seat.old.me.0.seen call }
        requires asked { Opened T.topic T.adds (T.asks call) seat.old.me.0 }
        ensures same { (seat.new.table_id ≡ seat.old.table_id) × (seat.new.id ≡ seat.old.id) }
        ensures rest { IsAtRest seat.new.me }
        ensures turn { Turned (T.legal (T.site (first_of self.now))) (T.plays (T.site (first_of self.now))) T.topic T.adds seat.old.me.0 call result seat.new.me.0 }
        ensures rises { RisesFrom 0 seat.new.me.0.mine }
    {
        T::keeps_laws();
        self.enter(rt, seat);
        let back = self.play_in_turn(seat, call);
        self.pass_on(seat);
        back
    }

    // Looks without a ticket, and gives how many turns have ended.
    pub(crate) fn glance(&self, seat: &mut Place<T>) -> u64
        requires here { seat.old.table_id ≡ self.now.table.shared.table_id }
        requires rest { IsAtRest seat.old.me }
        requires site { seat.old.me.0.site ≡ Some (T.site (first_of self.now)) }
        ensures same { (seat.new.table_id ≡ seat.old.table_id) × (seat.new.id ≡ seat.old.id) }
        ensures seen { seat.new.me ≡ (waited seat.old.me.0 result, []) }
        ensures later { seat.old.me.0.turns ≤ result }
        ensures heard { HasHeard T.history (IsRightValue T.site T.legal T.history) seat.old.me.0 }
        ensures legal { T.legal (T.site (first_of self.now)) seat.old.me.0.seen }
        ensures rises { RisesFrom 0 seat.new.me.0.mine }
    {
        self.table.shared.load::<Look<T>>(seat, SERVING)
    }
}
