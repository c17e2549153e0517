// The rule of a hall, and what each step tells.
ghost use Rattle.std.specs.Prelude.{Some, ◌-◌, ◌/◌};
ghost use Rattle.turn_hall.specs.Views.{fresh, keeping, told_of, joined, blank};
ghost use Rattle.turn_hall.specs.Told.{DrawTells, LookTells, PassTells};
ghost use Rattle.turn_hall.specs.Rule.{IsRightValue, KeepsRule};

use crate::keeps::Keeps;
use crate::view::{About, InSlot, View};
use atomic_table::{Join, Play, Split, TableRule};
use std::marker::PhantomData;

// The rule of a hall that keeps a `T`.
pub struct InTurn<T> {
    kept: PhantomData<T>,
}

impl<T: Keeps> TableRule<
    Option<InSlot<T, T::Call, T::Back>>,
    View<T::Site, T::Entry, T::Call, T::Back>,
    About<T>,
> for InTurn<T> {
    ghost holds = { λ key. KeepsRule T.history (IsRightValue T.site T.legal T.history) (Some (T.site key.first.value)) (T.plays (T.site key.first.value)) T.topic T.adds key.seats (T.history key.first.value) };

    ghost first = { λ key. fresh (Some (T.site key.first.value)) key.seats (T.history key.first.value) };
}

// To draw the next ticket, where it has a certain number.
pub struct DrawNext;

impl<T, W, E, C, B> Play<Option<InSlot<T, C, B>>, View<W, E, C, B>> for DrawNext {
    ghost then = { DrawTells };
}

// To look at the word that counts the turns that have ended, and to take the slot where it is the ticket.
pub struct Look<T> {
    kept: PhantomData<T>,
}

impl<T: Keeps> Play<Option<InSlot<T, T::Call, T::Back>>, View<T::Site, T::Entry, T::Call, T::Back>>
    for Look<T> {
    ghost then = { LookTells T.history (IsRightValue T.site T.legal T.history) T.topic T.adds };
}

// To pass the turn on, and to give the slot back.
pub struct PassOn<T> {
    kept: PhantomData<T>,
}

impl<T: Keeps> Play<Option<InSlot<T, T::Call, T::Back>>, View<T::Site, T::Entry, T::Call, T::Back>>
    for PassOn<T> {
    ghost then = { PassTells T.history };
}

// To split a pass.
pub struct Halve;

impl<W, E, C, B> Split<View<W, E, C, B>> for Halve {
    ghost left = { λ v. keeping v (v.seats - v.seats / 2) };

    ghost right = { λ v. told_of v (v.seats / 2) };
}

// To join two passes.
pub struct Both;

impl<W, E, C, B> Join<View<W, E, C, B>> for Both {
    ghost both = { joined };

    ghost spent = { blank };
}
