// A hall's table and a caller's pass. They are written with no bound, over their own parameters, since only so is it proved
// that they may cross threads where their parameters may.
ghost use Rattle.std.specs.Prelude.{◌≡◌};
ghost use Rattle.turn_hall.specs.Calls.{RisesFrom, RisesFrom-prop};
ghost use Rattle.turn_hall.specs.Told.{IsAtRest};

use crate::keeps::Keeps;
use crate::steps::InTurn;
use crate::view::{About, InSlot, View};
use atomic_table::{Seat, Table, TableRule};
use std::alloc::Global;
use std::sync::Mutex;

// A seat of a hall that keeps a `T`.
pub type Place<T> = Seat<
    Option<InSlot<T, <T as Keeps>::Call, <T as Keeps>::Back>>,
    View<<T as Keeps>::Site, <T as Keeps>::Entry, <T as Keeps>::Call, <T as Keeps>::Back>,
>;

/// The table of a hall, with two words and one slot, and the lock at which threads wait.
#[derive(Drop)]
pub struct Room<S, V, K, P: TableRule<S, V, K>> {
    pub(crate) table: Table<S, V, K, P, Global>,
    // Held by the one thread that looks whether the hall is free, while all others that wait sleep. No clause speaks of it.
    pub(crate) entry: Mutex<()>,
    ghost two: { (table.shared.table_id.words ≡ 2) × (table.shared.table_id.slots ≡ 1) },
}

/// A lock round one `T`, which threads take in turn.
pub type Hall<T> = Room<
    Option<InSlot<T, <T as Keeps>::Call, <T as Keeps>::Back>>,
    View<<T as Keeps>::Site, <T as Keeps>::Entry, <T as Keeps>::Call, <T as Keeps>::Back>,
    About<T>,
    InTurn<T>,
>;

/// A seat of a hall with its view, at rest, and how many seats it stands for. The turn numbers of its calls rise.
#[derive(Drop)]
pub struct Holder<S, W, E, C, B> {
    pub(crate) seat: Seat<S, View<W, E, C, B>>,
    pub(crate) seats: u32,
    ghost rests: { IsAtRest seat.me },
    ghost counted: { seat.me.0.seats ≡ seats },
    ghost rises: { RisesFrom 0 seat.me.0.mine } by { RisesFrom-prop 0 seat.me.0.mine },
}

/// What a thread takes turns with: its calls, what it has seen, and its seats.
pub type Pass<T> = Holder<
    Option<InSlot<T, <T as Keeps>::Call, <T as Keeps>::Back>>,
    <T as Keeps>::Site,
    <T as Keeps>::Entry,
    <T as Keeps>::Call,
    <T as Keeps>::Back,
>;
