// What lies in the slot, and what a thread knows.
use std::collections::LinkedList;
use std::snapshot::Snapshot;

// A call that was made: the number of its turn, from 0, the length of the history before it, the call and what came back.
// Contracts alone speak of it: no value of it is made.
pub struct Made<C, B> {
    pub turn: u64,
    pub at: u64,
    pub call: C,
    pub back: B,
}

// What a thread knows. Contracts alone speak of it: no value of it is made.
pub struct View<W, E, C, B> {
    // How many seats it has.
    pub seats: u64,
    // The site of the value, where it has a seat.
    pub site: Option<W>,
    // The ticket that it has drawn and that has not been passed on.
    pub ticket: Option<u64>,
    // Whether the value is in its hand.
    pub in_turn: bool,
    // How many turns it knows to have ended.
    pub turns: u64,
    // The history that it has seen, oldest entry first.
    pub seen: LinkedList<E>,
    // The shorter of the two histories that were seen at the last join.
    pub heard: LinkedList<E>,
    // Its own calls, in the order of their turns.
    pub mine: LinkedList<Made<C, B>>,
}

// The call that was played last, and what came back. It has no bytes.
#[derive(Drop)]
pub struct Last<C, B> {
    pub call: Snapshot<C>,
    pub back: Snapshot<B>,
}

// What lies in the slot: the value, and the call that was played on it last.
#[derive(Drop)]
pub struct InSlot<T, C, B> {
    pub value: T,
    pub last: Option<Last<C, B>>,
}

// What the rule is told once: the number of seats, and the value as it was at first.
#[derive(Drop)]
pub struct About<T> {
    pub seats: u64,
    pub first: Snapshot<T>,
}
