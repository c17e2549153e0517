// What a pass of a pool knows, and what each step tells it.
ghost use Rattle.link_pool.specs.Pooled.{Pooled, fresh, keeping, single, joined, spent, with_put, IsBack, IsEmptied, TakesNext};
ghost use Rattle.std.specs.Prelude.{◌≡◌};

use crossbeam_queue::protocol::{Join, Lesson, Outcome, Protocol, Split};
use std::collections::LinkedList;

/// A link with its number, from 1 in the order in which links came into the pool. Contracts alone speak of it: no value of it is
/// made.
pub struct Passed<L> {
    pub number: u64,
    pub link: L,
}

/// What a pass knows. Contracts alone speak of it: no value of it is made.
pub struct PoolView<L> {
    /// Whether it is the door, through which all links come in.
    pub door: bool,
    /// Its parts of the right to know the whole.
    pub parts: u64,
    /// The links that it has put, in order of number.
    pub put: LinkedList<Passed<L>>,
    /// The links that it has got, in order of number.
    pub got: LinkedList<Passed<L>>,
}

// The rule of a pool.
pub struct InOrder;

impl<L> Protocol<L, PoolView<L>> for InOrder {
    ghost holds = { Pooled };

    ghost first = { fresh };
}

pub struct Cut;

impl<L> Split<PoolView<L>> for Cut {
    ghost left = { keeping };

    ghost right = { λ v. single };
}

impl<L> Join<PoolView<L>> for Cut {
    ghost both = { joined };

    ghost spent = { spent };
}

pub struct Puts;

impl<L> Outcome<L, PoolView<L>> for Puts {
    ghost then = { λ v link w. w ≡ with_put v link };
}

impl<L> Lesson<L, PoolView<L>> for Puts {
    ghost fact = { IsBack };
}

pub struct Gets;

impl<L> Outcome<L, PoolView<L>> for Gets {
    ghost then = { TakesNext };
}

impl<L> Lesson<L, PoolView<L>> for Gets {
    ghost fact = { IsEmptied };
}
