// Ordered trees with sums over one vector of nodes.
ghost use Rattle.std.specs.Prelude.{◌≡◌, ◌+◌, ◌<◌, ◌≤◌, ◌^◌, IfOk, OnOk, false, is_some, length, slice_set, true, vec_capacity, vec_len};
ghost use Rattle.sum_trees.specs.Sums.{first_passing, next_passing, sum_of};
ghost use Rattle.sum_trees.specs.Order.{IsSorted, between, first_after, first_from, first_like, first_of, has_like, inserted, replaced, unlike};
ghost use Rattle.sum_trees.specs.Forests.{AreEmpty, AreNowhere, items_in};

use crate::change::set_like;
use crate::grove::{Spares, put_in, take_out};
use crate::nodes::{NOWHERE, Node, sum_of_tree};
use crate::passing::{passing_after, passing_item};
use crate::ranges::sum_of_range;
use crate::search::{first_item, item_after, item_from, item_like};
use crate::sought::Sought;
use crate::summed::Summed;
use cta_values::NoMemory;
use std::alloc::Global;
use std::marker::Model;

/// Trees of items in order, numbered from 0, with the sum of each. Contracts see the items of each tree in their order, and
/// for how many more there is room, in whichever trees. All nodes stand in one vector. This project's own.
#[derive(Drop)]
pub struct Forest<T: Summed> {
    nodes: Vec<Node<T, T::Sum>>,
    roots: Vec<u32>,
    spares: Spares,
}

impl<T: Summed> Model for Forest<T> {
    ghost use Rattle.std.specs.Prelude.{◌+◌, ◌-◌, map, min, vec_capacity, vec_len};
    ghost use Rattle.sum_trees.specs.Forests.{Grown};

    ghost Value = { Grown T };

    ghost use Rattle.sum_trees.specs.Groves.{IsGrove, items_at};

    ghost view = { λ f. record { trees = map (items_at f.nodes.items) f.roots.items; room = (min (vec_capacity f.nodes) 4294967295 - vec_len f.nodes) + f.spares.count } };

    ghost invariant = { λ f. IsGrove T.sums T.before f.nodes.items f.roots.items f.spares };
}

// The places of so many empty trees.
fn empty_roots(alloc: Global, trees: u32) -> Result<Vec<u32>, NoMemory>
    ensures { IfOk result (λ roots. AreNowhere trees roots.items) }
{
    let mut roots = Vec::new(alloc);
    for _ in 0..trees {
        roots.push(NOWHERE)?;
    }
    Ok(roots)
}

// The least number of nodes by which a vector grows, so that a small forest does not move its nodes at every other item.
const LEAST_STEP: usize = 1_024;

// Makes room for so many more nodes; where the vector grows, for a thirty-second of those that there are, and for the least step.
fn grow<N>(nodes: &mut Vec<N>, wanted: usize) -> Result<(), NoMemory>
    ensures items { nodes.new.items ≡ nodes.old.items }
    ensures len { vec_len nodes.new ≡ vec_len nodes.old }
    ensures capacity { vec_capacity nodes.old ≤ vec_capacity nodes.new }
    ensures room { OnOk result (vec_len nodes.new + wanted ≤ vec_capacity nodes.new) }
{
    let count = nodes.len();
    if wanted <= nodes.capacity() - count {
        return Ok(());
    }
    nodes.reserve_exact(wanted.max(count / 32).max(LEAST_STEP))?;
    Ok(())
}

impl<T: Summed> Forest<T> {
    /// So many empty trees, with no room yet. NoMemory gives nothing. Its cost is the number of trees.
    pub fn new(alloc: Global, trees: u32) -> Result<Forest<T>, NoMemory>
        ensures { IfOk result (λ forest. AreEmpty trees forest.trees) }
    {
        let roots = empty_roots(alloc, trees)?;
        Ok(Forest {
            nodes: Vec::new(alloc),
            roots,
            spares: Spares {
                root: NOWHERE,
                count: 0,
            },
        })
    }

    /// Makes room for at least this many more items, and never makes the room smaller. NoMemory changes no item; it is the
    /// answer too where there would be more than 2^32 - 1 nodes. Where the vector grows, it grows by the most of what was asked
    /// for, a thirty-second of its nodes, and 1,024 nodes. Its cost is the number of items where the vector grows, and else
    /// constant, so that room for items one by one costs a constant for each on average.
    pub fn reserve(&mut self, more: u32) -> Result<(), NoMemory>
        ensures trees { self.new.trees ≡ self.old.trees }
        ensures room { OnOk result (more ≤ self.new.room) }
        ensures kept { self.old.room ≤ self.new.room }
    {
        let wanted = more.saturating_sub(self.spares.count) as usize;
        if NOWHERE as usize - self.nodes.len() < wanted {
            return Err(NoMemory);
        }
        grow(&mut self.nodes, wanted)
    }

    /// For how many more items there is room, in whichever trees. In constant time.
    pub fn room(&self) -> usize
        ensures { result ≡ self.now.room }
    {
        let most = self.nodes.capacity().min(NOWHERE as usize);
        most - self.nodes.len() + self.spares.count as usize
    }

    /// Puts an item into a tree at its place in the order, where none is like it. It takes no memory. Its cost is the
    /// logarithm of the number of items of the tree.
    pub fn insert(&mut self, tree: u32, item: T)
        requires tree { tree < length self.old.trees }
        requires room { 0 < self.old.room }
        requires lacks { has_like T.before item (items_in self.old.trees tree) ≡ false }
        ensures trees { self.new.trees ≡ slice_set self.old.trees tree (inserted T.before item (items_in self.old.trees tree)) }
        ensures room { self.old.room ≤ self.new.room + 1 }
    {
        self.spares = put_in(
            &mut self.nodes,
            self.roots.as_mut_slice(),
            self.spares,
            tree,
            item,
        );
    }

    /// Takes the item that is like this one out of a tree, and says whether there was one. Its place is free again, so an item
    /// can be changed in place by `take` and `insert`. It takes no memory. Its cost is the logarithm of the number of items of
    /// the tree.
    pub fn take(&mut self, tree: u32, like: T) -> bool
        requires tree { tree < length self.old.trees }
        ensures sorted { IsSorted T.before (items_in self.old.trees tree) }
        ensures had { result ≡ has_like T.before like (items_in self.old.trees tree) }
        ensures trees { self.new.trees ≡ slice_set self.old.trees tree (unlike T.before like (items_in self.old.trees tree)) }
        ensures room { self.old.room ≤ self.new.room }
        ensures back { result ≡ true → self.old.room + 1 ≤ self.new.room }
    {
        let removed = take_out(
            self.nodes.as_mut_slice(),
            self.roots.as_mut_slice(),
            self.spares,
            tree,
            like,
        );
        self.spares = removed.spares;
        removed.found
    }

    /// Puts an item in the place of the one that is like it, where there is one. It takes no memory. Its cost is the logarithm
    /// of the number of items of the tree.
    pub fn replace(&mut self, tree: u32, item: T)
        requires tree { tree < length self.old.trees }
        requires there { has_like T.before item (items_in self.old.trees tree) ≡ true }
        ensures trees { self.new.trees ≡ slice_set self.old.trees tree (replaced T.before item (items_in self.old.trees tree)) }
        ensures room { self.old.room ≤ self.new.room }
    {
        let root = self.roots[tree as usize];
        set_like(self.nodes.as_mut_slice(), root, &item);
    }

    /// The sum of the items of a tree, None exactly where it is empty. A tree has fewer than 2^32 items, in order. Its cost is
    /// constant.
    pub fn sum(&self, tree: u32) -> Option<T::Sum>
        requires tree { tree < length self.now.trees }
        ensures few { length (items_in self.now.trees tree) < 2 ^ 32 }
        ensures sorted { IsSorted T.before (items_in self.now.trees tree) }
        ensures sum { result ≡ sum_of T.sums (items_in self.now.trees tree) }
    {
        sum_of_tree(self.nodes.as_slice(), self.roots[tree as usize])
    }

    /// The first item of a tree, None exactly where it is empty. Its cost is the logarithm of the number of items.
    pub fn first(&self, tree: u32) -> Option<T>
        requires tree { tree < length self.now.trees }
        ensures { result ≡ first_of (items_in self.now.trees tree) }
    {
        first_item(self.nodes.as_slice(), self.roots[tree as usize])
    }

    /// The first item of a tree that this one comes before, None exactly where there is none. The item itself need not be in
    /// the tree. Its cost is the logarithm of the number of items.
    pub fn after(&self, tree: u32, item: T) -> Option<T>
        requires tree { tree < length self.now.trees }
        ensures { result ≡ first_after T.before item (items_in self.now.trees tree) }
    {
        item_after(self.nodes.as_slice(), self.roots[tree as usize], &item)
    }

    /// The first item of a tree that does not come before this one, None exactly where there is none. The item itself need
    /// not be in the tree. Its cost is the logarithm of the number of items.
    pub fn from(&self, tree: u32, item: T) -> Option<T>
        requires tree { tree < length self.now.trees }
        ensures sorted { IsSorted T.before (items_in self.now.trees tree) }
        ensures from { result ≡ first_from T.before item (items_in self.now.trees tree) }
    {
        item_from(self.nodes.as_slice(), self.roots[tree as usize], &item)
    }

    /// The item of a tree that is like this one, None exactly where there is none. Its cost is the logarithm of the number of
    /// items.
    pub fn get(&self, tree: u32, like: T) -> Option<T>
        requires tree { tree < length self.now.trees }
        ensures sorted { IsSorted T.before (items_in self.now.trees tree) }
        ensures had { is_some result ≡ has_like T.before like (items_in self.now.trees tree) }
        ensures like { result ≡ first_like T.before like (items_in self.now.trees tree) }
    {
        item_like(self.nodes.as_slice(), self.roots[tree as usize], &like)
    }

    /// The sum of the items of a tree that do not come before `low` and come before `high`, None exactly where there are none.
    /// Neither need be in the tree. Its cost is the logarithm of the number of items.
    pub fn sum_between(&self, tree: u32, low: T, high: T) -> Option<T::Sum>
        requires tree { tree < length self.now.trees }
        ensures { result ≡ sum_of T.sums (between T.before low high (items_in self.now.trees tree)) }
    {
        sum_of_range(
            self.nodes.as_slice(),
            self.roots[tree as usize],
            &low,
            &high,
        )
    }
}

impl<T: Sought> Forest<T> {
    /// The first item of a tree whose own sum passes, None exactly where there is none. Its cost is the logarithm of the number
    /// of items.
    pub fn first_passing(&self, tree: u32, wanted: T::Wanted) -> Option<T>
        requires tree { tree < length self.now.trees }
        ensures sorted { IsSorted T.before (items_in self.now.trees tree) }
        ensures first { result ≡ first_passing T.sums (T.passes wanted) (items_in self.now.trees tree) }
    {
        passing_item(self.nodes.as_slice(), self.roots[tree as usize], wanted)
    }

    /// The first item of a tree that this one comes before and whose own sum passes, None exactly where there is none. The item
    /// itself need not be in the tree. Its cost is the logarithm of the number of items.
    pub fn next_passing(&self, tree: u32, item: T, wanted: T::Wanted) -> Option<T>
        requires tree { tree < length self.now.trees }
        ensures sorted { IsSorted T.before (items_in self.now.trees tree) }
        ensures next { result ≡ next_passing T.sums T.before (T.passes wanted) item (items_in self.now.trees tree) }
    {
        passing_after(
            self.nodes.as_slice(),
            self.roots[tree as usize],
            &item,
            wanted,
        )
    }
}
