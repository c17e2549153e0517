// Several trees in the same nodes.
ghost use Rattle.std.specs.Prelude.{◌≡◌, ◌+◌, ◌-◌, ◌<◌, ◌≤◌, false, length, min, slice_index, true, vec_capacity, vec_len};
ghost use Rattle.sum_trees.specs.Changes.{CanEnter, CutFirst, Entered};
ghost use Rattle.sum_trees.specs.Groves.{FindsPlace, GroveBecomes, IsGrove, items_at};
ghost use Rattle.sum_trees.specs.Order.{has_like, inserted, unlike};
ghost use Rattle.sum_trees.specs.Searches.{entries_at};
ghost use Rattle.sum_trees.specs.Trees.{IsRoot};

use crate::change::{Cut, cut_first, cut_like, enter};
use crate::nodes::{NOWHERE, Node, lay};
use crate::summed::Summed;

// The nodes that no tree uses: the place of their own tree, and how many there are.
#[derive(Clone, Copy)]
pub(crate) struct Spares {
    pub(crate) root: u32,
    pub(crate) count: u32,
}

// A node for an item that comes in: its place, and the spare nodes that are left.
#[derive(Clone, Copy)]
pub(crate) struct Found {
    pub(crate) place: u32,
    pub(crate) spares: Spares,
}

// Cuts the first item out of a tree in a vector of nodes.
fn cut_spare<T: Summed>(nodes: &mut Vec<Node<T, T::Sum>>, root: u32) -> Option<Cut>
    requires { IsRoot T.sums nodes.old.items root }
    ensures cut { CutFirst T.sums nodes.old.items nodes.new.items root result }
    ensures length { length nodes.new.items ≡ length nodes.old.items }
    ensures len { vec_len nodes.new ≡ vec_len nodes.old }
    ensures capacity { vec_capacity nodes.new ≡ vec_capacity nodes.old }
    ensures were { length nodes.old.items ≡ vec_len nodes.old }
    ensures items { length nodes.new.items ≡ vec_len nodes.new }
{
    cut_first(nodes.as_mut_slice(), root)
}

// Puts an item into a tree in a vector of nodes.
fn enter_tree<T: Summed>(nodes: &mut Vec<Node<T, T::Sum>>, root: u32, at: u32, item: &T) -> u32
    requires { CanEnter T.sums T.before nodes.old.items root at item.now }
    ensures entered { Entered T.sums T.before nodes.old.items nodes.new.items root at item.now result }
    ensures length { length nodes.new.items ≡ length nodes.old.items }
    ensures len { vec_len nodes.new ≡ vec_len nodes.old }
    ensures capacity { vec_capacity nodes.new ≡ vec_capacity nodes.old }
{
    enter(nodes.as_mut_slice(), root, at, item)
}

// A node for an item: a spare one, or a new one where there is none.
fn find_place<T: Summed>(nodes: &mut Vec<Node<T, T::Sum>>, spares: Spares, item: T) -> Found
    requires tree { IsRoot T.sums nodes.old.items spares.root }
    requires room { 0 < (min (vec_capacity nodes.old) 4294967295 - vec_len nodes.old) + length (entries_at nodes.old.items spares.root) }
    ensures found { FindsPlace T.sums nodes.old.items nodes.new.items spares result }
    ensures capacity { vec_capacity nodes.old ≤ vec_capacity nodes.new }
    ensures len { vec_len nodes.new ≤ vec_len nodes.old + 1 }
    ensures grows { vec_len nodes.old ≤ vec_len nodes.new }
    ensures were { length nodes.old.items ≡ vec_len nodes.old }
    ensures items { length nodes.new.items ≡ vec_len nodes.new }
{
    match cut_spare(nodes, spares.root) {
        Some(cut) => Found {
            place: cut.place,
            spares: Spares {
                root: cut.rest,
                count: spares.count.saturating_sub(1),
            },
        },
        None => {
            let place = nodes.len() as u32;
            let node = Node {
                item,
                sum: item.sum(),
                left: NOWHERE,
                right: NOWHERE,
                height: 1,
            };
            match nodes.push(node) {
                Ok(()) => {}
                Err(_) => unreachable!(),
            }
            Found { place, spares }
        }
    }
}

// Puts an item into a tree of a grove. The spare nodes that are left.
pub(crate) fn put_in<T: Summed>(
    nodes: &mut Vec<Node<T, T::Sum>>,
    roots: &mut [u32],
    spares: Spares,
    tree: u32,
    item: T,
) -> Spares
    requires grove { IsGrove T.sums T.before nodes.old.items roots.old spares }
    requires tree { tree < length roots.old }
    requires room { 0 < (min (vec_capacity nodes.old) 4294967295 - vec_len nodes.old) + spares.count }
    requires lacks { has_like T.before item (items_at nodes.old.items (slice_index roots.old tree)) ≡ false }
    ensures grove { GroveBecomes T.sums T.before nodes.old.items nodes.new.items roots.old roots.new result tree (inserted T.before item (items_at nodes.old.items (slice_index roots.old tree))) }
    ensures room { (min (vec_capacity nodes.old) 4294967295 - vec_len nodes.old) + spares.count ≤ ((min (vec_capacity nodes.new) 4294967295 - vec_len nodes.new) + result.count) + 1 }
{
    let found = find_place(nodes, spares, item);
    let root = enter_tree(nodes, roots[tree as usize], found.place, &item);
    roots[tree as usize] = root;
    found.spares
}

// Whether an item was taken out of a tree, and the spare nodes then.
#[derive(Clone, Copy)]
pub(crate) struct Removed {
    pub(crate) found: bool,
    pub(crate) spares: Spares,
}

// Takes the item that is like this one out of a tree of a grove.
pub(crate) fn take_out<T: Summed>(
    nodes: &mut [Node<T, T::Sum>],
    roots: &mut [u32],
    spares: Spares,
    tree: u32,
    like: T,
) -> Removed
    requires grove { IsGrove T.sums T.before nodes.old roots.old spares }
    requires tree { tree < length roots.old }
    ensures grove { GroveBecomes T.sums T.before nodes.old nodes.new roots.old roots.new result.spares tree (unlike T.before like (items_at nodes.old (slice_index roots.old tree))) }
    ensures had { result.found ≡ has_like T.before like (items_at nodes.old (slice_index roots.old tree)) }
    ensures room { spares.count ≤ result.spares.count }
    ensures back { result.found ≡ true → spares.count + 1 ≤ result.spares.count }
{
    match cut_like(nodes, roots[tree as usize], &like) {
        None => Removed {
            found: false,
            spares,
        },
        Some(cut) => {
            roots[tree as usize] = cut.rest;
            lay(nodes, cut.place, NOWHERE, spares.root);
            Removed {
                found: true,
                spares: Spares {
                    root: cut.place,
                    count: spares.count + 1,
                },
            }
        }
    }
}
