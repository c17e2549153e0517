// Items that enter a tree, leave it, and change in their place.
ghost use Rattle.sum_trees.specs.Changes.{CanEnter, Entered, CanJoin, Joined, CutFirst, CutLike, StandsInOrder, TakesPlace};
ghost use Rattle.sum_trees.specs.Trees.{IsRoot};

use crate::balance::{settle, turn};
use crate::nodes::{NOWHERE, Node, fork, node_of};
use crate::summed::Summed;

// What was cut out of a tree: the place of its node, which still has the item, and the place of the tree of the others.
#[derive(Clone, Copy)]
pub(crate) struct Cut {
    pub(crate) place: u32,
    pub(crate) rest: u32,
}

// Puts an item into a tree at its place in the order, with the node at a place. The place of the whole.
pub(crate) fn enter<T: Summed>(nodes: &mut [Node<T, T::Sum>], root: u32, at: u32, item: &T) -> u32
    requires { CanEnter T.sums T.before nodes.old root at item.now }
    ensures { Entered T.sums T.before nodes.old nodes.new root at item.now result }
{
    match node_of(nodes, root) {
        None => {
            fork(nodes, at, *item, NOWHERE, NOWHERE);
            at
        }
        Some(node) => {
            if item.is_before(&node.item) {
                let left = enter(nodes, node.left, at, item);
                return settle(nodes, root, left, node.right);
            }
            let right = enter(nodes, node.right, at, item);
            settle(nodes, root, node.left, right)
        }
    }
}

// Cuts out the first item, where there is one.
pub(crate) fn cut_first<T: Summed>(nodes: &mut [Node<T, T::Sum>], root: u32) -> Option<Cut>
    requires { IsRoot T.sums nodes.old root }
    ensures { CutFirst T.sums nodes.old nodes.new root result }
{
    match node_of(nodes, root) {
        None => None,
        Some(node) => match cut_first(nodes, node.left) {
            None => Some(Cut {
                place: root,
                rest: node.right,
            }),
            Some(cut) => {
                let rest = settle(nodes, root, cut.rest, node.right);
                Some(Cut {
                    place: cut.place,
                    rest,
                })
            }
        },
    }
}

// The tree of two trees, the first before the second. Its place.
fn join<T: Summed>(nodes: &mut [Node<T, T::Sum>], left: u32, right: u32) -> u32
    requires { CanJoin T.sums nodes.old left right }
    ensures { Joined T.sums nodes.old nodes.new left right result }
{
    match cut_first(nodes, right) {
        None => left,
        Some(cut) => turn(nodes, cut.place, left, cut.rest),
    }
}

// Cuts out the item that is like this one, where there is one.
pub(crate) fn cut_like<T: Summed>(nodes: &mut [Node<T, T::Sum>], root: u32, like: &T) -> Option<Cut>
    requires { IsRoot T.sums nodes.old root }
    ensures { CutLike T.sums T.before like.now nodes.old nodes.new root result }
{
    match node_of(nodes, root) {
        None => None,
        Some(node) => {
            if like.is_before(&node.item) {
                return match cut_like(nodes, node.left, like) {
                    None => None,
                    Some(cut) => {
                        let rest = settle(nodes, root, cut.rest, node.right);
                        Some(Cut {
                            place: cut.place,
                            rest,
                        })
                    }
                };
            }
            if node.item.is_before(like) {
                return match cut_like(nodes, node.right, like) {
                    None => None,
                    Some(cut) => {
                        let rest = settle(nodes, root, node.left, cut.rest);
                        Some(Cut {
                            place: cut.place,
                            rest,
                        })
                    }
                };
            }
            let rest = join(nodes, node.left, node.right);
            Some(Cut { place: root, rest })
        }
    }
}

// Puts an item in the place of the one that is like it, where there is one, with the sums on the way to it. No node moves.
pub(crate) fn set_like<T: Summed>(nodes: &mut [Node<T, T::Sum>], root: u32, item: &T)
    requires { StandsInOrder T.sums T.before nodes.old root }
    ensures { TakesPlace T.sums T.before item.now nodes.old nodes.new root }
{
    let Some(node) = node_of(nodes, root) else {
        return;
    };
    if item.is_before(&node.item) {
        set_like(nodes, node.left, item);
        fork(nodes, root, node.item, node.left, node.right);
        return;
    }
    if node.item.is_before(item) {
        set_like(nodes, node.right, item);
        fork(nodes, root, node.item, node.left, node.right);
        return;
    }
    fork(nodes, root, *item, node.left, node.right);
}
