// Forks whose two heights stay near each other.
ghost use Rattle.sum_trees.specs.Trees.{CanFork, CanSettle, Forks, IsRoot, IsMoved, Settles};

use crate::nodes::{Node, fork, fork_round, height_in, height_of, node_of};
use crate::summed::Summed;

// The fork of two trees with this item between them, the left tree's item on top where there is one. The place of the whole.
fn raise_left<T: Summed>(
    nodes: &mut [Node<T, T::Sum>],
    at: u32,
    item: T,
    left: u32,
    right: u32,
) -> u32
    requires { CanFork T.sums nodes.old at item left right }
    ensures { Forks T.sums nodes.old nodes.new at item left right result }
{
    match node_of(nodes, left) {
        None => {
            fork(nodes, at, item, left, right);
            at
        }
        Some(top) => {
            fork(nodes, at, item, top.right, right);
            fork(nodes, left, top.item, top.left, at);
            left
        }
    }
}

// The fork of two trees with this item between them, the right tree's item on top where there is one. The place of the whole.
fn raise_right<T: Summed>(
    nodes: &mut [Node<T, T::Sum>],
    at: u32,
    item: T,
    left: u32,
    right: u32,
) -> u32
    requires { CanFork T.sums nodes.old at item left right }
    ensures { Forks T.sums nodes.old nodes.new at item left right result }
{
    match node_of(nodes, right) {
        None => {
            fork(nodes, at, item, left, right);
            at
        }
        Some(top) => {
            fork(nodes, at, item, left, top.left);
            fork(nodes, right, top.item, at, top.right);
            right
        }
    }
}

// The same tree, whose left side is not the lower one.
fn lean_left<T: Summed>(nodes: &mut [Node<T, T::Sum>], at: u32) -> u32
    requires { IsRoot T.sums nodes.old at }
    ensures { IsMoved T.sums nodes.old nodes.new at result }
{
    match node_of(nodes, at) {
        Some(node) if height_of(nodes, node.left) < height_of(nodes, node.right) => {
            raise_right(nodes, at, node.item, node.left, node.right)
        }
        _ => at,
    }
}

// The same tree, whose right side is not the lower one.
fn lean_right<T: Summed>(nodes: &mut [Node<T, T::Sum>], at: u32) -> u32
    requires { IsRoot T.sums nodes.old at }
    ensures { IsMoved T.sums nodes.old nodes.new at result }
{
    match node_of(nodes, at) {
        Some(node) if height_of(nodes, node.right) < height_of(nodes, node.left) => {
            raise_left(nodes, at, node.item, node.left, node.right)
        }
        _ => at,
    }
}

// The tree of two trees with this item between them, turned where one side is higher by two or more. The place of the whole.
fn balance<T: Summed>(nodes: &mut [Node<T, T::Sum>], at: u32, item: T, left: u32, right: u32) -> u32
    requires { CanFork T.sums nodes.old at item left right }
    ensures { Forks T.sums nodes.old nodes.new at item left right result }
{
    let (low, high) = (height_of(nodes, left), height_of(nodes, right));
    if low > high + 1 {
        let left = lean_left(nodes, left);
        return raise_left(nodes, at, item, left, right);
    }
    if high > low + 1 {
        let right = lean_right(nodes, right);
        return raise_right(nodes, at, item, left, right);
    }
    fork(nodes, at, item, left, right);
    at
}

// The tree of the item that stands at a place with these two trees round it, turned where one side is higher by two or more. The
// place of the whole.
pub(crate) fn turn<T: Summed>(nodes: &mut [Node<T, T::Sum>], at: u32, left: u32, right: u32) -> u32
    requires { CanSettle T.sums nodes.old at left right }
    ensures { Settles T.sums nodes.old nodes.new at left right result }
{
    let Some(node) = node_of(nodes, at) else {
        return at;
    };
    balance(nodes, at, node.item, left, right)
}

// The tree of the item that stands at a place with these two trees round it. Where neither side is higher by two or more, its node is
// written where it stands, and its item is not moved. The place of the whole.
pub(crate) fn settle<T: Summed>(
    nodes: &mut [Node<T, T::Sum>],
    at: u32,
    left: u32,
    right: u32,
) -> u32
    requires { CanSettle T.sums nodes.old at left right }
    ensures { Settles T.sums nodes.old nodes.new at left right result }
{
    let Some(node) = node_of(nodes, at) else {
        return at;
    };
    let (before, after) = (node_of(nodes, left), node_of(nodes, right));
    let (low, high) = (height_in(&before), height_in(&after));
    if low > high + 1 || high > low + 1 {
        return turn(nodes, at, left, right);
    }
    fork_round(nodes, at, node.item, left, right, &before, &after);
    at
}
