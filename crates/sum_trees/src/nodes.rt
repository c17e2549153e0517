// Nodes of trees.
ghost use Rattle.std.specs.Prelude.{◌≡◌, ◌+◌, ◌<◌, ◌≤◌, ◌^◌, length, option_map, slice_set};
ghost use Rattle.sum_trees.specs.Sums.{Sums, sum_of};
ghost use Rattle.sum_trees.specs.Nodes.{height_at, height_in, node_at, sum_at};
ghost use Rattle.sum_trees.specs.Around.{around};
ghost use Rattle.sum_trees.specs.Trees.{CanFork, CanSettle, Forks, Settles};

use crate::summed::Summed;

// A node of a tree: the sum of the items of its tree, its height, the places of its left and right trees, and its item. What is read
// of a node beside the way stands in front, so that it mostly takes one line of a cache, and what is read on the way stands together.
#[derive(Clone, Copy)]
pub(crate) struct Node<T, S> {
    pub(crate) sum: S,
    pub(crate) height: u32,
    pub(crate) left: u32,
    pub(crate) right: u32,
    pub(crate) item: T,
}

// The place that stands for the empty tree.
pub(crate) const NOWHERE: u32 = u32::MAX;

// The node at a place, none at the place that stands for the empty tree.
#[inline(always)]
pub(crate) fn node_of<T: Copy, S: Copy>(nodes: &[Node<T, S>], at: u32) -> Option<Node<T, S>>
    ensures { result ≡ node_at nodes.now at }
{
    if at == NOWHERE {
        return None;
    }
    nodes.get(at as usize).copied()
}

// The height of the tree at a place.
#[inline(always)]
pub(crate) fn height_of<T: Copy, S: Copy>(nodes: &[Node<T, S>], at: u32) -> u32
    ensures { result ≡ height_at nodes.now at }
{
    match node_of(nodes, at) {
        None => 0,
        Some(node) => node.height,
    }
}

// The sum of the tree at a place.
#[inline(always)]
pub(crate) fn sum_of_tree<T: Copy, S: Copy>(nodes: &[Node<T, S>], at: u32) -> Option<S>
    ensures { result ≡ sum_at nodes.now at }
{
    match node_of(nodes, at) {
        None => None,
        Some(node) => Some(node.sum),
    }
}

// The sum of an item between the sums of two trees.
#[inline(always)]
pub(crate) fn sum_around<T: Summed>(left: Option<T::Sum>, item: &T, right: Option<T::Sum>) -> T::Sum
    ensures { result ≡ around T.sums left item.now right }
{
    let sum = match left {
        None => item.sum(),
        Some(before) => T::join(before, item.sum()),
    };
    match right {
        None => sum,
        Some(after) => T::join(sum, after),
    }
}

// Writes the node at a place.
#[inline(always)]
fn put<T: Copy, S: Copy>(nodes: &mut [Node<T, S>], at: u32, node: Node<T, S>)
    requires { at < length nodes.old }
    ensures { nodes.new ≡ slice_set nodes.old at node }
{
    nodes[at as usize] = node;
}

// The height of the tree of a node, 0 where there is none.
#[inline(always)]
pub(crate) fn height_in<T: Copy, S: Copy>(node: &Option<Node<T, S>>) -> u32
    ensures { result ≡ height_in node.now }
{
    match node {
        None => 0,
        Some(node) => node.height,
    }
}

// The sum of the tree of a node, none where there is none.
#[inline(always)]
fn sum_in<T: Copy, S: Copy>(node: &Option<Node<T, S>>) -> Option<S>
    ensures { result ≡ option_map (λ n. n.sum) node.now }
{
    match node {
        None => None,
        Some(node) => Some(node.sum),
    }
}

// Makes the node at a place the fork of two trees, whose nodes were read already, with this item between them.
#[inline(always)]
pub(crate) fn fork_round<T: Summed>(
    nodes: &mut [Node<T, T::Sum>],
    at: u32,
    item: T,
    left: u32,
    right: u32,
    before: &Option<Node<T, T::Sum>>,
    after: &Option<Node<T, T::Sum>>,
)
    requires fork { CanFork T.sums nodes.old at item left right }
    requires left { before.now ≡ node_at nodes.old left }
    requires right { after.now ≡ node_at nodes.old right }
    ensures { Forks T.sums nodes.old nodes.new at item left right at }
{
    let height = height_in(before).max(height_in(after)) + 1;
    let sum = sum_around(sum_in(before), &item, sum_in(after));
    put(
        nodes,
        at,
        Node {
            item,
            sum,
            left,
            right,
            height,
        },
    );
}

// Makes the node at a place the fork of two trees, with this item between them.
pub(crate) fn fork<T: Summed>(
    nodes: &mut [Node<T, T::Sum>],
    at: u32,
    item: T,
    left: u32,
    right: u32,
)
    requires { CanFork T.sums nodes.old at item left right }
    ensures { Forks T.sums nodes.old nodes.new at item left right at }
{
    let (before, after) = (node_of(nodes, left), node_of(nodes, right));
    fork_round(nodes, at, item, left, right, &before, &after);
}

// Makes the node at a place the fork of two trees, with its own item between them.
pub(crate) fn lay<T: Summed>(nodes: &mut [Node<T, T::Sum>], at: u32, left: u32, right: u32)
    requires { CanSettle T.sums nodes.old at left right }
    ensures { Settles T.sums nodes.old nodes.new at left right at }
{
    let Some(node) = node_of(nodes, at) else {
        return;
    };
    fork(nodes, at, node.item, left, right);
}
