// Items that a tree is asked for.
ghost use Rattle.std.specs.Prelude.{◌≡◌, not};
ghost use Rattle.sum_trees.specs.Order.{is_like};
ghost use Rattle.sum_trees.specs.Nodes.{item_at};
ghost use Rattle.sum_trees.specs.Searches.{TellsAfter, TellsFirst, TellsFrom, TellsPassing, TellsPassingOr};
ghost use Rattle.sum_trees.specs.Trees.{IsRoot};

use crate::nodes::{NOWHERE, Node, node_of};
use crate::summed::Summed;

// The first item.
pub(crate) fn first_item<T: Summed>(nodes: &[Node<T, T::Sum>], root: u32) -> Option<T>
    requires { IsRoot T.sums nodes.now root }
    ensures { TellsFirst T.sums nodes.now root result }
{
    match node_of(nodes, root) {
        None => None,
        Some(node) => match first_item(nodes, node.left) {
            None => Some(node.item),
            Some(first) => Some(first),
        },
    }
}

// The item at a place, none at the place that stands for the empty tree.
fn item_at<T: Summed>(nodes: &[Node<T, T::Sum>], at: u32) -> Option<T>
    ensures { result ≡ item_at nodes.now at }
{
    match node_of(nodes, at) {
        None => None,
        Some(node) => Some(node.item),
    }
}

// The place of the first item that this one comes before, or the place that was found already where there is none. No call keeps
// anything for its end, so that the walk is a loop.
fn after_or<T: Summed>(nodes: &[Node<T, T::Sum>], root: u32, item: &T, found: u32) -> u32
    requires { IsRoot T.sums nodes.now root }
    ensures { TellsPassingOr T.sums T.before (T.before item.now) nodes.now root (item_at nodes.now found) (item_at nodes.now result) }
{
    match node_of(nodes, root) {
        None => found,
        Some(node) => {
            if item.is_before(&node.item) {
                return after_or(nodes, node.left, item, root);
            }
            after_or(nodes, node.right, item, found)
        }
    }
}

// The first item that this one comes before.
pub(crate) fn item_after<T: Summed>(nodes: &[Node<T, T::Sum>], root: u32, item: &T) -> Option<T>
    requires { IsRoot T.sums nodes.now root }
    ensures { TellsAfter T.sums T.before nodes.now root item.now result }
{
    item_at(nodes, after_or(nodes, root, item, NOWHERE))
}

// The place of the first item that does not come before this one, or the place that was found already where there is none.
fn from_or<T: Summed>(nodes: &[Node<T, T::Sum>], root: u32, item: &T, found: u32) -> u32
    requires { IsRoot T.sums nodes.now root }
    ensures { TellsPassingOr T.sums T.before (λ y. not (T.before y item.now)) nodes.now root (item_at nodes.now found) (item_at nodes.now result) }
{
    match node_of(nodes, root) {
        None => found,
        Some(node) => {
            if node.item.is_before(item) {
                return from_or(nodes, node.right, item, found);
            }
            from_or(nodes, node.left, item, root)
        }
    }
}

// The first item that does not come before this one.
pub(crate) fn item_from<T: Summed>(nodes: &[Node<T, T::Sum>], root: u32, item: &T) -> Option<T>
    requires { IsRoot T.sums nodes.now root }
    ensures { TellsFrom T.sums T.before nodes.now root item.now result }
{
    item_at(nodes, from_or(nodes, root, item, NOWHERE))
}

// The place of the item that is like this one, or the place that stands for the empty tree where there is none.
fn place_like<T: Summed>(nodes: &[Node<T, T::Sum>], root: u32, like: &T) -> u32
    requires { IsRoot T.sums nodes.now root }
    ensures { TellsPassing T.sums T.before (is_like T.before like.now) nodes.now root (item_at nodes.now result) }
{
    match node_of(nodes, root) {
        None => NOWHERE,
        Some(node) => {
            if like.is_before(&node.item) {
                return place_like(nodes, node.left, like);
            }
            if node.item.is_before(like) {
                return place_like(nodes, node.right, like);
            }
            root
        }
    }
}

// The item that is like this one.
pub(crate) fn item_like<T: Summed>(nodes: &[Node<T, T::Sum>], root: u32, like: &T) -> Option<T>
    requires { IsRoot T.sums nodes.now root }
    ensures { TellsPassing T.sums T.before (is_like T.before like.now) nodes.now root result }
{
    item_at(nodes, place_like(nodes, root, like))
}
