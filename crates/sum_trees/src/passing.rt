// Items that a tree is searched for by its sums.
ghost use Rattle.std.specs.Prelude.{◌&&◌};
ghost use Rattle.sum_trees.specs.Sums.{own_passes};
ghost use Rattle.sum_trees.specs.Searches.{TellsPassing};
ghost use Rattle.sum_trees.specs.Trees.{IsRoot};

use crate::nodes::{Node, node_of};
use crate::sought::Sought;

// The first item whose own sum passes. A tree whose sum fails has none, so that one path is walked.
pub(crate) fn passing_item<T: Sought>(
    nodes: &[Node<T, T::Sum>],
    root: u32,
    wanted: T::Wanted,
) -> Option<T>
    requires { IsRoot T.sums nodes.now root }
    ensures { TellsPassing T.sums T.before (own_passes T.sums (T.passes wanted)) nodes.now root result }
{
    match node_of(nodes, root) {
        None => None,
        Some(node) => {
            if !T::has_sought(node.sum, wanted) {
                return None;
            }
            match passing_item(nodes, node.left, wanted) {
                Some(first) => Some(first),
                None => {
                    if T::has_sought(node.item.sum(), wanted) {
                        return Some(node.item);
                    }
                    passing_item(nodes, node.right, wanted)
                }
            }
        }
    }
}

// The first item that this one comes before and whose own sum passes.
pub(crate) fn passing_after<T: Sought>(
    nodes: &[Node<T, T::Sum>],
    root: u32,
    item: &T,
    wanted: T::Wanted,
) -> Option<T>
    requires { IsRoot T.sums nodes.now root }
    ensures { TellsPassing T.sums T.before (λ y. T.before item.now y && own_passes T.sums (T.passes wanted) y) nodes.now root result }
{
    match node_of(nodes, root) {
        None => None,
        Some(node) => {
            if !T::has_sought(node.sum, wanted) {
                return None;
            }
            if !item.is_before(&node.item) {
                return passing_after(nodes, node.right, item, wanted);
            }
            match passing_after(nodes, node.left, item, wanted) {
                Some(first) => Some(first),
                None => {
                    if T::has_sought(node.item.sum(), wanted) {
                        return Some(node.item);
                    }
                    passing_item(nodes, node.right, wanted)
                }
            }
        }
    }
}
