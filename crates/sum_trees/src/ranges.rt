// Sums of the items between two others.
ghost use Rattle.std.specs.Prelude.{◌&&◌, not};
ghost use Rattle.sum_trees.specs.Searches.{TellsSum};
ghost use Rattle.sum_trees.specs.Trees.{IsRoot};

use crate::nodes::{Node, node_of, sum_around, sum_of_tree};
use crate::summed::Summed;

// The sum of the items that do not come before this one.
fn sum_from<T: Summed>(nodes: &[Node<T, T::Sum>], root: u32, low: &T) -> Option<T::Sum>
    requires { IsRoot T.sums nodes.now root }
    ensures { TellsSum T.sums T.before (λ y. not (T.before y low.now)) nodes.now root result }
{
    match node_of(nodes, root) {
        None => None,
        Some(node) => {
            if node.item.is_before(low) {
                return sum_from(nodes, node.right, low);
            }
            let left = sum_from(nodes, node.left, low);
            let right = sum_of_tree(nodes, node.right);
            Some(sum_around::<T>(left, &node.item, right))
        }
    }
}

// The sum of the items that come before this one.
fn sum_until<T: Summed>(nodes: &[Node<T, T::Sum>], root: u32, high: &T) -> Option<T::Sum>
    requires { IsRoot T.sums nodes.now root }
    ensures { TellsSum T.sums T.before (λ y. T.before y high.now) nodes.now root result }
{
    match node_of(nodes, root) {
        None => None,
        Some(node) => {
            if !node.item.is_before(high) {
                return sum_until(nodes, node.left, high);
            }
            let left = sum_of_tree(nodes, node.left);
            let right = sum_until(nodes, node.right, high);
            Some(sum_around::<T>(left, &node.item, right))
        }
    }
}

// The sum of the items that do not come before the first one and come before the second.
pub(crate) fn sum_of_range<T: Summed>(
    nodes: &[Node<T, T::Sum>],
    root: u32,
    low: &T,
    high: &T,
) -> Option<T::Sum>
    requires { IsRoot T.sums nodes.now root }
    ensures { TellsSum T.sums T.before (λ y. not (T.before y low.now) && T.before y high.now) nodes.now root result }
{
    match node_of(nodes, root) {
        None => None,
        Some(node) => {
            if node.item.is_before(low) {
                return sum_of_range(nodes, node.right, low, high);
            }
            if !node.item.is_before(high) {
                return sum_of_range(nodes, node.left, low, high);
            }
            let left = sum_from(nodes, node.left, low);
            let right = sum_until(nodes, node.right, high);
            Some(sum_around::<T>(left, &node.item, right))
        }
    }
}
