// Trees of numbers, each with its largest.
ghost use Rattle.std.specs.Prelude.{◌≡◌, ◌<◌, IfOk, length};

use cta_site::NoMemory;
use std::alloc::Global;
use std::test::Fail;
use sum_trees::{Forest, Sought, Summed};

// A number, in the order of its size.
#[derive(Clone, Copy, Debug, PartialEq, Eq)]
struct Number(u32);

impl Summed for Number {
    ghost use Rattle.std.specs.Prelude.{max, nat_lt};
    ghost use Rattle.std.proofs.Common.{arith};

    type Sum = u32;

    ghost before = { λ a b. nat_lt a.0 b.0 };

    ghost sums = { record { own = λ a. a.0; joined = max } };

    ghost joins = { λ a b c. Prim.omega arith };

    ghost one_way = { λ a b e. Prim.grind arith };

    ghost splits = { λ a b c e. Prim.grind arith };

    fn is_before(&self, other: &Self) -> bool {
        self.0 < other.0
    }

    fn sum(&self) -> u32 {
        self.0
    }

    fn join(first: u32, second: u32) -> u32 {
        first.max(second)
    }
}

// Numbers are sought that reach this one.
impl Sought for Number {
    ghost use Rattle.std.specs.Prelude.{nat_le};
    ghost use Rattle.std.proofs.Common.{arith};

    type Wanted = u32;

    ghost passes = { nat_le };

    ghost either = { λ w a b. Prim.grind arith };

    fn has_sought(sum: u32, wanted: u32) -> bool {
        wanted <= sum
    }
}

// Puts a number into a tree in which it may be already.
fn put(forest: &mut Forest<Number>, tree: u32, number: u32) -> Result<(), NoMemory>
    requires { tree < length forest.old.trees }
    ensures { length forest.new.trees ≡ length forest.old.trees }
{
    let item = Number(number);
    let _was = forest.take(tree, item);
    forest.reserve(1)?;
    forest.insert(tree, item);
    Ok(())
}

// The numbers 0 to 9 in one of two trees, put in out of their order.
fn ten(forest: &mut Forest<Number>) -> Result<(), NoMemory>
    requires { 1 < length forest.old.trees }
    ensures { length forest.new.trees ≡ length forest.old.trees }
{
    for number in [4, 3, 8, 1, 0, 7, 9, 2, 6, 5, 4] {
        put(forest, 1, number)?;
    }
    Ok(())
}

// How many numbers of a tree follow each other by one, from this one on.
fn run_from(forest: &Forest<Number>, tree: u32, first: u32) -> u32
    requires { tree < length forest.now.trees }
{
    let mut at = first;
    for _ in 0..100 {
        match forest.after(tree, Number(at)) {
            Some(next) if next.0 > at && next.0 - at == 1 => at = next.0,
            _ => return at,
        }
    }
    at
}

// The numbers 0 to 9 in the second of two trees.
fn two_trees(alloc: Global) -> Result<Forest<Number>, NoMemory>
    ensures { IfOk result (λ forest. length forest.trees ≡ 2) }
{
    let mut forest = Forest::new(alloc, 2)?;
    ten(&mut forest)?;
    Ok(forest)
}

// Ten numbers stand in their order, and two trees keep to themselves.
#[test]
fn numbers_stand_in_order(rt: HostRuntime) -> Result<(), Fail> {
    let forest = two_trees(rt.alloc()).ok().ok_or("no memory")?;
    assert_eq!(rt; [forest.first(0), forest.first(1)], [None, Some(Number(0))]);
    assert_eq!(rt; [forest.sum(0), forest.sum(1)], [None, Some(9)]);
    assert_eq!(rt; run_from(&forest, 1, 0), 9);
    Ok(())
}

// What stands from 4 and from 5 on, and behind 5 and 9.
fn later(forest: &Forest<Number>) -> [Option<Number>; 4]
    requires { 1 < length forest.now.trees }
{
    [
        forest.from(1, Number(4)),
        forest.from(1, Number(5)),
        forest.after(1, Number(5)),
        forest.after(1, Number(9)),
    ]
}

// A number that was taken is passed over, and is not taken twice.
#[test]
fn numbers_leave(rt: HostRuntime) -> Result<(), Fail> {
    let mut forest = two_trees(rt.alloc()).ok().ok_or("no memory")?;
    let taken = [forest.take(1, Number(4)), forest.take(1, Number(4))];
    assert_eq!(rt; taken, [true, false]);
    assert!(rt; forest.room() > 0);
    assert_eq!(rt; run_from(&forest, 1, 0), 3);
    let want = [Some(Number(5)), Some(Number(5)), Some(Number(6)), None];
    assert_eq!(rt; later(&forest), want);
    Ok(())
}

// Puts a number in its own place, where it is there.
fn again(forest: &mut Forest<Number>, tree: u32, number: u32)
    requires { tree < length forest.old.trees }
    ensures { length forest.new.trees ≡ length forest.old.trees }
{
    let item = Number(number);
    if forest.get(tree, item).is_some() {
        forest.replace(tree, item);
    }
}

// Two numbers by themselves, and two by the least sum that they pass, first in their tree and then behind a number.
fn sought(forest: &Forest<Number>) -> [Option<Number>; 6]
    requires { 1 < length forest.now.trees }
{
    [
        forest.get(1, Number(6)),
        forest.get(1, Number(10)),
        forest.first_passing(1, 7),
        forest.first_passing(1, 10),
        forest.next_passing(1, Number(7), 3),
        forest.next_passing(1, Number(9), 3),
    ]
}

// The sums of a range, and of one that ends before it begins.
fn between(forest: &Forest<Number>) -> [Option<u32>; 2]
    requires { 1 < length forest.now.trees }
{
    [
        forest.sum_between(1, Number(2), Number(7)),
        forest.sum_between(1, Number(7), Number(2)),
    ]
}

// A number is found again, and by what its tree's sums say, and a range is summed.
#[test]
fn numbers_are_sought(rt: HostRuntime) -> Result<(), Fail> {
    let mut forest = two_trees(rt.alloc()).ok().ok_or("no memory")?;
    let (six, seven, eight) = (Some(Number(6)), Some(Number(7)), Some(Number(8)));
    assert_eq!(rt; sought(&forest), [six, None, seven, None, eight, None]);
    assert_eq!(rt; between(&forest), [Some(6), None]);
    again(&mut forest, 1, 6);
    assert_eq!(rt; run_from(&forest, 1, 0), 9);
    Ok(())
}
