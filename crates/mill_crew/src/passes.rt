// The passes of workers.
ghost use Rattle.std.specs.Prelude.{All, IfOk};
ghost use Rattle.turn_hall.specs.Handles.{IsPassOf};

use cta_site::NoMemory;
use std::alloc::Global;
use turn_hall::{Hall, Keeps, Pass};

// Cuts a pass into passes with one seat each.
fn deal<T: Keeps>(hall: &Hall<T>, pass: Pass<T>, passes: &mut Vec<Pass<T>>) -> Result<(), NoMemory>
    requires here { IsPassOf T.site hall.now pass }
    requires passes { All (IsPassOf T.site hall.now) passes.old.items }
    ensures passes { IfOk result (λ _. All (IsPassOf T.site hall.now) passes.new.items) }
{
    let mut pass = pass;
    match hall.split(&mut pass) {
        Some(other) => {
            deal(hall, pass, passes)?;
            deal(hall, other, passes)
        }
        None => {
            passes.push(pass)?;
            Ok(())
        }
    }
}

// Passes with one seat each, of half the seats of a pass.
pub(crate) fn split_passes<T: Keeps>(
    alloc: Global,
    hall: &Hall<T>,
    pass: &mut Pass<T>,
) -> Result<Vec<Pass<T>>, NoMemory>
    requires here { IsPassOf T.site hall.now pass.old }
    ensures here { IsPassOf T.site hall.now pass.new }
    ensures passes { IfOk result (λ v. All (IsPassOf T.site hall.now) v.items) }
{
    let mut passes = Vec::new(alloc);
    match hall.split(pass) {
        Some(other) => {
            deal(hall, other, &mut passes)?;
            Ok(passes)
        }
        None => Ok(passes),
    }
}

// One of the passes.
pub(crate) fn next_pass<T: Keeps>(
    hall: &Hall<T>,
    passes: &mut Vec<Pass<T>>,
) -> Result<Pass<T>, NoMemory>
    requires { All (IsPassOf T.site hall.now) passes.old.items }
    ensures pass { IfOk result (IsPassOf T.site hall.now) }
    ensures passes { IfOk result (λ _. All (IsPassOf T.site hall.now) passes.new.items) }
{
    let _hall = hall;
    match passes.pop() {
        Some(pass) => Ok(pass),
        None => Err(NoMemory),
    }
}

// Puts passes to another one.
pub(crate) fn join_passes<T: Keeps>(hall: &Hall<T>, pass: &mut Pass<T>, others: Vec<Pass<T>>)
    requires here { IsPassOf T.site hall.now pass.old }
    requires others { All (IsPassOf T.site hall.now) others.items }
    ensures { IsPassOf T.site hall.now pass.new }
{
    for other in others {
        hall.join(pass, other);
    }
}
