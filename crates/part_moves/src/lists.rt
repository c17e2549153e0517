// Lists of numbers.
ghost use Rattle.std.specs.Prelude.{◌≡◌, ◌++◌, ◌≤◌, [], length, IfOk};

use cta_site::{NoMemory, Rows};
use std::alloc::Global;

/// An empty list with room for so many numbers. NoMemory gives nothing. Its cost is that of the memory. This project's own.
pub fn list_for(alloc: Global, count: u32) -> Result<Rows<u32>, NoMemory>
    ensures items { IfOk result (λ list. list.items ≡ []) }
    ensures room { IfOk result (λ list. count ≤ list.room) }
{
    let mut list = Rows::of(Vec::new(alloc));
    list.reserve(count)?;
    Ok(list)
}

/// Adds these numbers to a list with room for them. Its cost is their number. This project's own.
pub fn add_numbers(numbers: &[u32], out: &mut Rows<u32>)
    requires { length numbers.now ≤ out.old.room }
    ensures { out.new.items ≡ out.old.items ++ numbers.now }
{
    for number in numbers {
        out.push(*number);
    }
}
