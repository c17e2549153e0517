// The paths of the files.
ghost use Rattle.std.specs.Prelude.{ℕ, ◌≡◌, ◌≢◌, ◌<◌, [], ◌∷◌, IfOk};
ghost use Rattle.load_mill.specs.Files.{big_path, digit, file_path};

use cta_site::{NoMemory, Text};
use std::alloc::Global;

// The last decimal digit of a number.
fn digit(n: u32) -> &'static str
    ensures { result.now ≡ digit n ∷ [] }
{
    match n % 10 {
        0 => "0",
        1 => "1",
        2 => "2",
        3 => "3",
        4 => "4",
        5 => "5",
        6 => "6",
        7 => "7",
        8 => "8",
        _ => "9",
    }
}

/// The path of the file of this index: `/mill/f` and the index as six decimal digits, which are its last six where it
/// has more. Its cost is constant; NoMemory leaves nothing.
pub fn file_path(alloc: Global, index: u32) -> Result<Text, NoMemory>
    ensures { IfOk result (λ path. path ≡ file_path index) }
{
    let mut path = String::new(alloc);
    path.push_str("/mill/f")?;
    path.push_str(digit(index / 100000))?;
    path.push_str(digit(index / 10000))?;
    path.push_str(digit(index / 1000))?;
    path.push_str(digit(index / 100))?;
    path.push_str(digit(index / 10))?;
    path.push_str(digit(index))?;
    Ok(Text::of(path))
}

/// The path of the file that fills the buffer, `/mill/x`, for which all others are evicted. Its cost is constant;
/// NoMemory leaves nothing.
pub fn big_path(alloc: Global) -> Result<Text, NoMemory>
    ensures { IfOk result (λ path. path ≡ big_path) }
{
    let mut path = String::new(alloc);
    path.push_str("/mill/x")?;
    Ok(Text::of(path))
}

/// Files whose indices differ and are below a million have paths that differ, and no file has the path of the file that
/// fills the buffer: a law, which does nothing when it runs.
pub fn paths_differ()
    ensures files { (j k : ℕ) → j < 1000000 → k < 1000000 → file_path j ≡ file_path k → j ≡ k }
    ensures big { (k : ℕ) → file_path k ≢ big_path }
{}
