// Paths of files, and counts.
ghost use Rattle.std.specs.Prelude.{◌≡◌, IfOk};
ghost use Rattle.books_bench.specs.Batches.{path_named};

use cta_site::{NoMemory, Text};
use std::alloc::Global;

// The path of a file.
pub fn path_of(alloc: Global, file: u32) -> Result<Text, NoMemory>
    ensures { IfOk result (λ path. path ≡ path_named file) }
{
    let path = format!(in alloc; "/data/atlas/file{file}")?;
    Ok(Text::of(path))
}

// The paths of the files of a range.
pub fn paths_of(alloc: Global, first: u32, end: u32) -> Result<Vec<Text>, NoMemory> {
    let mut paths = Vec::new(alloc);
    for file in first..end {
        paths.push(path_of(alloc, file)?)?;
    }
    Ok(paths)
}

// How many files a list of this length has.
pub fn count_of(len: usize) -> u32 {
    u32::try_from(len).unwrap_or(u32::MAX)
}
