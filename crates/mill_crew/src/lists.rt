// The files of a mill, listed.
ghost use Rattle.std.specs.Prelude.{◌≡◌, ◌≤◌, IfOk, map};
ghost use Rattle.std.specs.List.{range_with_len};
ghost use Rattle.load_mill.specs.Files.{file_path};
ghost use Rattle.mill_crew.specs.Contents.{bytes_of};

use cta_model::Wanted;
use cta_site::{NoMemory, Rows, Text};
use load_mill::{Numbers, file_path};
use std::alloc::Global;

/// The paths of so many files, in the order of their indices. NoMemory leaves nothing. Its cost is the number of files.
pub fn file_paths(alloc: Global, files: u32) -> Result<Rows<Text>, NoMemory>
    ensures { IfOk result (λ paths. paths.items ≡ map file_path (range_with_len 0 files)) }
{
    let mut paths = Vec::new(alloc);
    for at in 0..files {
        paths.push(file_path(alloc, at)?)?;
    }
    Ok(Rows::of(paths))
}

// So many files as a Stage wants them, in the order of their indices.
pub(crate) fn wanted_files(alloc: Global, files: u32) -> Result<Rows<Wanted>, NoMemory> {
    let mut wanted = Vec::new(alloc);
    for at in 0..files {
        let path = file_path(alloc, at)?;
        wanted.push(Wanted {
            path,
            lifetime: None,
        })?;
    }
    Ok(Rows::of(wanted))
}

/// The sizes of so many files, at most 10,000, added up. It takes no memory; its cost is the number of files.
pub fn total_len(seed: u64, files: u32) -> u64
    requires { files ≤ 10000 }
    ensures { result ≡ bytes_of seed files }
{
    let mut total: u64 = 0;
    let mut numbers = Numbers::behind(seed, 0);
    for _file in 0..files {
        numbers.next();
        total += numbers.file_len();
    }
    total
}
