// The paths of a journal's files.
ghost use Rattle.std.specs.Prelude.{◌≡◌, ◌++◌, IfOk, codes, string_bytes};

use std::alloc::{AllocError, Global};

// The journal, its copy, the mark that its last run ended well, and their folder.
#[derive(Drop)]
pub(crate) struct Paths {
    pub(crate) journal: String,
    pub(crate) copy: String,
    pub(crate) mark: String,
    pub(crate) folder: String,
}

// A path with an ending.
fn with_ending(alloc: Global, path: &str, ending: &str) -> Result<String, AllocError>
    ensures { IfOk result (λ s. string_bytes s ≡ path.now ++ ending.now) }
{
    let mut text = String::from_str(alloc, path)?;
    text.push_str(ending)?;
    Ok(text)
}

// The folder of a file: what stands before the last slash of its path, if anything does.
fn folder_of(path: &str) -> &str {
    match path.rsplit_once('/') {
        None => ".",
        Some((folder, _)) => { if folder.is_empty() { "/" } else { folder } }
    }
}

impl Paths {
    pub(crate) fn of(alloc: Global, path: &str) -> Result<Paths, AllocError>
        ensures journal { IfOk result (λ p. string_bytes p.journal ≡ path.now) }
        ensures copy { IfOk result (λ p. string_bytes p.copy ≡ path.now ++ codes ".new") }
        ensures mark { IfOk result (λ p. string_bytes p.mark ≡ path.now ++ codes ".ended") }
    {
        Ok(Paths {
            journal: String::from_str(alloc, path)?,
            copy: with_ending(alloc, path, ".new")?,
            mark: with_ending(alloc, path, ".ended")?,
            folder: String::from_str(alloc, folder_of(path))?,
        })
    }

    // Paths of no files.
    pub(crate) fn none(alloc: Global) -> Paths {
        Paths {
            journal: String::new(alloc),
            copy: String::new(alloc),
            mark: String::new(alloc),
            folder: String::new(alloc),
        }
    }
}
