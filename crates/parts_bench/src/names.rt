// The index of names.
use crate::report::{Report, tell};
use cta_site::Text;
use path_index::PathIndex;
use std::alloc::{AllocError, Global};
use std::hash::RandomState;
use std::io;
use std::time::Instant;

const CALLS: [&str; 3] = ["path_index.add", "path_index.file", "path_index.remove"];

// The paths of so many files.
fn paths_of(alloc: Global, files: u32) -> Result<Vec<String>, AllocError> {
    let mut paths = Vec::new(alloc);
    for file in 0..files {
        paths.push(format!(in alloc; "/data/atlas/file{file}")?)?;
    }
    Ok(paths)
}

// The same as texts.
fn texts_of(alloc: Global, paths: &[String]) -> Result<Vec<Text>, AllocError> {
    let mut texts = Vec::new(alloc);
    for path in paths {
        texts.push(Text::of(String::from_str(alloc, path.as_str())?))?;
    }
    Ok(texts)
}

fn add_all(index: &mut PathIndex, texts: &mut Vec<Text>, files: u32) -> u32 {
    for file in 0..files {
        let Some(text) = texts.pop() else {
            return file;
        };
        if index.add(text, file).is_err() {
            return file;
        }
    }
    files
}

fn find_all(index: &PathIndex, paths: &[String]) -> u32 {
    let mut found = 0u32;
    for path in paths {
        if index.file(path.as_bytes()).is_some() {
            found = found.wrapping_add(1);
        }
    }
    found
}

fn remove_all(index: &mut PathIndex, paths: &[String]) -> u32 {
    let mut found = 0u32;
    for path in paths {
        if index.remove(path.as_bytes()).is_some() {
            found = found.wrapping_add(1);
        }
    }
    found
}

fn row(
    index: &mut PathIndex,
    texts: &mut Vec<Text>,
    paths: &[String],
    files: u32,
    at: usize,
) -> u32 {
    match at {
        0 => add_all(index, texts, files),
        1 => find_all(index, paths),
        _ => remove_all(index, paths),
    }
}

fn run_lines(
    rt: &HostRuntime,
    report: Report,
    index: &mut PathIndex,
    texts: &mut Vec<Text>,
    paths: &[String],
) -> io::Result<()> {
    for at in 0..3 {
        let start = Instant::now(rt)?;
        let calls = row(index, texts, paths, report.files, at);
        tell(rt, report, CALLS[at], start, calls)?;
    }
    Ok(())
}

// Prints the lines of the index over these paths.
fn run_paths(rt: &HostRuntime, report: Report, paths: &[String]) -> io::Result<()> {
    let mut texts = texts_of(rt.alloc(), paths)?;
    let keys = RandomState::new(rt)?;
    let mut index = PathIndex::new(rt.alloc(), keys);
    run_lines(rt, report, &mut index, &mut texts, paths)
}

// Prints the lines of the index.
pub fn run(rt: &HostRuntime, report: Report) -> io::Result<()> {
    let paths = paths_of(rt.alloc(), report.files)?;
    run_paths(rt, report, paths.as_slice())
}
