// What the state tells of stage requests.
ghost use Rattle.std.specs.Prelude.{◌≡◌, IfOk, is_some, map, option_map, slice_get};
ghost use Rattle.std.specs.List.{list_all};
ghost use Rattle.cta_model.specs.History.{has_text};
ghost use Rattle.cta_model.specs.Reports.{stage_report};
ghost use Rattle.cta_model.specs.Stages.{request_of};
ghost use Rattle.part_model.specs.Requests.{has_path_in, request_in};
ghost use Rattle.part_laws.specs.Told.{file_told, is_held_by};
ghost use Rattle.stage_book.specs.Reports as book;
ghost use Rattle.stage_book.specs.Reports.{bare_info, files_of, number_of};
ghost use Rattle.archive_state.specs.Requests.{info_told, marked, paths_of};

use crate::state::ArchiveState;
use blob::Told;
use cta_model::{StageFileInfo, StageInfo};
use cta_site::{NoMemory, Rows, Text};
use disk_buffer::DiskBuffer;
use stage_book::StageBook;
use std::alloc::Global;

// Whether a request has each of these paths.
fn has_all(requests: &StageBook, id: u32, paths: &[Text]) -> bool
    ensures { result ≡ list_all (λ p. has_path_in requests.now id p) paths.now }
{
    paths.iter().all(|path| requests.has(id, path.as_bytes()))
}

// Whether the file at a place of a request is in the buffer.
fn is_on_disk(requests: &StageBook, buffer: &DiskBuffer, id: u32, at: usize) -> bool
    ensures { result ≡ is_held_by buffer.now.held.value (number_of (slice_get (files_of (request_in requests.now id)) at)) }
{
    match requests.file(id, at) {
        Some(file) => buffer.is_held(file),
        None => false,
    }
}

// A text where there is one, once more.
fn copy_text(text: &Option<Text>) -> Result<Option<Text>, NoMemory>
    ensures { IfOk result (λ told. told ≡ text.now) }
{
    match text {
        Some(text) => {
            let copy = text.copy()?;
            Ok(Some(copy))
        }
        None => Ok(None),
    }
}

// What is told of a file of a request, with this word of whether it is on disk. NoMemory gives nothing.
fn mark(info: &StageFileInfo, on_disk: bool) -> Result<StageFileInfo, NoMemory>
    ensures { IfOk result (λ told. told ≡ marked info.now on_disk) }
{
    let path = info.path.copy()?;
    let error = copy_text(&info.error)?;
    Ok(StageFileInfo {
        path,
        state: info.state,
        on_disk,
        started_at: info.started_at,
        finished_at: info.finished_at,
        error,
    })
}

// What is told of the files of a request, of which the book tells this. NoMemory gives nothing.
fn mark_all(
    alloc: Global,
    requests: &StageBook,
    buffer: &DiskBuffer,
    id: u32,
    told: &[StageFileInfo],
) -> Result<Rows<StageFileInfo>, NoMemory>
    requires { told.now ≡ map book.file_told (files_of (request_in requests.now id)) }
    ensures { IfOk result (λ files. files.items ≡ map (file_told buffer.now.held.value) (files_of (request_in requests.now id))) }
{
    let mut files = Vec::new(alloc);
    for at in 0..told.len() {
        let info = mark(&told[at], is_on_disk(requests, buffer, id, at))?;
        files.push(info)?;
    }
    Ok(Rows::of(files))
}

// What is told of a request by the book and the buffer. NoMemory gives nothing.
fn tell(
    alloc: Global,
    requests: &StageBook,
    buffer: &DiskBuffer,
    id: u32,
) -> Result<Option<StageInfo>, NoMemory>
    ensures { IfOk result (λ told. option_map bare_info told ≡ option_map (info_told buffer.now.held.value id) (request_in requests.now id)) }
{
    let Some(told) = requests.info(id)? else {
        return Ok(None);
    };
    let files = mark_all(alloc, requests, buffer, id, told.files.as_slice())?;
    Ok(Some(StageInfo {
        id,
        created_at: told.created_at,
        started_at: told.started_at,
        completed_at: told.completed_at,
        files,
    }))
}

impl<M: Told + Drop> ArchiveState<M> {
    /// Whether there is a stage request of this number, which was made and not dropped. In constant time.
    pub fn knows_request(&self, id: u32) -> bool
        ensures { result ≡ is_some (request_of self.now.site self.now.history id) }
    {
        let _history = &self.history;
        self.parts.requests.knows(id)
    }

    /// Whether each of these paths is one of the stage request's; where there is no such request, no path is. Its cost is the length of
    /// the paths.
    pub fn has_paths(&self, id: u32, paths: &[Text]) -> bool
        ensures { result ≡ list_all (λ p. has_text p (paths_of (request_of self.now.site self.now.history id))) paths.now }
    {
        let _history = &self.history;
        has_all(&self.parts.requests, id, paths)
    }

    /// What is told of a stage request, None exactly where there is none of this number: how each of its files stands, and whether it is
    /// in the buffer now. NoMemory gives nothing. Its cost is the number of the request's files and the length of their paths and errors.
    pub fn stage_info(&self, id: u32) -> Result<Option<StageInfo>, NoMemory>
        ensures { IfOk result (λ told. option_map bare_info told ≡ option_map (stage_report self.now.history id) (request_of self.now.site self.now.history id)) }
    {
        let _history = &self.history;
        tell(self.alloc, &self.parts.requests, &self.parts.buffer, id)
    }
}
