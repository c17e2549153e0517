// A file of a request.
ghost use Rattle.std.specs.Prelude.{◌≡◌, ◌&&◌, ◌+◌, Some, None, if◌then◌else◌, not, option_map, IfOk};
ghost use Rattle.cta_model.specs.Stages as stage;
ghost use Rattle.cta_model.specs.Pins.{is_completed};
ghost use Rattle.part_model.specs.Held.{kept_end};
ghost use Rattle.stage_book.specs.FileRows as said;

use cta_model::FileState;
use cta_site::{NoMemory, Text};
use part_model::FileEnd;
use std::alloc::Global;

// A file of a request: the file that its path named, for how many seconds it is to stay, its state, when it was first STARTED and when
// it ended, in seconds since 1970, its error, and whether it is released.
#[derive(Drop)]
pub(crate) struct FileRow {
    pub(crate) file: Option<u32>,
    pub(crate) lifetime: u64,
    pub(crate) state: FileState,
    pub(crate) started: Option<u64>,
    pub(crate) finished: Option<u64>,
    pub(crate) error: Option<Text>,
    pub(crate) released: bool,
}

// Whether a file in this state waits.
fn waits(state: FileState) -> bool
    ensures { result ≡ said.waits state }
{
    match state {
        FileState::Submitted => true,
        FileState::Started => true,
        FileState::Completed => false,
        FileState::Failed => false,
        FileState::Cancelled => false,
    }
}

// Whether a state is COMPLETED.
fn completed(state: FileState) -> bool
    ensures { result ≡ is_completed state }
{
    match state {
        FileState::Submitted => false,
        FileState::Started => false,
        FileState::Completed => true,
        FileState::Failed => false,
        FileState::Cancelled => false,
    }
}

// The moment of the first start.
fn first_start(started: Option<u64>, at: u64) -> Option<u64>
    ensures { result ≡ stage.first_start started at }
{
    match started {
        Some(start) => Some(start),
        None => Some(at),
    }
}

impl FileRow {
    // A file of a request of this moment: SUBMITTED, or FAILED where its path named none. NoMemory gives nothing. In constant time.
    pub(crate) fn new(
        alloc: Global,
        at: u64,
        file: Option<u32>,
        lifetime: u64,
    ) -> Result<FileRow, NoMemory>
        ensures { IfOk result (λ row. row ≡ said.new_row at file lifetime) }
    {
        match file {
            Some(number) => Ok(FileRow {
                file: Some(number),
                lifetime,
                state: FileState::Submitted,
                started: None,
                finished: None,
                error: None,
                released: false,
            }),
            None => {
                let error = String::from_str(alloc, "no such file")?;
                Ok(FileRow {
                    file: None,
                    lifetime,
                    state: FileState::Failed,
                    started: None,
                    finished: Some(at),
                    error: Some(Text::of(error)),
                    released: false,
                })
            }
        }
    }

    // It is STARTED where it waits.
    pub(crate) fn start(&mut self, at: u64)
        ensures { self.new ≡ said.started_at at self.old }
    {
        if !waits(self.state) {
            return;
        }
        self.state = FileState::Started;
        self.started = first_start(self.started, at);
    }

    // It ends so where it waits.
    pub(crate) fn finish(&mut self, at: u64, end: FileEnd)
        ensures { self.new ≡ said.ended_at at end self.old }
    {
        if !waits(self.state) {
            return;
        }
        self.finished = Some(at);
        match end {
            FileEnd::Completed => {
                self.state = FileState::Completed;
                self.error = None;
            }
            FileEnd::Cancelled => {
                self.state = FileState::Cancelled;
                self.error = None;
            }
            FileEnd::Failed(text) => {
                self.state = FileState::Failed;
                self.error = Some(text);
            }
        }
    }

    // Until when it is pinned, none where it is not. The greatest number stands for no end.
    pub(crate) fn pinned_until(&self) -> Option<u64>
        ensures { result ≡ (if is_completed self.now.state && not self.now.released then Some (kept_end (option_map (λ at. at + self.now.lifetime) self.now.finished)) else None) }
    {
        if !completed(self.state) {
            return None;
        }
        if self.released {
            return None;
        }
        match self.finished {
            Some(at) => Some(at.saturating_add(self.lifetime)),
            None => Some(u64::MAX),
        }
    }
}
