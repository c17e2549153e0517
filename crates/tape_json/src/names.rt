// The words of reports.
ghost use Rattle.std.specs.Prelude.{◌≡◌, option_map};
ghost use Rattle.tape_json.specs.Reports.{file_state_name, locality_name, item_state_name, tape_state_name, direction_name, refusal_text};

use cta_model::{Direction, FileState, ItemState, Locality, Refusal};
use cta_site::TapeState;

pub(crate) fn file_state_name(state: FileState) -> &'static str
    ensures { result.now ≡ file_state_name state }
{
    match state {
        FileState::Submitted => "SUBMITTED",
        FileState::Started => "STARTED",
        FileState::Completed => "COMPLETED",
        FileState::Failed => "FAILED",
        FileState::Cancelled => "CANCELLED",
    }
}

pub(crate) fn locality_name(locality: Locality) -> &'static str
    ensures { result.now ≡ locality_name locality }
{
    match locality {
        Locality::DiskAndTape => "DISK_AND_TAPE",
        Locality::Tape => "TAPE",
        Locality::Disk => "DISK",
        Locality::Unavailable => "UNAVAILABLE",
        Locality::Lost => "LOST",
    }
}

pub(crate) fn item_state_name(state: ItemState) -> &'static str
    ensures { result.now ≡ item_state_name state }
{
    match state {
        ItemState::Reading => "READING",
        ItemState::Writing => "WRITING",
        ItemState::Done => "DONE",
        ItemState::Failed => "FAILED",
        ItemState::Gone => "GONE",
    }
}

pub(crate) fn tape_state_name(state: TapeState) -> &'static str
    ensures { result.now ≡ tape_state_name state }
{
    match state {
        TapeState::Active => "ACTIVE",
        TapeState::Disabled => "DISABLED",
        TapeState::Broken => "BROKEN",
        TapeState::Repacking => "REPACKING",
    }
}

pub(crate) fn direction_name(direction: Direction) -> &'static str
    ensures { result.now ≡ direction_name direction }
{
    match direction {
        Direction::Archive => "archive",
        Direction::Retrieve => "retrieve",
    }
}

pub(crate) fn refusal_text(refusal: Refusal) -> Option<&'static str>
    ensures { option_map (λ t. t.now) result ≡ refusal_text refusal }
{
    match refusal {
        Refusal::BadPath => Some("bad path"),
        Refusal::NoDirectory => Some("no directory"),
        Refusal::PathTaken => Some("path taken"),
        Refusal::NoSpace => Some("no space"),
        Refusal::HistoryFull => Some("history is full"),
        Refusal::NoFile => Some("no such file"),
        Refusal::NotResident => Some("not on disk"),
        Refusal::NoRequest => Some("no such request"),
        Refusal::ForeignPath => Some("path not in request"),
        Refusal::NoDrive => Some("no such drive"),
        Refusal::NoTape => Some("no such tape"),
        Refusal::TapeMounted => Some("tape is mounted"),
        Refusal::TapeBroken => Some("tape is broken"),
        Refusal::LiveFiles => Some("tape has live files"),
        Refusal::NotRepacking => Some("tape is not repacking"),
        Refusal::RepackLive => Some("repack is live"),
        Refusal::NoRepack => Some("no such repack"),
        Refusal::Unknown => None,
    }
}
