// The statuses and texts of refusals.
ghost use Rattle.std.specs.Prelude.{◌≡◌};
ghost use Rattle.tape_routes.specs.Replies.{status_of, text_of};

use cta_model::Refusal;

// The status code of a refusal (RFC 9110, 15.5 and 15.6).
pub(crate) fn status_of(refusal: Refusal) -> u16
    ensures { result ≡ status_of refusal }
{
    match refusal {
        Refusal::BadPath | Refusal::NoDirectory | Refusal::ForeignPath => 400,
        Refusal::NoFile
        | Refusal::NoRequest
        | Refusal::NoDrive
        | Refusal::NoTape
        | Refusal::NoRepack => 404,
        Refusal::PathTaken
        | Refusal::NotResident
        | Refusal::TapeMounted
        | Refusal::TapeBroken
        | Refusal::LiveFiles
        | Refusal::NotRepacking
        | Refusal::RepackLive => 409,
        Refusal::Unknown => 500,
        Refusal::HistoryFull => 503,
        Refusal::NoSpace => 507,
    }
}

// The text of a refusal. This project's own.
pub(crate) fn text_of(refusal: Refusal) -> &'static str
    ensures { result.now ≡ text_of refusal }
{
    match refusal {
        Refusal::BadPath => "bad path",
        Refusal::NoDirectory => "no directory",
        Refusal::PathTaken => "path taken",
        Refusal::NoSpace => "no space",
        Refusal::HistoryFull => "history is full",
        Refusal::NoFile => "no such file",
        Refusal::NotResident => "not on disk",
        Refusal::NoRequest => "no such request",
        Refusal::ForeignPath => "path not in request",
        Refusal::NoDrive => "no such drive",
        Refusal::NoTape => "no such tape",
        Refusal::TapeMounted => "tape is mounted",
        Refusal::TapeBroken => "tape is broken",
        Refusal::LiveFiles => "tape has live files",
        Refusal::NotRepacking => "tape is not repacking",
        Refusal::RepackLive => "repack is live",
        Refusal::NoRepack => "no such repack",
        Refusal::Unknown => "",
    }
}
