// The routes: which endpoint a target names, and what a method means there.
ghost use Rattle.std.specs.Prelude.{◌≡◌, ◌∷◌, [], Some, option_copied};
ghost use Rattle.tape_routes.specs.Router.{IsTextOf};
ghost use Rattle.tape_routes.specs.Routes.{Below, parameter_in, meaning_in, meaning_of, allowed_at};

use cta_site::Text;

// The endpoints that have a route.
#[derive(Clone, Copy)]
pub(crate) enum Endpoint {
    WellKnown,
    Stage,
    StageRequest,
    StageCancel,
    Release,
    ArchiveInfo,
    Data,
    DriveUp,
    DriveDown,
    Tape,
    TapeState,
    TapeReclaim,
    Repack,
    RepackRequest,
    Failed,
    FailedRetry,
    Queues,
}

pub(crate) const ENDPOINTS: [Endpoint; 17] = [
    Endpoint::WellKnown,
    Endpoint::Stage,
    Endpoint::StageRequest,
    Endpoint::StageCancel,
    Endpoint::Release,
    Endpoint::ArchiveInfo,
    Endpoint::Data,
    Endpoint::DriveUp,
    Endpoint::DriveDown,
    Endpoint::Tape,
    Endpoint::TapeState,
    Endpoint::TapeReclaim,
    Endpoint::Repack,
    Endpoint::RepackRequest,
    Endpoint::Failed,
    Endpoint::FailedRetry,
    Endpoint::Queues,
];

// What a method asks at an endpoint.
#[derive(Clone, Copy)]
pub(crate) enum Meaning {
    Service,
    Stage,
    StageInfo,
    DropStage,
    Cancel,
    Release,
    ArchiveInfo,
    Put,
    Fetch,
    Delete,
    DriveUp,
    DriveDown,
    TapeInfo,
    TapeState,
    Reclaim,
    Repack,
    RepackInfo,
    FailedList,
    Retry,
    Queues,
}

// What goes on below this text in a target, with the slash.
pub(crate) fn below<'a>(target: &'a [u8], text: &str) -> Option<&'a [u8]>
    ensures { option_copied result ≡ parameter_in (Below text.now) target.now }
{
    let rest = target.strip_prefix(text.as_bytes())?;
    if rest.len() >= 2 && rest[0] == b'/' {
        Some(rest)
    } else {
        None
    }
}

impl Endpoint {
    // The text of this endpoint's route, as a router reads it.
    #[tactic(auto, unfolding(matchit::specs::Route::scan))]
    pub(crate) fn text(self) -> &'static str
        ensures { IsTextOf self result.now }
    {
        match self {
            Endpoint::WellKnown => "/.well-known/wlcg-tape-rest-api",
            Endpoint::Stage => "/api/v1/stage",
            Endpoint::StageRequest => "/api/v1/stage/{id}",
            Endpoint::StageCancel => "/api/v1/stage/{id}/cancel",
            Endpoint::Release => "/api/v1/release/{id}",
            Endpoint::ArchiveInfo => "/api/v1/archiveinfo",
            Endpoint::Data => "/data/{*path}",
            Endpoint::DriveUp => "/admin/v1/drive/{drive}/up",
            Endpoint::DriveDown => "/admin/v1/drive/{drive}/down",
            Endpoint::Tape => "/admin/v1/tape/{vid}",
            Endpoint::TapeState => "/admin/v1/tape/{vid}/state",
            Endpoint::TapeReclaim => "/admin/v1/tape/{vid}/reclaim",
            Endpoint::Repack => "/admin/v1/repack",
            Endpoint::RepackRequest => "/admin/v1/repack/{id}",
            Endpoint::Failed => "/admin/v1/failed",
            Endpoint::FailedRetry => "/admin/v1/failed/retry",
            Endpoint::Queues => "/admin/v1/queues",
        }
    }

    // What a method means here, if it is one of this endpoint's.
    pub(crate) fn meaning(self, method: &Text) -> Option<Meaning>
        ensures { result ≡ meaning_of self method.now }
    {
        match self {
            Endpoint::WellKnown => only(method, "GET", Meaning::Service),
            Endpoint::Stage => only(method, "POST", Meaning::Stage),
            Endpoint::StageRequest => request_meaning(method),
            Endpoint::StageCancel => only(method, "POST", Meaning::Cancel),
            Endpoint::Release => only(method, "POST", Meaning::Release),
            Endpoint::ArchiveInfo => only(method, "POST", Meaning::ArchiveInfo),
            Endpoint::Data => data_meaning(method),
            Endpoint::DriveUp => only(method, "POST", Meaning::DriveUp),
            Endpoint::DriveDown => only(method, "POST", Meaning::DriveDown),
            Endpoint::Tape => only(method, "GET", Meaning::TapeInfo),
            Endpoint::TapeState => only(method, "POST", Meaning::TapeState),
            Endpoint::TapeReclaim => only(method, "POST", Meaning::Reclaim),
            Endpoint::Repack => only(method, "POST", Meaning::Repack),
            Endpoint::RepackRequest => only(method, "GET", Meaning::RepackInfo),
            Endpoint::Failed => only(method, "GET", Meaning::FailedList),
            Endpoint::FailedRetry => only(method, "POST", Meaning::Retry),
            Endpoint::Queues => only(method, "GET", Meaning::Queues),
        }
    }

    // The methods of this endpoint, in byte order.
    pub(crate) fn allowed(self) -> &'static str
        ensures { result.now ≡ allowed_at self }
    {
        match self {
            Endpoint::StageRequest => "DELETE, GET",
            Endpoint::Data => "DELETE, GET, PUT",
            Endpoint::WellKnown
            | Endpoint::Tape
            | Endpoint::RepackRequest
            | Endpoint::Failed
            | Endpoint::Queues => "GET",
            _ => "POST",
        }
    }
}

// What a method means where there is one.
fn only(method: &Text, name: &str, meaning: Meaning) -> Option<Meaning>
    ensures { result ≡ meaning_in (record { name = name.now; meaning = meaning } ∷ []) method.now }
{
    if method.is(name.as_bytes()) {
        Some(meaning)
    } else {
        None
    }
}

// What a method means at a stage request.
fn request_meaning(method: &Text) -> Option<Meaning>
    ensures { result ≡ meaning_of Endpoint.StageRequest method.now }
{
    if method.is(b"DELETE") {
        Some(Meaning::DropStage)
    } else {
        only(method, "GET", Meaning::StageInfo)
    }
}

// What a method means at a file.
fn data_meaning(method: &Text) -> Option<Meaning>
    ensures { result ≡ meaning_of Endpoint.Data method.now }
{
    if method.is(b"DELETE") {
        Some(Meaning::Delete)
    } else if method.is(b"GET") {
        Some(Meaning::Fetch)
    } else {
        only(method, "PUT", Meaning::Put)
    }
}
