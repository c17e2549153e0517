// What each caller has to do.
ghost use Rattle.std.specs.Prelude.{◌≤◌, ◌<◌};

/// The files of one caller: those from one index to below another.
#[derive(Clone, Copy, Drop)]
pub(crate) struct Share {
    pub(crate) from: u32,
    pub(crate) to: u32,
}

// The share of a caller, of so many. Shares of callers in order follow one another, and together they are all files. No clause says so:
// who puts together what callers did holds each share against the one before it.
pub(crate) fn share_of(files: u32, callers: u32, caller: u32) -> Share
    requires { (files ≤ 10000) × (0 < callers) × (callers ≤ 64) × (caller < 64) }
{
    Share {
        from: files * caller / callers,
        to: files * (caller + 1) / callers,
    }
}
