// The words of the command line.
use std::env;

// How many groups are appended, of how many records, with bodies of how many bytes.
#[derive(Clone, Copy, Drop)]
pub(crate) struct Load {
    pub(crate) appends: u32,
    pub(crate) group: u32,
    pub(crate) bytes: u32,
}

// The path and the load that the words name, or None where they are of another form.
pub(crate) fn read_load(rt: &HostRuntime) -> Option<(String, Load)> {
    let mut words = env::args(rt).ok()?.skip(1);
    let path = words.next()?;
    let appends = words.next()?.parse().ok()?;
    let group = words.next()?.parse().ok()?;
    let bytes = words.next()?.parse().ok()?;
    Some((
        path,
        Load {
            appends,
            group,
            bytes,
        },
    ))
}
