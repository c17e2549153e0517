// What a call is to add to the parts.

/// How many additions of each kind there is to be room for: births, subscriptions, claims and charges of jobs (`jobs`), jobs
/// that wait to be written (`writes`) and recalls that wait to be read (`reads`), files and pins of the buffer (`files`), places of copies
/// (`places`), open mounts (`mounts`) and failed copies (`failed`). This project's own.
#[derive(Clone, Copy, Debug, Default, PartialEq, Eq)]
pub struct Needs {
    pub jobs: u32,
    pub writes: u32,
    pub reads: u32,
    pub files: u32,
    pub places: u32,
    pub mounts: u32,
    pub failed: u32,
}
