//! The reader of a site file: JSON by which an operator describes a tape archive's site. `read_site` gives the site
//! that the file tells, or the first broken one of rules 1 to 7 of a site file, which speak of the file as such; the
//! rules on how a site hangs together are tried by `Site::check` of `cta_site`.
#![tactic(auto)]

mod callers;
mod devices;
mod element;
mod file;
mod members;
mod read;
mod rules;
mod stores;
mod words;

pub use read::read_site;
