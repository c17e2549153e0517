//! The site: what a tape archive is given by its operator, and what follows from it by name.
//!
//! `Site` is a site as its file says it, and `Site::check` makes a `ValidSite` of one that keeps the rules of a site,
//! or names the first rule that it breaks and the element that breaks it. A `ValidSite` numbers its virtual
//! organisations, storage classes, tape pools, mount policies, libraries, tapes and drives from 0 in byte order of
//! their names, and answers by name: the storage class of a path, a caller's mount policy, the pool of a copy, the
//! number of a drive or a tape. The crate names again what its public
//! types are made of: `Text`, `Rows` and `NoMemory` of `cta_values`.
#![tactic(auto)]

mod check;
mod copies;
mod faults;
mod forms;
mod index;
mod items;
mod keys;
mod lookups;
mod name_map;
mod named;
mod names;
mod order;
mod paths;
mod ranges;
mod references;
mod site;
mod spelling;
mod tally;
mod valid_laws;
mod valid_site;

pub use check::SiteError;
pub use cta_values::{NoMemory, Rows, Text};
pub use items::{fault, is_within, unless};
pub use paths::is_path;
pub use site::{
    CallKind, Class, Directory, Drive, Failure, Limits, Policy, Route, Rule, RuleKind, Site, Tape,
    TapePool, TapeState, Vo,
};
pub use spelling::{are_address_bytes, is_name};
pub use valid_laws::{
    example_sites_are_valid, numbers_are_known, one_numbering, routes_go_apart,
    valid_is_well_formed,
};
pub use valid_site::ValidSite;
