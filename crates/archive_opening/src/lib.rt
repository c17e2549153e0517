//! What a program has before it answers anything: a site file is read from its source and checked, and an archive of its site is
//! made that has kept nothing yet, with the media and the drives that a bench makes. `read_valid_site` is the reading, and `read_archive` the
//! reading and the making as one call; their contracts say for each status when it comes and which bytes were taken then.
#![tactic(auto)]

mod drives;
mod opening;
mod site;
mod status;

pub use drives::drives_of;
pub use opening::{media_of, open_archive};
pub use site::{read_archive, read_valid_site};
pub use status::Status;
