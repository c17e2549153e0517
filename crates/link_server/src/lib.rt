//! A link, served over the hall of an archive: its bytes are read as requests, each is one turn of the archive that all threads share,
//! and the replies are written in their order.
#![tactic(auto)]

mod callers;
mod front;
mod laws;
mod serving;

pub use front::ArchiveFront;
pub use laws::replies_are_the_archives;
pub use outside::LinkEnd;
pub use serving::{LinkFault, serve_link};
