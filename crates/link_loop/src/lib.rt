//! The loop over a link: its bytes are read as requests, each makes its call of what a hall keeps in a turn of its own, and the replies
//! are written in their order. What requests ask and what is replied says a front, so that the loop knows of no archive.
#![tactic(auto)]

mod answering;
mod front;
mod laws;
mod sending;
mod serving;
mod writing;

pub use front::{Front, Routed, Said};
pub use laws::{requests_are_asked, whole_links_are_asked};
pub use outside::LinkEnd;
pub use sending::Unserved;
pub use serving::serve;
