//! The accepted asks of users, carried out over the kept history and the parts: Put and Delete, and those of stage requests,
//! Stage, Cancel, DropStage and Release.
#![tactic(auto)]

mod asked;
mod births;
mod cancels;
mod copies;
mod delete;
mod drops;
mod jobs;
mod named;
mod pins;
mod put;
mod recalls;
mod releases;
mod repacks;
mod requested;
mod sorting;
mod stages;
mod statuses;
mod waiting;
mod wanted;

pub use cancels::cancel;
pub use delete::delete_file;
pub use drops::drop_request;
pub use put::{PutBack, put_file};
pub use releases::release;
pub use stages::stage;
