//! The connections of the links of a script: each link's bytes come in pieces between those of the others, and each gives its
//! requests, its 100 Continue and its refusal as if it were alone. `specs/Run.antt` says which events the bytes of a script's
//! records are.
#![tactic(auto)]

mod laws;
mod links;

pub use laws::{begins_empty, each_alone, free_order, one_run, pieces_join, runs_follow};
pub use links::Links;
