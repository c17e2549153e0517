//! What all public types here and above are made of: `Text`, which contracts see as its bytes, and `Rows`, which they see as its items and the
//! room that is left; and `NoMemory`, the answer of a call whose allocation failed.
#![tactic(auto)]

mod named;
mod no_memory;
mod rows;
mod text;

pub use named::Named;
pub use no_memory::NoMemory;
pub use rows::Rows;
pub use text::Text;
