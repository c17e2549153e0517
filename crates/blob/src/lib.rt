//! The content of an archive's files: bytes that are kept together with their sum, the sum that tells one content from
//! another (its length in bytes and its SHA-256), the maker that takes a content in pieces, and the meaning of a medium
//! that tells its records.
#![tactic(auto)]

mod blobs;
mod maker;
mod no_memory;
mod sum;
mod told;

pub use blobs::Blob;
pub use maker::BlobMaker;
pub use no_memory::NoMemory;
pub use sum::{Sum256, sum_of};
pub use told::Told;

#[cfg(test)]
mod tests;
