//! The load of `cta mill`: its site, and its files, which a seed determines.
#![tactic(auto)]

mod elements;
mod files;
mod numbers;
mod paths;
mod site;

pub use files::{file_bytes, file_len, first_files_are_known};
pub use numbers::Numbers;
pub use paths::{big_path, file_path, paths_differ};
pub use site::{mill_site, mill_site_is_valid};
