//! The words of the command line of `cta`, read by `clap`.
//!
//! The words behind the program's own name have one of four forms: `replay SITE`, `serve SITE ADDR MEDIA WORKERS`,
//! `mill SEED FILES WORKERS` and `durable SITE ADDR MEDIA WORKERS JOURNAL`. No word is empty or begins with `-`, so there is no
//! option, no `--help` and no `--`. `read_words` gives the form that the words have, or `WordsError::Usage` exactly where they
//! have none. `read_mill` gives the numbers of `mill SEED FILES WORKERS`, and with their number `read_serve` gives the words of
//! `serve SITE ADDR MEDIA WORKERS` and `read_durable` those of `durable SITE ADDR MEDIA WORKERS JOURNAL`.
#![tactic(auto)]

mod command;
mod durable;
mod form;
mod found;
mod numbers;
mod plain;
mod read;
mod serving;

pub use durable::{DurableWords, read_durable};
pub use form::{Form, WordsError};
pub use numbers::{MillNumbers, number_in, read_mill, workers_of};
pub use read::read_words;
pub use serving::{ServeWords, read_serve};
