//! Words, numbers, names, keys, runs and lists of bytes: read and printed.
//!
//! The printed form is the grammar: a word is a number, a key or a run exactly where it is what one of them prints
//! as. Each reader says so from both sides: what it finds prints as the word, and where it finds nothing, nothing
//! does. Each printer adds exactly that text, and leaves the output as it was where no memory is left.
//!
//! Each module is a room: `number`, `key`, `name` and `runs` for the words of their names, `bytes` for the text of
//! a list of bytes, `lines` for cutting at separators, `words` for lines of so many words. How a room reads or
//! prints may change there; the definitions in `specs/` are what the crates above stand on.
#![tactic(auto)]

mod bytes;
mod key;
mod lines;
mod name;
mod number;
mod runs;
mod words;

pub use bytes::{RUNS_MAX, put_bytes, runs_are_maximal};
pub use key::{key_of, put_key};
pub use lines::{cut_at, parts};
pub use name::{ImageName, place_of};
pub use number::{number_between, number_of, put_number};
pub use runs::{put_run, run_of, runs_of};
pub use words::{first, four, is, one, three, two};
