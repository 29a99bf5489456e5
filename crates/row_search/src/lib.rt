//! Searches in a record where it lies, in a row that was read and doesn't change: they load the words that they need, and copy no row.
//!
//! Look first at `RowAt`: a record that was read, as its row's number and its first word. It returns what the record has at a key, its bounds,
//! the row under it, its items' keys, and how many items are below a bound. `Rows` is the memory: what a look (a plain load) takes, and what it
//! returns. `KeyWords` is a key as words, compared word by word.
//!
//! Called by `row_chain` for every record of a page, by `rounds`, and by all that read records (`step_core`, `running_tree`), whose memories
//! are such rows. It knows one row at a time, and neither how it was read nor why it stays: each search requires that its record was read. What
//! a chain of rows decides is in `row_chain`.
#![tactic(auto)]

mod key_words;
mod row_at;
mod rows;
mod told;

pub use key_words::KeyWords;
pub use row_at::RowAt;
pub use rows::{Rows, Text};
pub(crate) use told::Told;
