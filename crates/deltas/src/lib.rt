//! The nine kinds of record of a page's delta chain, and what each makes of the page under it.
//!
//! Look first at `Record`: a base has a whole page, each other kind is a delta over the record under it, which it names by its row. `apply` is
//! the meaning of all nine. `RecordRows` is any memory that can be read record by record. specs/Links, Fits and Memory define what linking a
//! record is (`Link`), which record fits which page, and the memory of slots, rows, free bits and epochs.
//!
//! Called by every layer that makes, spells or reads records, from `record_slots` on. It knows no words: how a record lies in a row is the
//! business of `record_slots`.
#![tactic(auto)]

mod applies;
mod record;
mod record_rows;
mod sizes;

pub use applies::apply;
pub use record::{Delete, Hold, Merge, Put, Record, Remove, Split, Term, Unterm};
pub use record_rows::RecordRows;
pub use sizes::{base_row_from, link_row_from};
