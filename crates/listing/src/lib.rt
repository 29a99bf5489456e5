//! The pairs of a log, and those of a memory, leaf by leaf, whatever keeps the memory.
//!
//! Look first at `add_pairs`, and at `page_of`: the memory of a core and one of words are read alike, as `RecordRows`. `logged_pairs` lists the
//! pairs of a log of updates; `pages_are_listed` is the law that both are one list.
//!
//! Called by `step_core` (a core's listing), `running_tree` (the pairs of a closed tree) and `tree_picture`; `bw_shell` cites the definition of
//! a listing (`IsListing`). It knows no operation under way: it reads a memory that doesn't change.
#![tactic(auto)]

mod count;
mod leaf_page;
mod listed_pages;
mod log;
mod page;
mod pairs;

pub use count::count_pairs;
pub use leaf_page::{LeafPage, page_from};
pub use listed_pages::{pages_are_listed, pages_are_shown};
pub use log::logged_pairs;
pub use page::{page_of, rows_of};
pub use pairs::add_pairs;
