//! Rows of the first form, with keys and values of at most 32 bytes and 256 words, as rows of today's form.
//!
//! Look first at `widen`, the one public call: it accepts words of the first form exactly where they spell a record, and returns today's
//! spelling of that record.
//!
//! Called by nobody in this repository but `layer_tests`: a tree is in memory and has rows of today's form alone. It is for programs that
//! have kept rows of the first form. It knows both layouts, and nothing of chains or trees.
#![tactic(auto)]

mod layout;
mod narrow;
mod rows;
mod spread;

pub use layout::{FIRST_LONGEST, FIRST_ROW_WORDS};
pub use rows::widen;
