//! The definitions and laws of rounds, which are traversals from the root to a page: the model of the crate `rounds`.
//!
//! Look first at specs/ReadRounds and specs/WriteRounds: what a reader's and a writer's round reads next, how it continues from a page, and how
//! it ends. Ways, Visits and Descents have what both share. `read_rounds_follow` and `write_rounds_follow` are the laws: what a round shows
//! after each answer, and that it takes few reads.
//!
//! Called by `op_machine` for its laws, and cited by `rounds`, whose contracts are these definitions over places. It has no code that runs, and
//! knows no places: a page in hand is a value here.
#![tactic(auto)]

mod round_laws;

pub use round_laws::{
    left_rounds_stay, read_leaves_stood, read_rounds_follow, removals_are_due, rounds_are_short,
    write_rounds_follow,
};
