//! A memory as one row of words, as a running tree keeps it: slots, words of free bits, the epoch, announced epochs, rows.
//!
//! Look first at specs/Changes and at `made_by`: which atomic operation on which word a step is. `opening_words` are the words of the tree of
//! one empty leaf; `word_place`, `row_place`, `slot_place` return where each part has its words. `Layout` has worked out where rows and slots begin.
//!
//! Called by `table_rule`, which makes the operations, and by `running_tree` at opening. It knows no seat and no thread: it defines what one
//! operation does to one word.
#![tactic(auto)]

mod changes;
mod examples;
mod opening;
mod operations;
mod places;

pub use changes::{operations_are_steps, steps_change_one_word};
pub use examples::{
    epochs_are_announced, exchanges_win_or_lose, free_bits_come_and_go, reads_leave_words,
    steps_have_words,
};
pub use opening::{opening_is_spelled, opening_words};
pub use operations::{Operation, made_by, told_by, word_place};
pub use places::{Layout, row_place, slot_place, width};
