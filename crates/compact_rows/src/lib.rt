//! Records in compact rows, as a large tree stores them: a row has the words that its record uses, and no others.
//!
//! Look first at `to_compact` and `from_compact`: each record that a row can spell has one compact spelling (`compact_words` in
//! specs/Spelling), and words are read as a record exactly where they spell it. docs/FORMATS.md draws the layout. The first eight bytes of
//! all keys stand side by side, so that a bisection reads one word a step.
//!
//! Everything above the memory speaks of the other spelling, that of `record_slots` (`words_of`), in small and in large trees. `seen_in` computes
//! each word of that row from the compact words, and `look_spread` does so by looks at them, where they lie: so the searches of `row_search` need not
//! know in which form a record is stored.
//!
//! Called by `tree_words` and `table_rule`, whose definitions name `compact_words`, and by `running_tree`, which writes (`compact_in`), looks
//! (`CompactRows`, `look_spread`) and reads whole rows (`seen_in`). It knows no limits, so not which trees are large; no table, and no
//! chain: the row under a record is a number.

#![tactic(auto)]

mod compact_row;
mod laws;
mod layout;
mod read;
mod seen;
mod short;
mod spread;
mod write;

pub use compact_row::CompactRow;
pub use laws::{compact_spelling_is_one, records_have_room, words_are_seen};
pub use layout::{COMPACT_FORM, MOST_WORDS, SECOND_UNIT};
pub use read::from_compact;
pub use seen::seen_in;
pub use spread::{CompactRows, length_spread, look_spread, word_spread};
pub use write::{compact_in, to_compact};
