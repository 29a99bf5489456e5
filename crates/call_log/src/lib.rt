//! The log of a handle: what was done with the slots of its table, in order, and who has seen how much of it.
//!
//! Look first at `Event`, then at `IsLog` (specs/Logs.antt) and `Holds` (specs/Rule.antt), then at `begun`.
//!
//! A log's table has slots, and for each a word: 0 where something is in it, 1 where a call has it out, 2 where it is out for good. The last slot is for what
//! the closing leaves. The log takes no memory: it is what the rule of the table says that there is. A seat of the table, a *hand*, has seen the log up to some
//! event, and may have slots out. It takes one out by an exchange of the slot's word, which writes so into the log, and puts it back by a store, which writes that:
//! nobody else can put it back, and nothing else than what may follow what it took.
//!
//! What is written has an author. Authors are numbers: a table opens with all of them, each hand has some, and no two have one. No function mints them: they are
//! split off (`parted`). Whoever has an author knows all that was written as it (`authors_are_known`). Whoever has none writes nothing.
//!
//! So what clauses say of two calls of one handle is connected: of any two logs that were seen one is the end of the other (`logs_agree`). A call that took
//! out a slot can't hide it: that is in the log, as its author's, until it has put it back.
//!
//! `bw_tree_c` calls it. It knows no tree: what may be put back is for the caller to define (`Course`).
#![tactic(auto)]

mod laws;
mod log;
mod rule;
mod steps;

pub use laws::{authors_are_known, logs_agree, what_is_out_stays};
pub use log::{Authors, Deed, Event, Knows};
pub use rule::{Course, Hand, Log, LogTable, Rule};
pub use steps::{
    GONE, HOME, OUT, begun, closed, emptied, ended, left, looked, opened, parted, recalled,
};
