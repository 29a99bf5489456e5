//! Pages: the ordered items of a range of keys, on a level, with the page to their right.
//!
//! Look first at `Page`, then at `Items`. What a page has at each key, before and after a change, is in specs. A leaf has values, an
//! index page has children (terms), some of which may be held. `MAX_ITEMS` is the room, not where a page is split.
//!
//! Called by `deltas`, whose records change pages, and by all that decodes a page: `record_slots`, `row_chain`, `structure_changes`, `listing`. It
//! knows no record, no row and no other page: its right is a number to it.
#![tactic(auto)]

mod held;
mod item;
mod items;
mod page;

pub use held::{held_count, is_held};
pub use item::{Content, Item};
pub use items::{Items, MAX_HELD, MAX_ITEMS};
pub use page::{Direction, Page};
