//! Laws of plans: each function does nothing, and its contract is proved of all of them.

mod due;
mod index;
mod map;

pub use due::plans_are_due;
pub use index::links_keep_the_index;
pub use map::links_keep_the_map;
