//! Walks over a running tree in the order of keys, ascending or descending, page by page.
//!
//! Look first at `Cursor`, and at `BackCursor`, which descends; `scan` walks to the end, and `seek` to the next pair.
//!
//! A cursor returns its next page on a given seat. Each page is the reply of one operation, so its pairs are the map's at one step of that
//! operation (its linearization point). What follows for a walk of many pages is in specs/Pages and specs/Walks, for descending ones in
//! specs/BackPages and specs/BackWalks.
//!
//! Called by programs that embed a tree. It knows a tree by the contracts of `Tree::call` and `Tree::resume` alone, as any caller does.
#![tactic(auto)]

mod back_cursor;
mod back_laws;
mod back_scan;
mod back_seek;
mod cursor;
mod examples;
mod neighbour_laws;
mod neighbours;
mod scan;
mod seek;
mod walk_laws;

pub use back_cursor::BackCursor;
pub use back_laws::{
    pages_backward_are_the_maps, pages_backward_are_walked, walks_back_go_on,
    walks_back_tell_the_map,
};
pub use cursor::{Cursor, Walk};
pub use examples::{keys_above_are_found, pages_backward_are_cut_off, walks_back_are_read_upward};
pub use neighbour_laws::{keys_have_least_above, next_pairs_are_told};
pub use scan::Scanned;
pub use walk_laws::{pages_are_the_maps, pages_are_walked, walks_go_on, walks_tell_the_map};
