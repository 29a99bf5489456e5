//! How large a tree is: how many actors, pages and rows it may have, and why an opening is refused.
//!
//! Look first at `Limits`: its ranges, and `for_keys`, which proposes limits for a number of keys (docs/DECISIONS.md, *Room*, has the rule).
//! specs/ defines numbers in words of 64 bits, too.
//!
//! Called by `bw_model`, which re-exports these types, so that a caller of a tree needn't name this crate; and by `epochs` and `shell_options`,
//! which need limits alone and so are proved beside the model. It knows no key, no page and no step.
#![tactic(auto)]

mod limits;
mod room;

pub use limits::{BadLimits, Limits, MAX_LARGE_ACTORS, OpenError, WIDE_WORDS, Widths};
