//! Plans of structure changes (structure modification operations, SMOs): consolidation, split, new root, removal of a page. A plan turns pages that were read
//! into the records to place.
//!
//! Look first at `PageInHand`, a page as it was read: its PID, the row that its slot had, its chain. Then at one plan, such as `plan_split`: it is returned
//! exactly where its condition holds, and its record fits, meets the discipline, and keeps the map. A `Plan` is what to link where, `After` what follows once
//! that has won. The thresholds have their home here (`MANY_ITEMS`, `FEW_ITEMS`, `MANY_DELTAS`).
//!
//! # How a structure change runs
//!
//! Each change is decided by one compare-and-swap of one slot (an exchange). It expects the row from which the plan's chain was read; if another thread was
//! faster it fails, nothing has happened, and the writer begins a new round. In between, the tree is consistent and can stay so for ever: the thread may stop.
//!
//! *Consolidation*: one base replaces a page's chain; the rows of the old chain go to limbo.
//!
//! *Split* of page X, at `MANY_ITEMS` items:
//!
//! 1. A PID and two rows are taken. The upper half becomes the base of a new page W, whose slot is made ready while no page names W.
//! 2. The exchange links a split record to X: it cuts X off at the separator and makes W its right. Readers go right from X.
//! 3. The exchange links a term (separator and W) to the parent, or a new root over X and W to slot 0. Readers go down to W.
//!
//! *Removal* of page Y, with X on its left, below the parent P, at `FEW_ITEMS` items or fewer:
//!
//! 1. A hold on P marks Y's term. No neighbouring term is held, so X stays; a reader sees no difference.
//! 2. A remove record on Y marks the page: nothing is linked to Y any more. A reader that finds Y goes round it, to its left.
//! 3. A merge record on X copies Y's items and takes over its end. Y's keys are in X from then on.
//! 4. An unterm on P takes the held term out. A reader that goes down from P finds X.
//! 5. Y's slot goes to 0; Y's PID and rows go to limbo.
//!
//! *Who helps.* Any writer makes what is due at a page before it looks at its own key: it consolidates a long chain, splits a full page, posts a missing term,
//! and carries a half-done removal on, by a round to the left of the removed page. Deletions and tidyings begin removals. Readers never help: they go round.
//!
//! *What readers see.* At each moment each key is in the range of exactly one page of the leaves' side chain. None of these steps changes the key's value.
//!
//! # Thread safety
//!
//! Nothing here reads, takes or links, so there is nothing to synchronise: a plan is a value of the thread that made it. Records never change while somebody
//! may read them, so a plan is right about its chain; whether the chain is still the page's is what the exchange finds out.
//!
//! # Invariants
//!
//! - A page in hand was read whole, and what was read is still there: `IsReadPage`.
//! - What a plan links fits its chain and is due there (`FitsOn`, `MayLink` of `traces`): `plans_are_due`. It keeps what each key has (`KeepsMap`) and the
//!   terms of the index: `links_keep_the_map`, `links_keep_the_index`.
//! - At most four terms of a page are held, not the first and no two neighbours (`IsRuled` of `base_page`). A page is removed only while its term is held and none
//!   of its own is (`MayRemove`).
//!
//! Called by `rounds`, which ends with a plan where one is due, and by `change_machine`, which carries it out. Plans are the same on each level, and look at
//! records where they lie.
#![tactic(auto)]

mod after;
mod base;
mod held;
mod hold;
mod merge;
mod neighbours;
mod page_in_hand;
mod plan;
mod plan_laws;
mod remove;
mod root;
mod sizes;
mod split;
mod term;
mod unlinked;
mod unterm;
mod update_record;
mod upkeep;

pub use after::After;
pub use base::plan_base;
pub use hold::plan_hold;
pub use merge::plan_merge;
pub use page_in_hand::{Name, PageInHand};
pub use plan::Plan;
pub use plan_laws::{links_keep_the_index, links_keep_the_map, plans_are_due};
pub use remove::plan_remove;
pub use root::plan_root;
pub use sizes::{FEW_ITEMS, MANY_DELTAS, MANY_ITEMS, MERGE_ITEMS, TOP_LEVEL, many_deltas};
pub use split::{SplitPlan, plan_split};
pub use term::plan_term;
pub use unlinked::Unlinked;
pub use unterm::plan_unterm;
pub use update_record::UpdateRecord;
pub use upkeep::plan_upkeep;
