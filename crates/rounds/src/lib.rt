//! Rounds: traversals from the root to a page, over records that are read where they lie. Pages change places, and no row is copied.
//!
//! Look first at `ReadRound`, then at `WriteRound`. A round is a step machine: it requests a slot or a row (`Asked`), is passed a number or
//! takes a record, and ends (`ReadEndKind`, `WriteEndKind`) with the pages of its end in it. `Descent` reads page after page; `Leg` and
//! `read_round/detour` go round removed index pages of any level. A writer's round ends at the first change that is due.
//!
//! Called by `op_machine`. `round_model` defines what each function does. It takes no step, links nothing, and knows no command: a key, how
//! many deltas are due, and whether small index pages are tended.
#![tactic(auto)]

mod asked;
mod course;
mod descents;
mod leg;
mod read_round;
mod way;
mod write_end_kind;
mod write_round;

pub use asked::Asked;
pub(crate) use descents::{Descent, SightKind};
pub(crate) use leg::Leg;
pub use read_round::{ReadEndKind, ReadRound};
pub use write_end_kind::WriteEndKind;
pub use write_round::WriteRound;
