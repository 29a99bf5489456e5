//! All actors over one memory, in one process, one step a turn.
//!
//! Look first at `Core`: `turn` begins an operation or takes one step of it, and after every turn the whole trace is linearized
//! (`Core::linearized`). `run` takes a list of turns from the opening on. `RunError` is why a turn is refused; a refused turn changes nothing.
//!
//! Called by `bw_shell`, whose lines are turns, and by `tree_picture`, which draws a core. It knows no thread, no line and no text: the order
//! of turns is its caller's choice.
#![tactic(auto)]

mod actor;
mod event;
mod lawful_traces;
mod link;
mod machine;
mod runs;

pub use event::{Event, RunError, Trace};
pub use lawful_traces::disciplined_runs;
pub use machine::Core;
pub use runs::run;
