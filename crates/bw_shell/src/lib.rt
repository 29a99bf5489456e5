//! The program over bytes: lines in, replies out.
//!
//! Look first at `script` and `weave` (whole.rt): what is written is a transcript of what was read (specs/Transcript), and a refused line
//! is a value (`RefusedLine`), which is shown in one place. Texts of replies and the numbers of refusals have their home here.
//!
//! Called by `bwtree`, and by `drawing`, which runs lines over a core; `race` prints replies with its texts. It knows no thread and no
//! command line: limits and streams come from its caller.
#![tactic(auto)]

mod lines;
mod pieces;
mod refusal;
mod run;
mod texts;
mod turns;
mod whole;

pub use lines::lines_are_exact;
pub use refusal::{Refusal, RefusedLine};
pub use texts::{show_listing, show_lone_refusal, show_number, show_refused, show_reply};
pub use whole::{Woven, script, status, weave, weave_core};
