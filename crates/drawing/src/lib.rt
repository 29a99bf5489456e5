//! The program over a core that draws: lines in, one picture out.
//!
//! Look first at `draw`: it runs the lines as `bw_shell` does, over a writer that drops what it is shown, and writes the picture of the
//! core that ran them, or why there is none (`IsWholeDrawing`).
//!
//! Called by `bwtree` and `pictures`, and by `filming`, which draws a core after each step. It decides nothing of the picture: shapes are the business of `tree_picture`.
#![tactic(auto)]

mod discard;
mod elements;
mod run;

pub use discard::Discard;
pub use elements::{show_document, show_escaped};
pub use run::{draw, picture_of};
