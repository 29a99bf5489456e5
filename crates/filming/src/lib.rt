//! The program over a core that films: lines in, one page out, with a picture for each step.
//!
//! Look first at `film`: it runs the lines as `bw_shell` does, over a writer that drops what it is shown, and takes the same turns again on
//! another core. After each turn that takes a step it writes a frame: the step by name, how it changed the map, the picture of the core
//! as it then stands, and the map (`IsWholeFilm`). What moves from frame to frame is a script, the same for all films, of which nothing is proved (`page`).
//!
//! Called by `bwtree`. It decides nothing of the pictures: that is the business of `tree_picture` and `drawing`.
#![tactic(auto)]

mod frames;
mod laws;
mod logs;
mod maps;
mod page;
mod places;
mod run;
mod turns;

pub use laws::{pages_are_told, places_are_found, places_are_latest};
pub use run::film;
