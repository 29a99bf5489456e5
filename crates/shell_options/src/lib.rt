//! What the words of a command line ask for: a program and its numbers, or the fault of the words.
//!
//! Look first at `options`, which returns `Settings` or an `OptionsError`; `Program` names the five programs, and `Settings::limits` makes the
//! limits of the tree, by numbers of pages and rows or as they are proposed for a number of keys.
//!
//! Called by `bwtree`. It knows limits as numbers, and no tree; nothing is run here.
#![tactic(auto)]

mod grammar;
mod help;
mod ranges;
mod settings;
mod words;

pub use ranges::{LimitOption, OutOfRange};
pub use settings::{Program, Settings, TreeSize};
pub use words::{Misplaced, OptionsError, options};
