//! Streams of bytes whose failures can be told afterwards.
//!
//! Look first at the traits `Input` and `Output`: what was read and written, and whether a call has failed, is said by their contracts.
//! `Reader` and `Writer` put any of std's readers and writers under them; `Watched` shows a terminal how far one was read.
//!
//! Called by all that reads or prints: `bw_shell`, `drawing`, `race`, `bwtree`, `pictures`. It knows no line. What a file or a terminal
//! gives or takes is in no contract.
#![tactic(auto)]

mod over_std;
mod traits;
mod watched;

pub use over_std::{HELD, READS, Reader, Writer};
pub use traits::{Failed, Input, Output, outputs_add_up};
pub use watched::Watched;
