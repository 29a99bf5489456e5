//! What a line asks for: its fields, numbers and tokens.
//!
//! Look first at `Request`, and at `parse`, which reads one: each line has one request, or one reason why it asks for nothing
//! (`LineError`). `JobCommand` is the same for the lines of a race. docs/FORMATS.md has the grammar.
//!
//! Called by `bw_shell` and `race`, and by `tree_picture`, which prints keys as lines do. It knows no core and no tree, so it is proved
//! beside the lowest layers.
#![tactic(auto)]

mod fields;
mod number;
mod race_line;
mod request;
mod token;

pub use number::{read_number, read_seed};
pub use race_line::{JOBS, JobCommand, job_commands_are_exact, parse_job_command};
pub use request::{Language, Request, parse, requests_are_exact};
pub use token::{LineError, is_word, tokens_are_exact};
