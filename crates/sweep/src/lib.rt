//! The sweep of an actor's limbo list: the steps by which it frees what it took out of the tree.
//!
//! Look first at `Sweep`. A writer begins with a sweep, while it is outside the epochs. It reads the epoch, for what has no stamp yet, and
//! advances it (retires it); it reads what each other actor has announced; and it frees, word by word, what all of them have passed: in a large
//! tree, of the first 64 items of each list. `epochs` explains the scheme and keeps the lists; here are the steps, and their place in the
//! discipline of actors.
//!
//! Called by `op_machine`, at the begin of a writer, and by `op_parts`, where a change has taken pages out (`take_out`). It knows no page and no key.
#![tactic(auto)]

mod announced;
mod examples;
mod limbo_laws;
mod sweep;
mod taking_out;

pub use examples::{other_limbos_are_refused, small_limbo_is_kept};
pub use limbo_laws::{chains_go_to_limbo, large_sweeps_are_short, limbos_are_kept};
pub use sweep::Sweep;
pub use taking_out::take_out;
