//! A page's chain of records where they lie, in rows that were read and stay: 16 bytes a record, and no row is copied.
//!
//! Look first at `Chain`: what it decides for a key, where its page ends, what its right is, and the page that it makes (`page`, which
//! decodes; the searches look at the words that they need). `ChainPart` is a chain that is being read, record by record.
//!
//! Called by `structure_changes`, whose pages are such chains, by `rounds` and `op_machine`. It knows no slot and no step: each search
//! requires that its chain was read (`IsReadChain`).
#![tactic(auto)]

mod chain;
mod chain_part;

pub use chain::Chain;
pub use chain_part::{ChainPart, MAX_RECORDS};
