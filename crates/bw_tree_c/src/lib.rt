//! The running tree for programs in C: a static library.
//!
//! Look first at `TreeHandle` (handle.rt), then at `bwtree_raw_get` (calls.rt). The handle of a tree lies in the C program's memory, and all
//! its threads share it. It leads to a slot for each seat. A call takes its seat out of the slot, with a share of the tree, runs on it, and puts
//! it back: so a call finds a seat of its own tree that nobody else uses, or is refused. It takes no lock and no memory, and waits for nobody.
//!
//! Each call is written into the log of its handle (call_log), which takes no memory. An export returns a `Receipt` of that log beside its status, and takes one
//! (`since`): both have no bytes, so C passes neither. By them the clauses connect the calls on one handle: what a call returns comes behind what its caller had
//! seen, each call continues its seat from the last call on it, and a closing hands over what all of them left. A call is written as the author of `since`, and nothing
//! without an author: so a call makes no other one. An opening returns all authors, and `TreeHandle::parted` gives one away; in C, where receipts have no bytes, that is
//! for whoever reads the program to say.
//!
//! Called by c/bwtree.h, which has the same for readers of C, and by what stands on that. It may not know a thread or anything that waits: a
//! static library may link neither.
#![tactic(auto)]

mod c_types;
mod calls;
mod closing;
mod handle;
mod loading;
mod opening;
mod pages;
mod place;
mod queries;
mod receipt;
mod refusal;
mod running;
mod seeing;
mod statuses;
mod taking;
#[cfg(test)]
mod tests;
