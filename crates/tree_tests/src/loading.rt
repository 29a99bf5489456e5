//! Trees that are opened with pairs.

use crate::numbered::{key, value};
use crate::trees::closed;
use bw_model::{Key, Limits, Value};
use running_tree::LoadError;
use std::alloc::{AllocError, Global};
use std::test::Fail;
use workers::opened_from;

/// Whether the pairs of a tree that is opened with these, and closed, are the same.
pub(crate) fn are_moved(alloc: Global, limits: Limits, pairs: &[(Key, Value)]) -> bool {
    let Ok((tree, seats)) = opened_from(alloc, limits, pairs) else {
        return false;
    };
    match closed(alloc, tree, seats) {
        Some(after) => after.as_slice() == pairs,
        None => false,
    }
}

/// The pairs of so many keys, in order.
pub(crate) fn first_pairs(alloc: Global, count: u32) -> Result<Vec<(Key, Value)>, AllocError> {
    let mut pairs = Vec::new(alloc);
    for number in 0..count {
        pairs.push((key(number), value(number)))?;
    }
    Ok(pairs)
}

/// Whether the pairs of so many keys are moved.
fn first_are_moved(alloc: Global, limits: Limits, count: u32) -> bool {
    match first_pairs(alloc, count) {
        Ok(pairs) => are_moved(alloc, limits, pairs.as_slice()),
        Err(_) => false,
    }
}

/// Why no tree is opened with the pairs of so many keys; none where one is, or where there is no memory for them.
fn first_refused(alloc: Global, limits: Limits, count: u32) -> Option<LoadError> {
    match first_pairs(alloc, count) {
        Ok(pairs) => opened_from(alloc, limits, pairs.as_slice()).err(),
        Err(_) => None,
    }
}

// No pair, and 64 pairs in a tree of 64 rows; and then too many for the rows.
#[test]
fn pairs_are_moved_if_they_fit(rt: HostRuntime) -> Result<(), Fail> {
    let limits = Limits::new(1, 64, 64, 1)?;
    for count in [0, 1, 64] {
        assert!(rt; first_are_moved(rt.alloc(), limits, count), "{count} pairs");
    }
    let refused = first_refused(rt.alloc(), limits, 4000);
    assert!(rt; refused == Some(LoadError::Full), "{refused:?}");
    Ok(())
}
