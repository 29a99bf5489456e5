//! Two callers of one tree: each has an author of its own.

use super::{Answer, all_authors, check, no_bytes, told};
use crate::calls::{bwtree_raw_delete, bwtree_raw_get, bwtree_raw_insert};
use crate::statuses::{ABSENT, OK};
use std::alloc::Global;
use std::test::Fail;

/// What two callers answer in turn, each with the receipt of its last call.
fn told_of_two(alloc: Global) -> Option<[Answer; 4]> {
    let mut caller = all_authors(alloc)?;
    let since = caller.receipt();
    let tree = &caller.tree;
    let (one, other) = tree.parted(since);
    let mut old = no_bytes();
    let set = bwtree_raw_insert(tree, 0, b"a", b"x", &mut old, one);
    let found = bwtree_raw_get(tree, 1, b"a", &mut old, other);
    let deleted = bwtree_raw_delete(tree, 0, b"a", &mut old, set.receipt);
    let gone = bwtree_raw_get(tree, 1, b"a", &mut old, found.receipt);
    Some([
        told(set.status, OK),
        told(found.status, OK),
        told(deleted.status, OK),
        told(gone.status, ABSENT),
    ])
}

#[test]
fn two_callers_share_a_tree(rt: HostRuntime) -> Result<(), Fail> {
    let answers = told_of_two(rt.alloc()).ok_or("no tree")?;
    check(&rt, &answers);
    Ok(())
}
