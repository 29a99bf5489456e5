//! Trees that are closed first, and asked for their pairs afterwards: where there is room for few pairs, where none is given, and page by page.

use crate::loading::first_pairs;
use crate::numbered::key;
use crate::refused_trees::Heap;
use bumpalo::Bump;
use bw_model::{Key, Limits, Value};
use refusing_alloc::Refusing;
use running_tree::{CloseRefusal, ClosedTree};
use std::alloc::Global;
use workers::opened_from;

/// How many pairs the trees have.
const PAIRS: u32 = 40;

/// Bytes enough for these pairs, and for few of those that so many PIDs can have.
const BYTES: usize = 16_384;

/// Few rows, and many PIDs.
fn limits() -> Option<Limits> {
    Limits::new(1, 4096, 64, 1).ok()
}

/// A closed tree with these pairs.
fn closed_with(alloc: Global, pairs: &[(Key, Value)]) -> Option<ClosedTree> {
    let (tree, seats) = opened_from(alloc, limits()?, pairs).ok()?;
    tree.into_closed(seats).ok()
}

/// Whether a tree that can't be closed with its pairs for want of memory is closed then, and lists them with that memory.
fn is_listed_in_little(alloc: Global, pairs: &[(Key, Value)]) -> Option<bool> {
    let (tree, seats) = opened_from(alloc, limits()?, pairs).ok()?;
    let heap = Bump::new(alloc);
    heap.set_allocation_limit(Some(BYTES));
    let error = tree.close(&heap, seats).err()?;
    let refusal = error.refusal;
    let closed = error.tree.into_closed(error.seats).ok()?;
    let listed = closed.pairs(&heap).ok()?;
    Some(refusal == CloseRefusal::Memory && listed.as_slice() == pairs)
}

#[test]
fn few_pairs_take_little(rt: HostRuntime) {
    let alloc = rt.alloc();
    let listed = match first_pairs(alloc, PAIRS) {
        Ok(pairs) => is_listed_in_little(alloc, pairs.as_slice()),
        Err(_) => None,
    };
    assert!(rt; listed == Some(true), "{listed:?}");
}

/// Whether a closed tree whose listing wants one growth, which is refused, lists its pairs when it is asked again.
fn is_listed_again(alloc: Global, heap: Heap<'_>, pairs: &[(Key, Value)]) -> Option<bool> {
    let closed = closed_with(alloc, pairs)?;
    heap.set(0);
    let refused = closed.pairs(heap).is_err();
    heap.set(1);
    let listed = closed.pairs(heap).ok()?;
    let once = heap.left() == 0;
    Some(refused && once && listed.as_slice() == pairs && closed.count() == pairs.len())
}

#[test]
fn a_refused_listing_leaves_the_tree(rt: HostRuntime) {
    let alloc = rt.alloc();
    let heap = Refusing::new(alloc);
    let listed = match first_pairs(alloc, PAIRS) {
        Ok(pairs) => is_listed_again(alloc, &heap, pairs.as_slice()),
        Err(_) => None,
    };
    assert!(rt; listed == Some(true), "{listed:?}");
}

/// The pairs from a key on, page by page, by at most so many pages; none where there are more.
fn paged(
    alloc: Global,
    closed: &mut ClosedTree,
    from: Key,
    most: u32,
) -> Option<Vec<(Key, Value)>> {
    let mut pairs = Vec::new(alloc);
    let mut from = from;
    for _ in 0..most {
        let page = closed.page(&from);
        for (key, value) in page.pairs.as_slice() {
            pairs.push((key.copied(), value.copied())).ok()?;
        }
        match page.next {
            Some(next) => from = next,
            None => return Some(pairs),
        }
    }
    None
}

/// Whether the pages of a closed tree have its pairs: all, then those from a later key on, and then all again.
fn are_paged(alloc: Global, pairs: &[(Key, Value)]) -> Option<bool> {
    let mut closed = closed_with(alloc, pairs)?;
    let all = paged(alloc, &mut closed, Key::default(), PAIRS)?;
    let half = pairs.len() / 2;
    let later = paged(alloc, &mut closed, key(PAIRS / 2), PAIRS)?;
    let again = paged(alloc, &mut closed, Key::default(), PAIRS)?;
    let more = paged(alloc, &mut closed, Key::default(), 1).is_none();
    Some(
        more && all.as_slice() == pairs
            && later.as_slice() == &pairs[half..]
            && again.as_slice() == pairs,
    )
}

#[test]
fn pages_have_all_pairs(rt: HostRuntime) {
    let alloc = rt.alloc();
    let paged = match first_pairs(alloc, PAIRS) {
        Ok(pairs) => are_paged(alloc, pairs.as_slice()),
        Err(_) => None,
    };
    assert!(rt; paged == Some(true), "{paged:?}");
}
