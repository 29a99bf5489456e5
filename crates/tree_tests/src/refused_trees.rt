//! Trees of which each growth of memory is refused in turn as they are opened, with pairs or without; and what is refused before memory is.

use crate::loading::first_pairs;
use crate::numbered::{key, value};
use bw_model::{Key, Limits, OpenError, Value};
use refusing_alloc::Refusing;
use running_tree::{LoadError, Tree};
use std::alloc::{Allocator, Global};
use std::test::Fail;

/// An allocator that refuses one growth, and counts.
pub(crate) type Heap<'a> = &'a Refusing<Global>;

/// More growths than a call wants.
pub(crate) const MOST: u64 = 1000;

/// How many pairs a tree is opened with.
const PAIRS: u32 = 40;

/// Why no tree opens, at the epoch of the limits or at another one.
fn error<A: Allocator + Copy>(alloc: A, limits: Limits, epoch: Option<u64>) -> Option<OpenError> {
    match epoch {
        Some(epoch) => Tree::<A>::open_at(alloc, limits, epoch).err(),
        None => Tree::<A>::open(alloc, limits).err(),
    }
}

/// Why no tree opens while a growth is refused.
fn open_error(
    heap: Heap<'_>,
    limits: Limits,
    epoch: Option<u64>,
    growth: u64,
) -> Option<OpenError> {
    heap.set(growth);
    error(heap, limits, epoch)
}

/// How many growths an opening wants, where each of them that is refused is told as want of memory.
fn growths(heap: Heap<'_>, limits: Limits, epoch: Option<u64>) -> Option<u64> {
    for growth in 0..MOST {
        match open_error(heap, limits, epoch, growth) {
            None => return (heap.left() == 0).then_some(growth),
            Some(OpenError::Memory) => {}
            Some(OpenError::BadEpoch) => return None,
        }
    }
    None
}

/// How many growths an opening with so many seats wants, at the first epoch as at the last one.
fn growths_of_seats(alloc: Global, actors: u64) -> Option<u64> {
    let Ok(limits) = Limits::new(actors, 64, 64, 1) else {
        return None;
    };
    let heap = Refusing::new(alloc);
    let count = growths(&heap, limits, None);
    if count == growths(&heap, limits, Some(1 << 62)) {
        count
    } else {
        None
    }
}

// A seat takes more than one growth, and a tree some of its own.
#[test]
fn each_growth_of_an_opening_is_refused(rt: HostRuntime) -> Result<(), Fail> {
    for actors in [1, 2] {
        let count = growths_of_seats(rt.alloc(), actors);
        println!(rt; "{actors} seats: {count:?} growths")?;
        assert!(rt; count > Some(actors), "{actors}");
    }
    Ok(())
}

/// Whether no tree opens at this epoch for these reasons, while the first growth is refused, and while none is.
fn has_errors(alloc: Global, epoch: u64, errors: [Option<OpenError>; 2]) -> bool {
    let Ok(limits) = Limits::new(2, 64, 64, 1) else {
        return false;
    };
    let heap = Refusing::new(alloc);
    open_error(&heap, limits, Some(epoch), 0) == errors[0]
        && open_error(&heap, limits, Some(epoch), u64::MAX) == errors[1]
}

// An epoch outside the range is refused before memory is.
const EPOCHS: [(u64, [Option<OpenError>; 2]); 4] = [
    (0, [Some(OpenError::BadEpoch); 2]),
    (1 << 62, [Some(OpenError::Memory), None]),
    ((1 << 62) + 1, [Some(OpenError::BadEpoch); 2]),
    (u64::MAX, [Some(OpenError::BadEpoch); 2]),
];

#[test]
fn epochs_have_a_range(rt: HostRuntime) {
    for (epoch, errors) in EPOCHS {
        assert!(rt; has_errors(rt.alloc(), epoch, errors), "{epoch}");
    }
}

/// Why no tree opens with pairs.
fn error_of_pairs<A: Allocator + Copy>(
    alloc: A,
    limits: Limits,
    pairs: &[(Key, Value)],
) -> Option<LoadError> {
    Tree::<A>::open_from(alloc, limits, pairs).err()
}

/// Why no tree opens with pairs while a growth is refused.
fn load_error(
    heap: Heap<'_>,
    limits: Limits,
    pairs: &[(Key, Value)],
    growth: u64,
) -> Option<LoadError> {
    heap.set(growth);
    error_of_pairs(heap, limits, pairs)
}

/// How many growths an opening with pairs wants, where each of them that is refused is told as want of memory.
fn loading_growths(heap: Heap<'_>, limits: Limits, pairs: &[(Key, Value)]) -> Option<u64> {
    for growth in 0..MOST {
        match load_error(heap, limits, pairs, growth) {
            None => return (heap.left() == 0).then_some(growth),
            Some(LoadError::Memory) => {}
            Some(_) => return None,
        }
    }
    None
}

// The pairs take no memory of their own.
fn growths_of_pairs(alloc: Global) -> Option<u64> {
    let Ok(limits) = Limits::new(2, 64, 256, 1) else {
        return None;
    };
    let Ok(pairs) = first_pairs(alloc, PAIRS) else {
        return None;
    };
    let heap = Refusing::new(alloc);
    let count = loading_growths(&heap, limits, pairs.as_slice());
    if count == growths(&heap, limits, None) {
        count
    } else {
        None
    }
}

#[test]
fn each_growth_of_a_loading_is_refused(rt: HostRuntime) -> Result<(), Fail> {
    let count = growths_of_pairs(rt.alloc());
    println!(rt; "loading: {count:?} growths")?;
    assert!(rt; count > Some(0), "{count:?} growths");
    Ok(())
}

/// Whether no tree opens with three pairs, of which the last two have these keys, for these reasons, while the first growth is refused, and
/// while none is.
fn has_order_errors(
    alloc: Global,
    (one, other): (u32, u32),
    errors: [Option<LoadError>; 2],
) -> bool {
    let Ok(limits) = Limits::new(2, 64, 64, 1) else {
        return false;
    };
    let pairs = [
        (key(1), value(1)),
        (key(one), value(1)),
        (key(other), value(2)),
    ];
    let heap = Refusing::new(alloc);
    load_error(&heap, limits, &pairs, 0) == errors[0]
        && load_error(&heap, limits, &pairs, u64::MAX) == errors[1]
}

// The order of the keys is looked for before memory is: two equal keys, and a key below the one before it.
const ORDERS: [((u32, u32), [Option<LoadError>; 2]); 3] = [
    ((5, 5), [Some(LoadError::Order); 2]),
    ((5, 4), [Some(LoadError::Order); 2]),
    ((5, 6), [Some(LoadError::Memory), None]),
];

#[test]
fn keys_that_do_not_ascend_are_refused(rt: HostRuntime) {
    for (keys, errors) in ORDERS {
        assert!(rt; has_order_errors(rt.alloc(), keys, errors), "{keys:?}");
    }
}
