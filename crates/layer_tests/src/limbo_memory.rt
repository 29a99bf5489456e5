//! A limbo list of which each growth of memory is refused in turn, and which takes none once it is there.

use bw_model::{Limits, OpenError};
use epochs::{Item, Limbo, Reuse};
use refusing_alloc::Refusing;
use std::alloc::Global;

/// An allocator that refuses one growth, and counts.
type Heap<'a> = &'a Refusing<Global>;

/// Whether all rows and PIDs below 64 come into limbo.
fn fills(limbo: &mut Limbo<Heap<'_>>) -> bool {
    for number in 1..64u32 {
        let (row, pid) = (Item::Row(number), Item::Pid(number));
        if !limbo.accepts(row) {
            return false;
        }
        limbo.unlinked(row);
        if !limbo.accepts(pid) {
            return false;
        }
        limbo.unlinked(pid);
    }
    true
}

/// Whether they do, and are handed on, a word of each.
fn goes_round(limbo: &mut Limbo<Heap<'_>>) -> bool {
    let fills = fills(limbo);
    limbo.stamped(1);
    limbo.may_free(&[0]);
    let words = [limbo.next_word(), limbo.next_word()];
    let all = u64::MAX - 1;
    let handed = words == [Some(Reuse::Rows(0, all)), Some(Reuse::Pids(0, all))];
    fills && handed && limbo.is_empty()
}

/// Whether a new list goes round twice, and wants no memory for it.
fn lasts(heap: Heap<'_>, limbo: Limbo<Heap<'_>>) -> bool {
    let mut limbo = limbo;
    let goes = [goes_round(&mut limbo), goes_round(&mut limbo)];
    goes == [true; 2] && heap.left() == 0
}

/// How many growths a new limbo list wants, where each that is refused is told as want of memory; and whether it goes round twice while
/// the next one would be refused, and wants none.
#[derive(Clone, Copy, Debug, PartialEq, Eq)]
struct Growing {
    wanted: u64,
    lasts: bool,
}

/// Those of a tree of these limits; none where a list of 99 is refused for another reason, or still.
fn growths(heap: Heap<'_>, limits: &Limits) -> Option<Growing> {
    for growth in 0..100u64 {
        heap.set(growth);
        match Limbo::<Heap<'_>>::new(heap, limits) {
            Ok(limbo) => {
                return Some(Growing {
                    wanted: growth,
                    lasts: lasts(heap, limbo),
                });
            }
            Err(OpenError::Memory) => {}
            Err(OpenError::BadEpoch) => return None,
        }
    }
    None
}

// A new list wants room for rows and room for PIDs; each of the two that is refused is told, and full rounds of limbo want no more.
#[test]
fn limbo_takes_memory_once(rt: HostRuntime) {
    let heap = Refusing::new(rt.alloc());
    let counted = match Limits::new(2, 64, 64, 1) {
        Ok(limits) => growths(&heap, &limits),
        Err(_) => None,
    };
    let expected = Growing {
        wanted: 2,
        lasts: true,
    };
    assert!(rt; counted == Some(expected), "{counted:?}");
}
