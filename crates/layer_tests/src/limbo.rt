//! Limbo by hand: what the rule frees, and in which order.

use bw_model::Limits;
use epochs::{Item, Limbo, Reuse};
use std::alloc::Global;

/// What is done with limbo, or what it shows then.
#[derive(Clone, Copy)]
enum Act<'a> {
    Unlinks(&'a [Item]),
    Stamps(u64),
    MayFree(&'a [u64]),
    HandsOn(Reuse),
    HandsOnNothing,
    Accepts(Item),
    Refuses(Item),
    IsEmpty(bool),
    HasUnstamped(bool),
}

/// Whether limbo does and shows what the act says.
fn does(limbo: &mut Limbo, act: &Act<'_>) -> bool {
    match act {
        Act::Unlinks(items) => unlinks(limbo, items),
        Act::Stamps(epoch) => {
            limbo.stamped(*epoch);
            true
        }
        Act::MayFree(announces) => {
            limbo.may_free(announces);
            true
        }
        Act::HandsOn(word) => limbo.next_word() == Some(*word),
        Act::HandsOnNothing => limbo.next_word().is_none(),
        Act::Accepts(item) => limbo.accepts(*item),
        Act::Refuses(item) => !limbo.accepts(*item),
        Act::IsEmpty(whether) => limbo.is_empty() == *whether,
        Act::HasUnstamped(whether) => limbo.has_unstamped() == *whether,
    }
}

/// The items come into limbo, as far as it accepts them; whether it accepts them all.
fn unlinks(limbo: &mut Limbo, items: &[Item]) -> bool {
    for item in items {
        if !limbo.accepts(*item) {
            return false;
        }
        limbo.unlinked(*item);
    }
    true
}

/// Whether limbo does all acts as they say, one after another.
fn does_all(limbo: &mut Limbo, acts: &[Act<'_>]) -> bool {
    for act in acts {
        if !does(limbo, act) {
            return false;
        }
    }
    true
}

/// Whether an empty limbo does, of 64 PIDs and 256 rows.
fn is_kept(alloc: Global, limits: &Limits, acts: &[Act<'_>]) -> bool {
    match Limbo::new(alloc, limits) {
        Ok(mut limbo) => does_all(&mut limbo, acts),
        Err(_) => false,
    }
}

/// What limbo does, one act after another.
const LIMBO: &[&[Act<'static>]] = &[
    // Keeps a row that another actor may have read. The announced epochs of all other actors, where a row has the stamp 5.
    &[
        Act::Unlinks(&[Item::Row(3)]),
        Act::Stamps(5),
        Act::MayFree(&[4]),
        Act::HandsOnNothing,
        Act::MayFree(&[5]),
        Act::HandsOnNothing,
        Act::MayFree(&[5, 6]),
        Act::HandsOnNothing,
        Act::MayFree(&[6, 5]),
        Act::HandsOnNothing,
        Act::MayFree(&[0, 0, 5]),
        Act::HandsOnNothing,
        Act::IsEmpty(false),
    ],
    // Frees a row that all others have passed.
    &[
        Act::Unlinks(&[Item::Row(3)]),
        Act::Stamps(5),
        Act::MayFree(&[]),
        Act::HandsOn(Reuse::Rows(0, 8)),
        Act::IsEmpty(true),
        Act::Unlinks(&[Item::Row(3)]),
        Act::Stamps(5),
        Act::MayFree(&[0]),
        Act::HandsOn(Reuse::Rows(0, 8)),
        Act::IsEmpty(true),
        Act::Unlinks(&[Item::Row(3)]),
        Act::Stamps(5),
        Act::MayFree(&[6]),
        Act::HandsOn(Reuse::Rows(0, 8)),
        Act::IsEmpty(true),
        Act::Unlinks(&[Item::Row(3)]),
        Act::Stamps(5),
        Act::MayFree(&[0, 6, 0]),
        Act::HandsOn(Reuse::Rows(0, 8)),
        Act::IsEmpty(true),
        Act::Unlinks(&[Item::Row(3)]),
        Act::Stamps(5),
        Act::MayFree(&[0, 1 << 62]),
        Act::HandsOn(Reuse::Rows(0, 8)),
        Act::IsEmpty(true),
    ],
    // Passes the last epoch by 0 alone.
    &[
        Act::Unlinks(&[Item::Pid(2)]),
        Act::Stamps(1 << 62),
        Act::MayFree(&[1 << 62]),
        Act::HandsOnNothing,
        Act::MayFree(&[0]),
        Act::HandsOn(Reuse::Pids(0, 4)),
        Act::HandsOnNothing,
    ],
    // Hands on word by word. The last act: what was handed on may come again.
    &[
        Act::Unlinks(EIGHT),
        Act::Stamps(1),
        Act::MayFree(&[0, 2]),
        Act::IsEmpty(false),
        Act::HandsOn(Reuse::Rows(0, 0x22)),
        Act::IsEmpty(false),
        Act::HandsOn(Reuse::Rows(1, 0x21)),
        Act::IsEmpty(false),
        Act::HandsOn(Reuse::Rows(2, 0x4)),
        Act::IsEmpty(false),
        Act::HandsOn(Reuse::Rows(3, 0x8000000000000000)),
        Act::IsEmpty(false),
        Act::HandsOn(Reuse::Pids(0, 0x8000000000000004)),
        Act::IsEmpty(true),
        Act::HandsOnNothing,
        Act::Unlinks(EIGHT),
    ],
    // Keeps the first stamp.
    &[
        Act::HasUnstamped(false),
        Act::Unlinks(&[Item::Row(1)]),
        Act::HasUnstamped(true),
        Act::Stamps(3),
        Act::HasUnstamped(false),
        Act::Unlinks(&[Item::Row(2), Item::Pid(1)]),
        Act::MayFree(&[0]),
        Act::HasUnstamped(true),
        Act::Stamps(7),
        Act::MayFree(&[5]),
        Act::HandsOn(Reuse::Rows(0, 2)),
        Act::HandsOnNothing,
        Act::MayFree(&[8]),
        Act::MayFree(&[7]),
        Act::HandsOnNothing,
        Act::MayFree(&[8]),
        Act::HandsOn(Reuse::Rows(0, 4)),
        Act::HandsOn(Reuse::Pids(0, 2)),
        Act::IsEmpty(true),
    ],
    // Accepts each number below the limit once.
    &[
        Act::Refuses(Item::Row(256)),
        Act::Refuses(Item::Row(257)),
        Act::Refuses(Item::Pid(64)),
        Act::Refuses(Item::Pid(65)),
        Act::Unlinks(&[Item::Row(255), Item::Pid(63)]),
        Act::Refuses(Item::Row(255)),
        Act::Refuses(Item::Pid(63)),
        Act::Accepts(Item::Row(63)),
    ],
];

#[test]
fn does_as_it_is_told(rt: HostRuntime) {
    let limits = Limits::new(2, 64, 256, 1).unwrap();
    for (place, acts) in LIMBO.iter().enumerate() {
        assert!(rt; is_kept(rt.alloc(), &limits, acts), "rule {place}");
    }
}

const EIGHT: &[Item] = &[
    Item::Pid(2),
    Item::Row(130),
    Item::Row(64),
    Item::Row(5),
    Item::Pid(63),
    Item::Row(69),
    Item::Row(255),
    Item::Row(1),
];
