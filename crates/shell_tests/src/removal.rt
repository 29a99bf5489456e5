//! Leaves that are held, removed, merged into the leaf to their left, and cleared.
//!
//! Each begins with a tree in which page 1 has k01 to k08, and page 2 has k09 to k12, so that the next delete there removes it. Page 3 is
//! the root.

use crate::numbered::{LIMITS, Part, Width, runs};

const REMOVED: &[Part<'_>] = &[
    Part::Inserts(1, 17),
    Part::Deletes(17, 13),
    Part::Adds(
        "begin 0 delete k12\nuntil 0 remove\nbegin 1 get k10\nfinish 1\n",
        "1 value v10\n",
    ),
    Part::Adds("finish 0\n", "0 deleted v12\n"),
    Part::Lists(11),
    Part::Pairs(1, 11),
];

#[test]
fn a_leaf_is_removed(rt: HostRuntime) {
    runs(&rt, rt.alloc(), LIMITS, Width::Two, REMOVED);
}

const READ: &[Part<'_>] = &[
    Part::Inserts(1, 17),
    Part::Deletes(17, 13),
    Part::Adds("begin 1 get k10\nturn 1 5\n", ""),
    Part::Adds("begin 2 upsert k10 mid\nfinish 2\n", "2 replaced v10\n"),
    Part::Adds("begin 0 delete k12\nuntil 0 merge\n", ""),
    Part::Adds("begin 2 upsert k10 new\nuntil 2 unterm\n", ""),
    Part::Adds("finish 0\n", "0 deleted v12\n"),
    Part::Adds("begin 0 upsert k10 last\nfinish 0\n", "0 replaced mid\n"),
    Part::Adds("turn 1 10\nfinish 1\n", "1 value last\n"),
    Part::Adds("finish 2\n", "2 replaced last\n"),
];

// The reader has read the root when the removal begins. It reads the removed page, its slot and nine records, after the page was
// taken out of the root and before its slot is cleared; the value that it answers was given after all of that.
#[test]
fn a_reader_goes_through_a_removal(rt: HostRuntime) {
    runs(&rt, rt.alloc(), (3, 64, 256, 1), Width::Two, READ);
}

const FULL_LEFT: &[Part<'_>] = &[
    Part::Inserts(1, 17),
    Part::Deletes(17, 13),
    Part::Adds("begin 0 insert k011 v011\nfinish 0\n", "0 inserted\n"),
    Part::Adds("begin 0 insert k012 v012\nfinish 0\n", "0 inserted\n"),
    Part::Adds("begin 0 insert k013 v013\nfinish 0\n", "0 inserted\n"),
    Part::Adds("begin 0 insert k014 v014\nfinish 0\n", "0 inserted\n"),
    Part::Adds("begin 0 insert k015 v015\nfinish 0\n", "0 inserted\n"),
    Part::Adds("begin 0 insert k016 v016\nfinish 0\n", "0 inserted\n"),
    Part::Adds("begin 0 insert k017 v017\nfinish 0\n", "0 inserted\n"),
    Part::Adds("begin 0 insert k018 v018\nfinish 0\n", "0 inserted\n"),
    Part::Adds("begin 0 delete k12\nuntil 0 remove\nuntil 0 split\n", ""),
    Part::Adds("until 0 merge\nfinish 0\n", "0 deleted v12\n"),
    Part::Adds(
        "begin 0 page k018\nfinish 0\n",
        "0 page 11 k018 v018 k02 v02 k03 v03 k04 v04 k05 v05 k06 v06 k07 v07 k08 v08 k09 v09 k10 v10 k11 v11 end\n",
    ),
];

// The left page has sixteen items, and is split before the removed page is merged into its upper part.
#[test]
fn a_full_left_page_is_split(rt: HostRuntime) {
    runs(&rt, rt.alloc(), LIMITS, Width::Two, FULL_LEFT);
}

const HELD: &[Part<'_>] = &[
    Part::Inserts(1, 97),
    Part::Deletes(24, 21),
    Part::Deletes(40, 37),
    Part::Deletes(56, 53),
    Part::Deletes(72, 69),
    Part::Deletes(88, 85),
    Part::Adds(
        "begin 0 delete k017\nuntil 0 hold\nbegin 1 insert k021 w\nfinish 1\nfinish 0\n",
        "1 inserted\n0 deleted v017\n",
    ),
    Part::Adds(
        "begin 0 delete k033\nuntil 0 hold\nbegin 1 insert k037 w\nfinish 1\nfinish 0\n",
        "1 inserted\n0 deleted v033\n",
    ),
    Part::Adds(
        "begin 0 delete k049\nuntil 0 hold\nbegin 1 insert k053 w\nfinish 1\nfinish 0\n",
        "1 inserted\n0 deleted v049\n",
    ),
    Part::Adds(
        "begin 0 delete k065\nuntil 0 hold\nbegin 1 insert k069 w\nfinish 1\nfinish 0\n",
        "1 inserted\n0 deleted v065\n",
    ),
    Part::Adds("begin 0 delete k081\nuntil 0 hold\n", "0 deleted v081\n"),
];

// Of twelve leaves below one root every second one becomes small. Four of these are held: each has four items then, and five again before
// it is removed.
#[test]
fn no_fifth_leaf_is_held(rt: HostRuntime) {
    runs(&rt, rt.alloc(), LIMITS, Width::Three, HELD);
}
