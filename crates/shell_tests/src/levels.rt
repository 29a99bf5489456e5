//! Index pages of every level that are removed, and lookups beside writers that stand in the middle of that.

use crate::numbered::{Part, Width, runs};

/// From an operation's begin to its end.
const INSERT: &str = "begin 0 insert k# v#\nfinish 0\n";

const DELETE: &str = "begin 0 delete k#\nfinish 0\n";

const SHRINKS: &[Part<'_>] = &[
    Part::Each(1, 1100, INSERT, "0 inserted\n"),
    Part::EachDown(1100, 1, DELETE, "0 deleted v#\n"),
    Part::Adds("list\n", "pairs 0\n"),
    Part::Each(1, 1100, INSERT, "0 inserted\n"),
    Part::Each(1, 1100, DELETE, "0 deleted v#\n"),
    Part::Adds("list\n", "pairs 0\n"),
];

// The tree has four levels. From the last key down, and from the first one up, 136 leaves go, sixteen pages above them and one above those.
#[test]
fn a_tree_of_four_levels_shrinks(rt: HostRuntime) {
    runs(&rt, rt.alloc(), (2, 512, 8192, 1), Width::Four, SHRINKS);
}

/// The lookups of another actor.
const GET: &str = "begin 5 get k#\nfinish 5\n";

const FOUND: &str = "5 value v#\n";

const NONE: &str = "5 none\n";

const BESIDE_FOUR: &[Part<'_>] = &[
    Part::Each(0, 184, INSERT, "0 inserted\n"),
    Part::EachDown(159, 156, DELETE, "0 deleted v#\n"),
    Part::EachDown(175, 172, DELETE, "0 deleted v#\n"),
    Part::Adds("begin 1 delete k0152\nturn 1 60\n", ""),
    Part::Adds("begin 2 delete k0168\nturn 2 36\n", ""),
    Part::Each(185, 191, "begin 3 insert k# v#\nfinish 3\n", "3 inserted\n"),
    Part::Adds("begin 3 insert k0192 v0192\nturn 3 78\n", ""),
    Part::Adds("turn 1 1\nturn 2 1\n", ""),
    Part::Each(72, 99, "begin 4 delete k#\nfinish 4\n", "4 deleted v#\n"),
    Part::Adds("begin 4 delete k0100\nturn 4 191\n", ""),
    Part::Each(168, 168, GET, FOUND),
    Part::Each(160, 160, GET, FOUND),
    Part::Each(0, 71, GET, FOUND),
    Part::Each(72, 99, GET, NONE),
    Part::Each(100, 155, GET, FOUND),
    Part::Each(156, 159, GET, NONE),
    Part::Each(160, 171, GET, FOUND),
    Part::Each(172, 175, GET, NONE),
    Part::Each(176, 191, GET, FOUND),
    Part::Adds("finish 4\n", "4 deleted v0100\n"),
    Part::Adds("finish 3\nfinish 2\n", "3 inserted\n2 deleted v0168\n"),
    Part::Adds("finish 1\n", "1 deleted v0152\n"),
];

// Two leaves and the page above others are removed, and the page that was split off that one has no term yet. Each of the four stands there.
#[test]
fn a_lookup_ends_beside_four(rt: HostRuntime) {
    runs(&rt, rt.alloc(), (6, 256, 4096, 1), Width::Four, BESIDE_FOUR);
}

const TWO_LEVELS: &[Part<'_>] = &[
    Part::Each(0, 1472, INSERT, "0 inserted\n"),
    Part::EachDown(
        1279,
        1252,
        "begin 1 delete k#\nfinish 1\n",
        "1 deleted v#\n",
    ),
    Part::Adds("begin 1 delete k01251\nuntil 1 clear\nuntil 1 hold\n", ""),
    Part::Adds("turn 1 42\n", ""),
    Part::EachDown(
        1407,
        1380,
        "begin 2 delete k#\nfinish 2\n",
        "2 deleted v#\n",
    ),
    Part::Adds("begin 2 delete k01379\nuntil 2 clear\nuntil 2 hold\n", ""),
    Part::Adds("turn 2 20\n", ""),
    Part::Each(
        1473,
        1535,
        "begin 3 insert k# v#\nfinish 3\n",
        "3 inserted\n",
    ),
    Part::Adds("begin 3 insert k01536 v01536\n", ""),
    Part::Adds("until 3 split\nuntil 3 split\nuntil 3 split\n", ""),
    Part::Adds("turn 1 1\nturn 2 1\n", ""),
    Part::EachDown(1023, 804, "begin 4 delete k#\nfinish 4\n", "4 deleted v#\n"),
    Part::Adds("begin 4 delete k00803\n", ""),
    Part::Adds("until 4 remove\nuntil 4 remove\nuntil 4 remove\n", ""),
    Part::Each(0, 803, GET, FOUND),
    Part::Each(804, 1023, GET, NONE),
    Part::Each(1024, 1251, GET, FOUND),
    Part::Each(1252, 1279, GET, NONE),
    Part::Each(1280, 1379, GET, FOUND),
    Part::Each(1380, 1407, GET, NONE),
    Part::Each(1408, 1535, GET, FOUND),
    Part::Adds("finish 4\n", "4 deleted v00803\n"),
    Part::Adds("finish 3\nfinish 2\n", "3 inserted\n2 deleted v01379\n"),
    Part::Adds("finish 1\n", "1 deleted v01251\n"),
];

// Two pages of level 1 are removed, and one of level 2 through which the way to them leads, as the page that was split off it has no term yet.
#[test]
fn a_lookup_goes_past_two_removed_index_pages(rt: HostRuntime) {
    runs(&rt, rt.alloc(), (6, 512, 8192, 1), Width::Five, TWO_LEVELS);
}
