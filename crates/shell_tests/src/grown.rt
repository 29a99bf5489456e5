//! Pages that are split, and trees that grow until PIDs or rows run out.

use crate::numbered::{LIMITS, Part, Width, runs};

const SPLIT: &[Part<'_>] = &[
    Part::Inserts(1, 16),
    Part::Adds(
        "begin 0 insert k17 v17\nuntil 0 split\nuntil 0 root\nfinish 0\n",
        "0 inserted\n",
    ),
    Part::Lists(17),
    Part::Pairs(1, 17),
];

#[test]
fn a_full_page_is_split(rt: HostRuntime) {
    runs(&rt, rt.alloc(), LIMITS, Width::Two, SPLIT);
}

const HELP: &[Part<'_>] = &[
    Part::Inserts(1, 16),
    Part::Adds("begin 0 insert k17 v17\nuntil 0 split\n", ""),
    Part::Adds("begin 1 get k12\nfinish 1\n", "1 value v12\n"),
    Part::Adds(
        "begin 1 insert k125 x\nuntil 1 root\nfinish 1\n",
        "1 inserted\n",
    ),
    Part::Adds("finish 0\n", "0 inserted\n"),
    Part::Lists(18),
    Part::Pairs(1, 12),
    Part::Adds("", "k125 x\n"),
    Part::Pairs(13, 17),
];

// A lookup goes through the side link; a writer posts the missing term, by a new root here, before it goes on.
#[test]
fn a_writer_helps(rt: HostRuntime) {
    runs(&rt, rt.alloc(), LIMITS, Width::Two, HELP);
}

const LOST: &[Part<'_>] = &[
    Part::Inserts(1, 16),
    Part::Adds("begin 0 insert k17 v17\nuntil 0 base\nturn 0 12\n", ""),
    Part::Adds("begin 1 insert k18 v18\nuntil 1 split\n", ""),
    Part::Adds("finish 1\nfinish 0\n", "1 inserted\n0 inserted\n"),
    Part::Lists(18),
    Part::Pairs(1, 18),
];

// The twelve turns end just before the exchange that would split; the other actor's split is first.
#[test]
fn a_split_is_lost(rt: HostRuntime) {
    runs(&rt, rt.alloc(), LIMITS, Width::Two, LOST);
}

const DELETE: &[Part<'_>] = &[
    Part::Inserts(1, 16),
    Part::Adds("begin 0 delete k01\nuntil 0 split\n", ""),
    Part::Lists(16),
    Part::Pairs(1, 16),
    Part::Adds("until 0 root\nbegin 1 get k01\nfinish 1\n", "1 value v01\n"),
    Part::Adds(
        "finish 0\nbegin 0 get k08\nfinish 0\n",
        "0 deleted v01\n0 value v08\n",
    ),
    Part::Lists(15),
    Part::Pairs(2, 16),
];

// Each writer splits a full page: the turns end with the exchange that does it, before the delete takes effect. The new page is then its
// errand: it puts the root over the two before it goes on, though its own key is on the page below.
#[test]
fn a_delete_splits(rt: HostRuntime) {
    runs(&rt, rt.alloc(), LIMITS, Width::Two, DELETE);
}

const INDEX: &[Part<'_>] = &[Part::Inserts(1, 200), Part::Lists(200), Part::Pairs(1, 200)];

#[test]
fn an_index_page_is_split(rt: HostRuntime) {
    runs(&rt, rt.alloc(), (2, 64, 4096, 1), Width::Three, INDEX);
}

const GROWN_AND_SHRUNK: &[Part<'_>] = &[
    Part::Inserts(1, 200),
    Part::Deletes(200, 1),
    Part::Adds("list\n", "pairs 0\n"),
    Part::Adds("begin 0 insert a 1\nfinish 0\n", "0 inserted\n"),
    Part::Adds(
        "begin 0 get a\nfinish 0\nlist\n",
        "0 value 1\npairs 1\na 1\n",
    ),
];

#[test]
fn a_tree_grows_and_shrinks_to_nothing(rt: HostRuntime) {
    let limits = (2, 256, 4096, 1);
    runs(&rt, rt.alloc(), limits, Width::Three, GROWN_AND_SHRUNK);
}

const FEW_ROWS: &[Part<'_>] = &[
    Part::Adds("begin 1 get k33\nturn 1 2\n", ""),
    Part::Inserts(1, 40),
    Part::Adds("begin 0 upsert k01 x\nfinish 0\n", "0 replaced v01\n"),
    Part::Repeats(6, "begin 0 upsert k01 x\nfinish 0\n", "0 replaced x\n"),
    Part::Adds("begin 0 insert k41 v41\nuntil 0 base\n", ""),
    Part::Adds("finish 0\n", "0 full\n"),
    Part::Adds("begin 0 insert k42 v42\nfinish 0\n", "0 full\n"),
    Part::Adds("begin 0 upsert k17 y\nfinish 0\n", "0 replaced v17\n"),
    Part::Adds("begin 0 upsert k17 z\nfinish 0\n", "0 full\n"),
    Part::Adds("finish 1\n", "1 value v33\n"),
    Part::Lists(40),
    Part::Adds("", "k01 x\n"),
    Part::Pairs(2, 16),
    Part::Adds("", "k17 y\n"),
    Part::Pairs(18, 40),
];

// Actor 1 stays inside, so that nothing is used again. Forty inserts use 53 rows: one for each, one for the first consolidation, and
// four for each of three splits (a consolidation, two for the split, and the new root or the term). Of the nine that are left, seven
// updates at the first page take one each. The next insert consolidates by one and has one for a split, which needs two: that one
// it keeps, and the next update that needs only one uses it.
#[test]
fn a_split_runs_out_of_rows(rt: HostRuntime) {
    runs(&rt, rt.alloc(), (2, 64, 64, 1), Width::Two, FEW_ROWS);
}

const FEW_PIDS: &[Part<'_>] = &[
    Part::Inserts(1, 448),
    Part::Adds("begin 0 insert k449 v449\nuntil 0 term\n", ""),
    Part::Adds("finish 0\n", "0 full\n"),
    Part::Adds("begin 0 insert k449 v449\nfinish 0\n", "0 full\n"),
    Part::Adds("begin 0 get k449\nfinish 0\n", "0 none\n"),
    Part::Adds("begin 0 get k448\nfinish 0\n", "0 value v448\n"),
    Part::Adds("begin 1 upsert k001 x\nfinish 1\n", "1 replaced v001\n"),
    Part::Lists(448),
    Part::Adds("", "k001 x\n"),
    Part::Pairs(2, 448),
    Part::Deletes(200, 2),
    Part::Inserts(449, 600),
    Part::Lists(401),
    Part::Adds("", "k001 x\n"),
    Part::Pairs(201, 600),
];

// In ascending order each eighth insert from the seventeenth on splits a leaf, and the first brings a root. An index page of sixteen
// terms is split: after the fifteenth split of a leaf, with a new root over it, and after each eighth one from there. So the 62 free
// PIDs do for the fifty-fifth split of a leaf, at k449, whose term makes the last index page full. No PID is left to split that one,
// as each writer that meets it has to. Once leaves at the other end are removed, the tree grows on.
#[test]
fn pids_run_out(rt: HostRuntime) {
    runs(&rt, rt.alloc(), (2, 64, 1024, 1), Width::Three, FEW_PIDS);
}
