//! Trees that open at the last epochs, of which the greatest is never retired.

use crate::runs::Run;
use crate::trees::go_right;
use bw_model::Limits;
use std::alloc::Global;

/// The greatest epoch.
const LAST: u64 = 1 << 62;

/// Whether these runs go right on a tree of two seats and as few rows as may be, which opens so many epochs before the last one.
fn go_right_before(alloc: Global, before: u64, all: &[Run]) -> bool {
    go_right(
        alloc,
        Limits::new(2, 64, 64, 1),
        LAST.wrapping_sub(before),
        all,
    )
}

// While the other seat is idle, what the updates take out of the tree is freed, though the epoch stays, or comes to its last value meanwhile.
#[test]
fn rows_come_back_at_the_last_epochs(rt: HostRuntime) {
    for before in [0, 1, 5] {
        assert!(rt;
            go_right_before(rt.alloc(), before, &[Run::Updates(true, 1000)]),
            "{before}"
        );
    }
}

// The other seat stays inside, from an epoch that may be retired still, until the updates find no room; once it has left they go on.
#[test]
fn a_seat_inside_keeps_rows_at_the_last_epochs(rt: HostRuntime) {
    let all = [Run::Stays, Run::Goes, Run::Updates(false, 1000)];
    for before in [0, 1, 5] {
        assert!(rt; go_right_before(rt.alloc(), before, &all), "{before}");
    }
}
