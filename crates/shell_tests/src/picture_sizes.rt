//! Small and large trees: a box for each page.

use crate::parts::count;
use crate::picture_runs::{add_numbers, drawn};
use bw_model::Limits;
use std::alloc::{AllocError, Global};
use std::test::Fail;

/// Whether the picture of a tree of so many keys has so many pages and this width, and says how many PIDs are free, in its description too.
fn has_pages(
    alloc: Global,
    limits: Limits,
    keys: u32,
    pages: usize,
    width: &[u8],
    free: &[u8],
) -> Result<bool, AllocError> {
    let mut lines = Vec::new(alloc);
    add_numbers(&mut lines, keys)?;
    let Some(text) = drawn(alloc, limits, lines.as_slice()) else {
        return Ok(false);
    };
    let text = text.as_slice();
    Ok(
        count(text, b" class=\"page-") == pages
            && count(text, b">PID ") == pages
            && count(text, width) == 1
            && count(text, free) == 2,
    )
}

// Keys in ascending order leave 8 in each leaf but the last one, and 8 terms in each page above but the last one of its level: 78 keys
// are 9 leaves and a root. A page takes 276 pixels, and 210 are left free.
#[test]
fn ten_pages(rt: HostRuntime) -> Result<(), Fail> {
    let limits = Limits::new(2, 64, 256, 1)?;
    assert!(rt;
        has_pages(
            rt.alloc(),
            limits,
            78,
            10,
            b" width=\"2694\" height=",
            b"; free PIDs: 53; "
        )?,
        "10 pages"
    );
    Ok(())
}

// 7,040 keys are 879 leaves, and 109, 13 and 1 pages above them. No more than 12 stand beside each other.
#[test]
fn a_thousand_pages(rt: HostRuntime) -> Result<(), Fail> {
    let limits = Limits::new(2, 4096, 16384, 1)?;
    assert!(rt;
        has_pages(
            rt.alloc(),
            limits,
            7040,
            1002,
            b" width=\"3522\" height=",
            b"; free PIDs: 3093; "
        )?,
        "1002 pages"
    );
    Ok(())
}
