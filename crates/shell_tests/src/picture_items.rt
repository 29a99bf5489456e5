//! Items that a merge brought, and items that newer records took away.

use crate::parts::count;
use crate::picture_marks::add_commands;
use crate::picture_runs::drawn;
use bw_model::Limits;
use std::test::Fail;

/// How often each text stands in the picture. 17 keys split a leaf. The right one loses all but k09 to k12, and k10 is set anew. The deletion of k12 finds that
/// leaf small, so it is merged into the left one before k12 is deleted there. So k09, k11 and k12 stand in the base of the left one, from before the split, and
/// in the merge, the stale k10 in the base alone, and the new k10 in the merge alone. What the split took out of the base is struck through, and both k12.
const SHOWN: [(&[u8], usize); 10] = [
    (b"\"none\">k08 = v<", 1),
    (b"\"none\">k09 = v<", 1),
    (b"\"line-through\">k09 = v<", 1),
    (b"\"line-through\">k10 = v<", 1),
    (b"\"none\">k10 = new<", 1),
    (b"\"none\">k11 = v<", 1),
    (b"\"line-through\">k11 = v<", 1),
    (b"\"line-through\">k12 = v<", 2),
    (b"\"none\">delete k12<", 1),
    (b">k08 = v<", 1),
];

#[test]
fn merged_items_are_shown(rt: HostRuntime) -> Result<(), Fail> {
    let limits = Limits::new(2, 64, 256, 1)?;
    let mut lines = Vec::new(rt.alloc());
    add_commands(&mut lines, b"insert k", b" v", 1, 18)?;
    add_commands(&mut lines, b"delete k", b"", 13, 18)?;
    add_commands(&mut lines, b"upsert k", b" new", 10, 11)?;
    add_commands(&mut lines, b"delete k", b"", 12, 13)?;
    let text = drawn(rt.alloc(), limits, lines.as_slice()).ok_or("no picture")?;
    for (number, (part, times)) in SHOWN.iter().enumerate() {
        let found = count(text.as_slice(), part);
        assert!(rt; found == *times, "text {number}: {found} times");
    }
    Ok(())
}
