//! A page in each state of a split and a removal that is half done: its mark stands once in the picture, beside the legend.

use crate::parts::count;
use crate::picture_runs::drawn;
use bw_model::Limits;
use std::alloc::{AllocError, Global};
use std::test::Fail;

/// How often each mark stands in a picture: a held page, a removed one, a merged one, one without a term, and a dashed line.
type Marks = [usize; 5];

/// What stands for each mark.
const WORDS: [&[u8]; 5] = [
    b">held<",
    b">removed<",
    b" merged<",
    b">no term<",
    b"\"6 4\"",
];

/// The marks of a picture.
fn marks_of(text: &[u8]) -> Marks {
    WORDS.map(|word| count(text, word))
}

/// Adds lines by which actor 0 runs a command on the keys of two digits from one number on and below another one.
pub(crate) fn add_commands(
    lines: &mut Vec<u8>,
    command: &[u8],
    value: &[u8],
    from: u8,
    end: u8,
) -> Result<(), AllocError> {
    for number in from..end {
        lines.extend_from_slice(b"begin 0 ")?;
        lines.extend_from_slice(command)?;
        lines.extend_from_slice(&[b'0' + number / 10 % 10, b'0' + number % 10])?;
        lines.extend_from_slice(value)?;
        lines.extend_from_slice(b"\nfinish 0\n")?;
    }
    Ok(())
}

/// The marks of the picture once 34 keys were inserted and 4 of them deleted, and actor 1 has begun a change; none where it isn't drawn.
fn marks_after(alloc: Global, limits: Limits, change: &[u8]) -> Result<Option<Marks>, AllocError> {
    let mut lines = Vec::new(alloc);
    add_commands(&mut lines, b"insert k", b" v", 1, 35)?;
    add_commands(&mut lines, b"delete k", b"", 9, 13)?;
    lines.extend_from_slice(change)?;
    match drawn(alloc, limits, lines.as_slice()) {
        Some(text) => Ok(Some(marks_of(text.as_slice()))),
        None => Ok(None),
    }
}

// The legend has a box for each of the first three marks, and a dashed line.
#[test]
fn each_mark_is_drawn_once(rt: HostRuntime) -> Result<(), Fail> {
    let limits = Limits::new(2, 64, 256, 1)?;
    for (change, expected) in [
        (b"".as_slice(), [1, 1, 0, 0, 1]),
        (b"begin 1 delete k13\nuntil 1 hold\n", [2, 1, 0, 0, 1]),
        (b"begin 1 delete k13\nuntil 1 remove\n", [1, 2, 0, 0, 1]),
        (b"begin 1 delete k13\nuntil 1 merge\n", [1, 1, 1, 0, 1]),
        (b"begin 1 delete k13\nfinish 1\n", [1, 1, 0, 0, 1]),
    ] {
        let marks = marks_after(rt.alloc(), limits, change)?;
        assert!(rt; marks == Some(expected), "{marks:?} for {expected:?}");
    }
    Ok(())
}

// The fortieth key fills the last page, and the next one splits it: the new page has no term yet.
#[test]
fn a_missing_term_is_dashed(rt: HostRuntime) -> Result<(), Fail> {
    let limits = Limits::new(2, 64, 256, 1)?;
    let mut lines = Vec::new(rt.alloc());
    add_commands(&mut lines, b"insert k", b" v", 35, 41)?;
    lines.extend_from_slice(b"begin 1 insert k41 v\nuntil 1 split\n")?;
    let marks = marks_after(rt.alloc(), limits, lines.as_slice())?;
    assert!(rt; marks == Some([1, 1, 0, 1, 2]), "{marks:?}");
    Ok(())
}
