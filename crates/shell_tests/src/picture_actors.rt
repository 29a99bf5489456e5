//! Where actors stand, and what they have in limbo.

use crate::parts::count;
use crate::picture_marks::add_commands;
use crate::picture_runs::drawn;
use bw_model::Limits;
use std::test::Fail;

/// Lines, and how often each text stands in the picture after them. A lookup enters, reads slot 0 and then the root's, after which it reads that row next. The
/// insertion reads them too; it reads the row of page 1 before it takes another.
const STANDS: [(&[u8], &[u8], usize); 8] = [
    (b"begin 0 get a\nturn 0 2\n", b"fill=\"#8250df\">actor ", 0),
    (
        b"begin 0 get a\nturn 0 3\n",
        b">get a; wants to read slot 1<",
        1,
    ),
    (
        b"begin 0 get a\nturn 0 4\n",
        b"fill=\"#8250df\">actor 0, next row 1<",
        1,
    ),
    (
        b"begin 0 get a\nturn 0 4\n",
        b"; at PID 1; wants to read row 1<",
        1,
    ),
    (
        b"begin 0 get a\nturn 0 4\n",
        b" fill=\"#ffffff\" stroke=\"#8250df\" stroke-width=\"3\"></rect>\n<text ",
        2,
    ),
    (
        b"begin 0 get a\nturn 0 4\nbegin 1 insert b 1\nturn 1 5\n",
        b"fill=\"#8250df\">actor 1<",
        1,
    ),
    (b"begin 0 get a\nturn 0 4\n", b">actor 0: epoch 1<", 1),
    (b"begin 0 get a\nfinish 0\n", b">actor 0: outside<", 1),
];

/// Lines, and how often each text stands in the picture after them. A lookup's fourth step reads slot 1 and its fifth one row 1; an insertion's eighth one
/// places a record in row 2, and its ninth one links it.
const TOUCHES: [(&[u8], &[u8], usize); 8] = [
    (
        b"begin 0 get a\nturn 0 3\n",
        b"class=\"slot-1\" x=\"30\" y=\"86\" width=\"130\" height=\"20\" rx=\"4\" fill=\"#ffffff\" stroke=\"#1b1f24\" stroke-width=\"1\">",
        1,
    ),
    (
        b"begin 0 get a\nturn 0 4\n",
        b"class=\"slot-1\" x=\"30\" y=\"86\" width=\"130\" height=\"20\" rx=\"4\" fill=\"#ffffff\" stroke=\"#1b1f24\" stroke-width=\"3\">",
        1,
    ),
    (
        b"begin 0 insert a 1\nturn 0 9\n",
        b"class=\"slot-1\" x=\"30\" y=\"86\" width=\"130\" height=\"20\" rx=\"4\" fill=\"#ffffff\" stroke=\"#cf222e\" stroke-width=\"3\">",
        1,
    ),
    (
        b"begin 0 insert a 1\nturn 0 7\n",
        b">placed by actor 0, not linked yet<",
        0,
    ),
    (
        b"begin 0 insert a 1\nturn 0 8\n",
        b">placed by actor 0, not linked yet<",
        1,
    ),
    (
        b"begin 0 insert a 1\nturn 0 9\n",
        b">placed by actor 0, not linked yet<",
        0,
    ),
    (
        b"begin 1 get a\nturn 1 4\nbegin 0 insert a 1\nfinish 0\n",
        b">out of the tree, kept for actor 1<",
        0,
    ),
    (b"begin 0 insert a 1\nturn 0 10\n", b">row 2:<", 1),
];

#[test]
fn the_last_step_is_marked(rt: HostRuntime) -> Result<(), Fail> {
    let limits = Limits::new(2, 64, 256, 1)?;
    for (number, (lines, part, times)) in TOUCHES.iter().enumerate() {
        let text = drawn(rt.alloc(), limits, lines);
        assert!(rt;
            text.is_some_and(|text| count(text.as_slice(), part) == *times),
            "touch {number}"
        );
    }
    Ok(())
}

// A lookup has read slot 1 before ten insertions replace its page by another base: the row that it reads next is drawn beside the tree.
#[test]
fn what_is_still_read_is_drawn(rt: HostRuntime) -> Result<(), Fail> {
    let limits = Limits::new(2, 64, 256, 1)?;
    let mut lines = Vec::new(rt.alloc());
    lines.extend_from_slice(b"begin 1 get a\nturn 1 4\n")?;
    add_commands(&mut lines, b"upsert k", b" v", 1, 10)?;
    let text = drawn(rt.alloc(), limits, lines.as_slice()).ok_or("no picture")?;
    assert!(rt; count(text.as_slice(), b">out of the tree, kept for actor 1<") == 1);
    assert!(rt; count(text.as_slice(), b">row 1:<") == 1);
    Ok(())
}

#[test]
fn actors_stand_at_pages(rt: HostRuntime) -> Result<(), Fail> {
    let limits = Limits::new(2, 64, 256, 1)?;
    for (number, (lines, part, times)) in STANDS.iter().enumerate() {
        let text = drawn(rt.alloc(), limits, lines);
        assert!(rt;
            text.is_some_and(|text| count(text.as_slice(), part) == *times),
            "stand {number}"
        );
    }
    Ok(())
}

// A lookup sleeps in epoch 1 while the other actor consolidates a leaf again and again. Each consolidation takes eight puts and the base under them out of the tree,
// and none of these rows is free while the lookup is inside: all of them are cells, under three stamps.
#[test]
fn all_of_a_limbo_is_shown(rt: HostRuntime) -> Result<(), Fail> {
    let limits = Limits::new(2, 64, 256, 1)?;
    let mut lines = Vec::new(rt.alloc());
    lines.extend_from_slice(b"begin 1 get a\nturn 1 3\n")?;
    for _ in 0..3 {
        add_commands(&mut lines, b"upsert k", b" v", 1, 10)?;
    }
    let text = drawn(rt.alloc(), limits, lines.as_slice()).ok_or("no picture")?;
    assert_eq!(rt; count(text.as_slice(), b", epoch "), 27, "cells");
    Ok(())
}
