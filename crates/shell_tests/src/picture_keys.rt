//! Keys and values of bytes that a document can't have as they are, and long ones.

use crate::parts::count;
use crate::picture_runs::{add_insert, drawn};
use bw_model::Limits;
use std::alloc::{AllocError, Global};
use std::test::Fail;

/// Keys, and how each stands in the picture.
const KEYS: &[(&[u8], &[u8])] = &[
    (b"<", b"&lt;"),
    (b">", b"&gt;"),
    (b"&", b"&amp;"),
    (b"&lt;", b"&amp;lt;"),
    (b"\"", b"&quot;"),
    (b"'", b"'"),
    (b"]]>", b"]]&gt;"),
    (b"</svg>", b"&lt;/svg&gt;"),
    (b"=", b"=3d"),
    (b"a b", b"=612062"),
    (b"\x00", b"=00"),
    (b"\n", b"=0a"),
    (b"\x7f", b"=7f"),
    (b"\xff", b"=ff"),
    (b"\xc3\xa9", b"=c3a9"),
    (
        &[b'&'; 64],
        b"&amp;&amp;&amp;&amp;&amp;&amp;&amp;&amp;&amp;&amp;..",
    ),
    (&[0xff; 64], b"=ffffffffff.."),
];

/// The picture of a tree that has a key, with its own bytes for a value.
fn drawn_with(alloc: Global, limits: Limits, key: &[u8]) -> Result<Option<Vec<u8>>, AllocError> {
    let mut lines = Vec::new(alloc);
    add_insert(&mut lines, key)?;
    Ok(drawn(alloc, limits, lines.as_slice()))
}

/// Whether that shows the put of the key so, once.
fn is_shown(alloc: Global, limits: Limits, key: &[u8], shown: &[u8]) -> Result<bool, AllocError> {
    let Some(text) = drawn_with(alloc, limits, key)? else {
        return Ok(false);
    };
    let mut put = Vec::new(alloc);
    for part in [b">put ".as_slice(), shown, b" = ", shown, b"</text>"] {
        put.extend_from_slice(part)?;
    }
    Ok(count(text.as_slice(), put.as_slice()) == 1)
}

// The empty key is the lowest one.
#[test]
fn the_lowest_key_is_named(rt: HostRuntime) -> Result<(), Fail> {
    let limits = Limits::new(2, 64, 256, 1)?;
    let text = drawn_with(rt.alloc(), limits, b"")?.ok_or("no picture")?;
    let found = count(text.as_slice(), b">put (lowest) = =<");
    assert_eq!(rt; found, 1, "the lowest key");
    Ok(())
}

#[test]
fn odd_keys_are_escaped(rt: HostRuntime) -> Result<(), Fail> {
    let limits = Limits::new(2, 64, 256, 1)?;
    for (number, (key, shown)) in KEYS.iter().enumerate() {
        assert!(rt; is_shown(rt.alloc(), limits, key, shown)?, "key {number}");
    }
    Ok(())
}

/// The picture of a tree that has a key of each single byte, and a key of 64 times that byte.
fn drawn_with_all(alloc: Global, limits: Limits) -> Result<Option<Vec<u8>>, AllocError> {
    let mut lines = Vec::new(alloc);
    for byte in 0..=255u8 {
        add_insert(&mut lines, &[byte])?;
        add_insert(&mut lines, &[byte; 64])?;
    }
    Ok(drawn(alloc, limits, lines.as_slice()))
}

#[test]
fn each_byte_is_drawn(rt: HostRuntime) -> Result<(), Fail> {
    let limits = Limits::new(2, 256, 1024, 1)?;
    let pages = match drawn_with_all(rt.alloc(), limits)? {
        Some(text) => count(text.as_slice(), b" class=\"page-"),
        None => 0,
    };
    assert!(rt; pages > 60, "{pages} pages");
    Ok(())
}
