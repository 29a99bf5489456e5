//! Lines for `draw`, and the picture that it writes.

use bw_model::Limits;
use byte_streams::{Reader, Writer};
use drawing::draw;
use std::alloc::{AllocError, Global};

/// What is written after these lines; none where the status isn't 0.
pub(crate) fn drawn(alloc: Global, limits: Limits, lines: &[u8]) -> Option<Vec<u8>> {
    let mut input = Reader::new(lines);
    let mut output = Writer::new(Vec::new(alloc));
    match draw(alloc, limits, &mut input, &mut output) {
        0 => Some(output.inner),
        _ => None,
    }
}

/// A hexadecimal digit.
fn hexadecimal(value: u8) -> u8 {
    match value % 16 {
        digit @ 0..=9 => b'0' + digit,
        digit => b'a' + (digit - 10),
    }
}

/// Adds a key in digits.
fn add_token(lines: &mut Vec<u8>, bytes: &[u8]) -> Result<(), AllocError> {
    lines.push(b'=')?;
    for byte in bytes {
        lines.push(hexadecimal(*byte / 16))?;
        lines.push(hexadecimal(*byte))?;
    }
    Ok(())
}

/// Adds lines by which actor 0 inserts a key, with the same bytes for its value.
pub(crate) fn add_insert(lines: &mut Vec<u8>, key: &[u8]) -> Result<(), AllocError> {
    lines.extend_from_slice(b"begin 0 insert ")?;
    add_token(lines, key)?;
    lines.push(b' ')?;
    add_token(lines, key)?;
    lines.extend_from_slice(b"\nfinish 0\n")
}

/// Adds lines by which actor 0 inserts the keys of so many numbers, in order.
pub(crate) fn add_numbers(lines: &mut Vec<u8>, count: u32) -> Result<(), AllocError> {
    for number in 0..count {
        add_insert(lines, &number.to_be_bytes())?;
    }
    Ok(())
}
