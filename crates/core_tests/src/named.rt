//! Keys as k01 and on, and values as v01 and on.

use bw_model::{Key, Value};
use std::alloc::Global;

/// The key of a number below 100.
pub(crate) fn key(number: u32) -> Key {
    let (tens, ones) = (b'0' + (number / 10 % 10) as u8, b'0' + (number % 10) as u8);
    Key::from_slice(&[b'k', tens, ones]).unwrap_or_default()
}

/// The value of a number, in two digits at least; the empty one where there is no memory.
pub(crate) fn value(alloc: Global, number: u64) -> Value {
    match format!(in alloc; "v{number:02}") {
        Ok(text) => Value::from_slice(text.as_bytes()).unwrap_or_default(),
        Err(_) => Value::default(),
    }
}
