//! Keys and values by number.

use bw_model::{Command, Key, Reply, Value};

/// Two bytes that stand for a number; those of the numbers below 4,096 are in their order.
fn bytes(number: u32) -> [u8; 2] {
    [b'A' + (number / 64 % 64) as u8, b'A' + (number % 64) as u8]
}

pub(crate) fn key(number: u32) -> Key {
    Key::from_slice(&bytes(number)).unwrap_or_default()
}

pub(crate) fn value(number: u32) -> Value {
    Value::from_slice(&bytes(number)).unwrap_or_default()
}

/// An insert of a key with the value of its number.
pub(crate) fn insert(number: u32) -> Command {
    Command::Insert(key(number), value(number))
}

/// An update of a key to the value of another number.
pub(crate) fn upsert(number: u32, other: u32) -> Command {
    Command::Upsert(key(number), value(other))
}

/// A lookup of a key.
pub(crate) fn get(number: u32) -> Command {
    Command::Get(key(number))
}

/// A deletion of a key.
pub(crate) fn delete(number: u32) -> Command {
    Command::Delete(key(number))
}

/// What a lookup is to say of the key that has the value of a number.
pub(crate) fn found(number: u32) -> Reply {
    Reply::Value(value(number))
}

/// The key and the value of a place below 99 in the row `k01`, `k02` and on: `k01` and `v01` stand at 0.
pub(crate) fn pair(place: u32) -> (Key, Value) {
    let number = place.wrapping_add(1);
    let (tens, ones) = (b'0' + (number / 10 % 10) as u8, b'0' + (number % 10) as u8);
    let key = Key::from_slice(&[b'k', tens, ones]).unwrap_or_default();
    let value = Value::from_slice(&[b'v', tens, ones]).unwrap_or_default();
    (key, value)
}

/// Whether the pairs are those of the row `k01`, `k02` and on, so many.
pub(crate) fn are_from_k01(pairs: &[(Key, Value)], count: u32) -> bool {
    let mut left = pairs.iter();
    for place in 0..count {
        if left.next() != Some(&pair(place)) {
            return false;
        }
    }
    left.next().is_none()
}

/// Whether the pairs are those of the numbers from the first one on and below the end.
pub(crate) fn are_numbers(pairs: &[(Key, Value)], first: u32, end: u32) -> bool {
    let mut left = pairs.iter();
    for number in first..end {
        if left.next() != Some(&(key(number), value(number))) {
            return false;
        }
    }
    left.next().is_none()
}
