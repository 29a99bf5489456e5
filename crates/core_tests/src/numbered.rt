//! Keys and values by number.

use bw_model::{Command, Key, Pairs, Reply, Value};

/// As many numbers' keys are in the order of the numbers.
pub(crate) const KEYS: u32 = DIGITS * DIGITS;

/// How many values a byte of a key has.
const DIGITS: u32 = 128;

/// Two bytes that stand for a number.
fn bytes(number: u32) -> [u8; 2] {
    [
        b'A' + (number / DIGITS % DIGITS) as u8,
        b'A' + (number % DIGITS) as u8,
    ]
}

pub(crate) fn key(number: u32) -> Key {
    Key::from_slice(&bytes(number)).unwrap_or_default()
}

pub(crate) fn value(number: u32) -> Value {
    Value::from_slice(&bytes(number)).unwrap_or_default()
}

/// A key between that of a number and the next one.
pub(crate) fn between(number: u32, last: u8) -> Key {
    let [first, second] = bytes(number);
    Key::from_slice(&[first, second, last]).unwrap_or_default()
}

/// An insert of a key with the value of its number.
pub(crate) fn insert(number: u32) -> Command {
    Command::Insert(key(number), value(number))
}

/// The pairs of the keys from one number to another, 24 at most.
fn pairs(first: u32, last: u32) -> Pairs {
    let mut items = Pairs::new();
    for number in first..=last {
        if items.as_slice().len() < 24 {
            items.push(key(number), value(number));
        }
    }
    items
}

/// The cursor page of the keys from one number to another, and the next one.
pub(crate) fn page(first: u32, last: u32, next: Option<u32>) -> Reply {
    Reply::Page {
        items: pairs(first, last),
        next: next.map(key),
    }
}

/// The greatest key below that of a number: its last byte is one less, and bytes of 255 fill it up.
pub(crate) fn before(number: u32) -> Key {
    let mut greatest = [255u8; 64];
    let [high, low] = bytes(number);
    greatest[0] = high;
    greatest[1] = low.wrapping_sub(1);
    Key::from_slice(&greatest).unwrap_or_default()
}

/// The page backward of the keys from one number to another, in a leaf whose low key is that of a number, or the least key.
pub(crate) fn back_page(first: u32, last: u32, low: Option<u32>) -> Reply {
    Reply::BackPage {
        items: pairs(first, last),
        next: low.map(before),
    }
}

/// The least number whose key is above a key: of a key before that of a number, this one.
pub(crate) fn number_above(key: &Key) -> Option<u32> {
    match key.as_slice() {
        [high, low, ..] => {
            let high = u32::from(high.wrapping_sub(b'A'));
            Some(high * DIGITS + u32::from(low.wrapping_sub(b'A').wrapping_add(1)))
        }
        _ => None,
    }
}

/// The number of a key of these.
pub(crate) fn number_of(key: &Key) -> Option<u32> {
    match key.as_slice() {
        [high, low] => {
            let high = u32::from(high.wrapping_sub(b'A'));
            Some(high * DIGITS + u32::from(low.wrapping_sub(b'A')))
        }
        _ => None,
    }
}

/// Whether a pair is the key of a number and the value of one.
pub(crate) fn is_pair(pair: Option<&(Key, Value)>, number: u32, of: u32) -> bool {
    pair == Some(&(key(number), value(of)))
}
