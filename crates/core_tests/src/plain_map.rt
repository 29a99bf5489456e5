//! A plain map of numbers to numbers, with its past: what it had at each moment.

use crate::numbered::{KEYS, before, key, number_above, number_of, value};
use bw_model::{Key, Pairs, Value};
use std::alloc::{AllocError, Global};

/// How many values there are that spell no number.
pub(crate) const VALUES: u32 = 8;

/// No value, where numbers stand for values.
pub(crate) const ABSENT: u32 = VALUES;

/// The values that spell a number come behind that: as many as there are multiples of 2^61 below 2^64.
pub(crate) const MULTIPLES: u32 = 8;

/// The number of the value that spells a multiple of 2^61.
pub(crate) fn multiple(of: u32) -> u32 {
    ABSENT + 1 + of % MULTIPLES
}

/// Which multiple of 2^61 the value of a number spells, if it spells one.
pub(crate) fn multiple_in(number: u32) -> Option<u32> {
    number.checked_sub(ABSENT + 1)
}

/// The value of a number: of a multiple of 2^61 only the highest of eight bytes isn't 0.
pub(crate) fn value_at(number: u32) -> Value {
    match multiple_in(number) {
        Some(of) => {
            let highest = (of % MULTIPLES) as u8 * 32;
            Value::from_slice(&[highest, 0, 0, 0, 0, 0, 0, 0]).unwrap_or_default()
        }
        None => value(number),
    }
}

/// Whether a pair is the key of a number and the value of one.
fn is_pair(pair: Option<&(Key, Value)>, number: u32, of: u32) -> bool {
    pair == Some(&(key(number), value_at(of)))
}

/// The values of the numbers of keys, and each change that there was: the number, and its value before.
#[derive(Drop)]
pub(crate) struct PlainMap {
    values: Vec<u32>,
    changes: Vec<(u32, u32)>,
}

fn value_in(values: &[u32], number: u32) -> u32 {
    values.get(number as usize).copied().unwrap_or(ABSENT)
}

/// Whether the items are the pairs from a number up to an end.
fn has_page(values: &[u32], from: u32, end: u32, items: &[(Key, Value)]) -> bool {
    let mut left = items.iter();
    for number in from..end {
        let had = value_in(values, number);
        if had != ABSENT && !is_pair(left.next(), number, had) {
            return false;
        }
    }
    left.next().is_none()
}

/// Whether the items are the pairs from a number up to an end, now or before one of these changes, of which the last is the newest.
fn had_page(
    values: &mut [u32],
    changes: &[(u32, u32)],
    (from, end): (u32, u32),
    items: &[(Key, Value)],
) -> bool {
    for (number, before) in changes.iter().rev() {
        if has_page(values, from, end, items) {
            return true;
        }
        if let Some(place) = values.get_mut(*number as usize) {
            *place = *before;
        }
    }
    has_page(values, from, end, items)
}

impl PlainMap {
    /// No values.
    pub(crate) fn new(alloc: Global) -> Result<PlainMap, AllocError> {
        Ok(PlainMap {
            values: vec![in alloc; ABSENT; KEYS as usize]?,
            changes: Vec::new(alloc),
        })
    }

    pub(crate) fn value(&self, number: u32) -> u32 {
        value_in(self.values.as_slice(), number)
    }

    /// How many changes there were.
    pub(crate) fn moment(&self) -> usize {
        self.changes.len()
    }

    /// Gives a number a value, or none.
    pub(crate) fn set(&mut self, number: u32, value: u32) -> Result<(), AllocError> {
        let before = self.value(number);
        self.changes.push((number, before))?;
        if let Some(place) = self.values.get_mut(number as usize) {
            *place = value;
        }
        Ok(())
    }

    /// Whether these are all pairs.
    pub(crate) fn has(&self, pairs: &[(Key, Value)]) -> bool {
        has_page(self.values.as_slice(), 0, KEYS, pairs)
    }

    /// Whether these were the pairs from one number up to another, at one of the moments since.
    fn had_range(
        &self,
        since: usize,
        range: (u32, u32),
        items: &Pairs,
    ) -> Result<bool, AllocError> {
        let mut values = self.values.clone()?;
        let changes = self.changes.as_slice();
        let past = changes.get(since..).unwrap_or(&[]);
        Ok(had_page(values.as_mut_slice(), past, range, items.as_slice()))
    }

    /// Whether these were the pairs from a number up to the next key, at one of the moments since.
    pub(crate) fn had_page(
        &self,
        since: usize,
        from: u32,
        items: &Pairs,
        next: Option<&Key>,
    ) -> Result<bool, AllocError> {
        let end = match next {
            None => KEYS,
            Some(key) => number_of(key).unwrap_or(0),
        };
        self.had_range(since, (from, end), items)
    }

    /// Whether these were the pairs down from a number to the key that comes after the next one, at one of the moments since.
    pub(crate) fn had_back_page(
        &self,
        since: usize,
        upto: u32,
        items: &Pairs,
        next: Option<&Key>,
    ) -> Result<bool, AllocError> {
        let low = match next {
            None => 0,
            Some(key) => number_above(key).unwrap_or(0),
        };
        let is_before = next.is_none() || next == Some(&before(low));
        let had = self.had_range(since, (low, upto.saturating_add(1)), items)?;
        Ok(is_before && low <= upto && had)
    }
}
