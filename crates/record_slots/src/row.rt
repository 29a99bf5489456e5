//! The parts of a row before its items.
ghost use Rattle.std.specs.Prelude.{◌≡◌, ◌≤◌};
ghost use Rattle.record_slots.specs.Parts.{are_zeros, IsHeaderIn, IsNumberIn, IsRowIn};
ghost use Rattle.record_slots.specs.Spells.{FindsOne};

use crate::layout::{
    FIRST_ITEM, FIRST_KEY, FORM, FORM_UNIT, ITEM_UNIT, ITEM_WORDS, LEVEL_UNIT, PART_LIMIT,
    ROW_WORDS, SECOND_KEY,
};
use crate::texts::{bound_in, field_in};
use bw_model::Key;
use thiserror::Error;

/// The words spell no record.
#[derive(Clone, Copy, Debug, PartialEq, Eq, Error)]
#[error("the words spell no record")]
pub struct BadRow;

/// What a row has before its items, whatever its kind.
#[derive(Drop)]
pub struct Row {
    pub kind: u8,
    pub level: u8,
    pub count: usize,
    pub next: u32,
    pub page: u32,
    pub first: Key,
    pub second: Option<Key>,
}

/// What stands in a row's first word.
#[derive(Clone, Copy)]
pub struct Header {
    pub kind: u8,
    pub level: u8,
    pub count: usize,
}

/// The parts of a row, where nothing stands behind its items.
pub(crate) fn row_in(words: &[u64; ROW_WORDS]) -> Result<Row, BadRow>
    ensures { FindsOne (IsRowIn words.now) result }
{
    let header = header_in(words[0])?;
    let next = number_in(words[1], 67108864)?;
    let page = number_in(words[2], 4194304)?;
    let first = field_in(&words[FIRST_KEY..SECOND_KEY])?;
    let second = bound_in(&words[SECOND_KEY..FIRST_ITEM])?;
    if !are_zeros(&words[FIRST_ITEM + ITEM_WORDS * header.count..]) {
        return Err(BadRow);
    }
    Ok(Row {
        kind: header.kind,
        level: header.level,
        count: header.count,
        next,
        page,
        first,
        second,
    })
}

/// The parts of a row's first word, which has a byte each for the kind, the level and the count, and the rest for the form.
fn header_in(word: u64) -> Result<Header, BadRow>
    ensures { FindsOne (IsHeaderIn word) result }
{
    let level = word / LEVEL_UNIT % PART_LIMIT;
    let count = word / ITEM_UNIT % PART_LIMIT;
    if level > 15 || count > 24 || word / FORM_UNIT != FORM {
        return Err(BadRow);
    }
    Ok(Header {
        kind: (word % PART_LIMIT) as u8,
        level: level as u8,
        count: count as usize,
    })
}

/// The number, which is to be below a limit.
fn number_in(word: u64, limit: u64) -> Result<u32, BadRow>
    requires { limit ≤ 4294967296 }
    ensures { FindsOne (IsNumberIn word limit) result }
{
    if word < limit {
        Ok(word as u32)
    } else {
        Err(BadRow)
    }
}

/// Whether nothing stands in the words.
pub(crate) fn are_zeros(words: &[u64]) -> bool
    ensures { result ≡ are_zeros words.now }
{
    let mut all = 0;
    for word in words {
        all |= *word;
    }
    all == 0
}
