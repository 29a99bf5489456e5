//! Keys and values read from words.
ghost use Rattle.std.specs.Prelude.{◌≡◌, ◌<◌, ◌≤◌, ◌==◌, ◌%◌, ◌^◌, ◌+◌, ◌-◌, ◌*◌, ◌++◌, ℕ, List, IsTrue, IsFalse, length, take, drop};
ghost use Rattle.std.specs.Int.{w64, to_be_bytes};
ghost use Rattle.bw_model.specs.declared.short_bytes.TheConstants.{MAX_LENGTH};
ghost use Rattle.record_slots.specs.Layout.{field_size, text_size};
ghost use Rattle.record_slots.specs.Spells.{FindsOne};
ghost use Rattle.record_slots.specs.Texts.{IsText, IsField, IsBound, bytes_of, ends_there};
ghost use Rattle.record_slots.specs.declared.layout.TheConstants.{TEXT_WORDS};

use crate::BadRow;
use crate::layout::{NO_BOUND, TEXT_WORDS};
use crate::row::are_zeros;
use bw_model::{Key, MAX_LENGTH, Value};

/// A key, from its length and its words of bytes.
#[inline]
pub(crate) fn key_in(count: u64, words: &[u64]) -> Result<Key, BadRow>
    requires { length words.now ≡ text_size }
    ensures { FindsOne (IsText count words.now) result }
{
    let mut bytes = [0; MAX_LENGTH];
    if !read_text(count, words, &mut bytes) {
        return Err(BadRow);
    }
    Ok(Key::first_of(&bytes, count as u8))
}

/// A value, from its length and its words of bytes.
#[inline]
pub(crate) fn value_in(count: u64, words: &[u64]) -> Result<Value, BadRow>
    requires { length words.now ≡ text_size }
    ensures { FindsOne (IsText count words.now) result }
{
    let mut bytes = [0; MAX_LENGTH];
    if !read_text(count, words, &mut bytes) {
        return Err(BadRow);
    }
    Ok(Value::first_of(&bytes, count as u8))
}

/// A key, from the words of its field.
pub(crate) fn field_in(words: &[u64]) -> Result<Key, BadRow>
    requires { length words.now ≡ field_size }
    ensures { FindsOne (IsField words.now) result }
{
    key_in(words[0], &words[1..])
}

/// A key or no bound, from the words of its field.
pub(crate) fn bound_in(words: &[u64]) -> Result<Option<Key>, BadRow>
    requires { length words.now ≡ field_size }
    ensures { FindsOne (IsBound words.now) result }
{
    if words[0] != NO_BOUND {
        return Ok(Some(field_in(words)?));
    }
    if are_zeros(&words[1..]) {
        Ok(None)
    } else {
        Err(BadRow)
    }
}

/// Reads the bytes of words, and answers whether the first ones are a text of that length, with nothing behind it.
#[inline(always)]
fn read_text(count: u64, words: &[u64], bytes: &mut [u8; MAX_LENGTH]) -> bool
    requires words { length words.now ≡ text_size }
    ensures few { IsTrue result → count ≤ MAX_LENGTH }
    ensures text { IsTrue result → IsText count words.now (take count bytes.new) }
    ensures none { IsFalse result → (text : List ℕ) → IsText count words.now text → ⊥ }
{
    count <= MAX_LENGTH as u64 && read_bytes(count, words, bytes)
}

/// Reads the bytes of words, and answers whether there is nothing behind the first ones.
#[inline(always)]
fn read_bytes(count: u64, words: &[u64], bytes: &mut [u8; MAX_LENGTH]) -> bool
    requires words { length words.now ≡ text_size }
    ensures bytes { bytes.new ≡ bytes_of words.now }
    ensures rest { result ≡ ends_there count words.now }
{
    let mut left = count;
    let mut ends = true;
    for place in 0..TEXT_WORDS {
        let word = words[place];
        write_word(bytes, place, word);
        ends &= ends_after(left, word);
        left = left.saturating_sub(8);
    }
    ends
}

/// Writes a word's bytes to its place, the highest one first.
#[inline(always)]
pub fn write_word(bytes: &mut [u8; MAX_LENGTH], place: usize, word: u64)
    requires { place < TEXT_WORDS }
    ensures { bytes.new ≡ take (8 * place) bytes.old ++ (to_be_bytes w64 word ++ drop (8 * place + 8) bytes.old) }
{
    bytes[8 * place..8 * place + 8].copy_from_slice(&word.to_be_bytes());
}

/// Whether there is nothing behind the word's first bytes.
fn ends_after(count: u64, word: u64) -> bool
    ensures { result ≡ (word % 256 ^ (8 - count) == 0) }
{
    count >= 8 || word << (8 * count) == 0
}
