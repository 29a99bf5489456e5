//! Words for numbers, keys and ranges.

ghost use Rattle.std.specs.Prelude.{◌≡◌, ◌≤◌, ◌++◌, decimal, length, option_copied, take};
ghost use Rattle.hex.specs.Hex.{encode_lower};
ghost use Rattle.tree_picture.specs.Adding.{Adds};
ghost use Rattle.tree_picture.specs.Ranges.{dots, key_text, range_text, short_token};
ghost use Rattle.tree_picture.specs.declared.words.TheConstants.{MAX_WORDS};
ghost use Rattle.tree_picture.specs.declared.write.TheConstants.{SHORT_DIGITS};

use crate::words::Words;
use bw_model::Key;
use itoa::Buffer;
use shell_lines::is_word;

/// How many bytes of a key or a value are written at most.
const SHORT: usize = 10;

/// How many of them, where each is written in two digits.
const SHORT_DIGITS: usize = 5;

/// These words.
pub(crate) fn plain(bytes: &[u8]) -> Words
    ensures { length bytes.now ≤ MAX_WORDS → result ≡ bytes.now }
{
    let mut words = Words::new();
    words.add(bytes);
    words
}

/// Words, and a number behind them.
pub(crate) fn with_number(words: &mut Words, before: &[u8], number: u64)
    ensures { Adds words.old words.new (before.now ++ decimal number) }
{
    words.add(before);
    let mut buffer = Buffer::new();
    words.add(buffer.format(number).as_bytes());
}

/// The first bytes, and no more than so many.
fn first(bytes: &[u8], many: usize) -> &[u8]
    ensures bytes { result.now ≡ take many bytes.now }
    ensures few { length result.now ≤ many }
{
    if bytes.len() > many {
        &bytes[..many]
    } else {
        bytes
    }
}

/// Two dots where there are more bytes than so many.
fn dots_of(many: usize, bytes: &[u8]) -> &'static [u8]
    ensures { result.now ≡ dots many bytes.now }
{
    if bytes.len() > many { b".." } else { b"" }
}

/// Adds two digits for each byte.
fn add_digits(words: &mut Words, bytes: &[u8])
    requires { length bytes.now ≤ SHORT_DIGITS }
    ensures { Adds words.old words.new (encode_lower bytes.now) }
{
    let mut digits = [0u8; 2 * SHORT_DIGITS];
    let text = &mut digits[..2 * bytes.len()];
    match hex::encode_to_slice(bytes, text) {
        Ok(()) => words.add(text),
        Err(_) => unreachable!(),
    }
}

/// Adds a key or a value, as the program prints it; a long one is cut.
fn add_short(words: &mut Words, bytes: &[u8])
    ensures { Adds words.old words.new (short_token bytes.now) }
{
    if is_word(bytes) {
        words.add(first(bytes, SHORT));
        words.add(dots_of(SHORT, bytes));
    } else {
        words.add(b"=");
        add_digits(words, first(bytes, SHORT_DIGITS));
        words.add(dots_of(SHORT_DIGITS, bytes));
    }
}

/// Words, and a key or a value behind them.
pub(crate) fn with_token(words: &mut Words, before: &[u8], bytes: &[u8])
    ensures { Adds words.old words.new (before.now ++ short_token bytes.now) }
{
    words.add(before);
    add_short(words, bytes);
}

/// Adds a key; the empty one is the lowest.
fn add_key(words: &mut Words, bytes: &[u8])
    ensures { Adds words.old words.new (key_text bytes.now) }
{
    if bytes.is_empty() {
        words.add(b"(lowest)");
    } else {
        add_short(words, bytes);
    }
}

/// Words, and a key behind them.
pub(crate) fn with_key(words: &mut Words, before: &[u8], bytes: &[u8])
    ensures { Adds words.old words.new (before.now ++ key_text bytes.now) }
{
    words.add(before);
    add_key(words, bytes);
}

/// From which key on, and up to which one.
pub(crate) fn with_range(words: &mut Words, low: &Key, high: Option<&Key>)
    ensures { Adds words.old words.new (range_text low.now (option_copied high.entry)) }
{
    with_key(words, b"from ", low.as_slice());
    match high {
        Some(high) => with_key(words, b" to ", high.as_slice()),
        None => words.add(b" to the end"),
    }
}
