//! The words of free bits that entries have a part in.
ghost use Rattle.std.specs.Prelude.{◌≡◌, ◌<◌};
ghost use Rattle.std.specs.List.{All};
ghost use Rattle.epochs.specs.Words.{AreBitsOf, IsFirstPlace, lower};

use crate::Entry;

/// The place of the first word with a number that may be freed.
pub(crate) fn first_word(entries: &[Entry]) -> Option<u32>
    requires { All (λ entry. entry.number < 67108864) entries.now }
    ensures { IsFirstPlace entries.now result }
{
    let mut first = None;
    for entry in entries {
        if entry.stage.is_passed() {
            first = Some(earlier(first, entry.number / 64));
        }
    }
    first
}

/// The earlier of two words, the first of which there may not be.
fn earlier(first: Option<u32>, word: u32) -> u32
    ensures { result ≡ lower first word }
{
    match first {
        Some(first) if first < word => first,
        _ => word,
    }
}

/// The bits of the numbers of a word that may be freed.
pub(crate) fn bits_of(entries: &[Entry], word: u32) -> u64
    ensures { AreBitsOf entries.now word result }
{
    let mut bits = 0;
    for entry in entries {
        if entry.goes_with(word) {
            bits |= 1 << (entry.number % 64);
        }
    }
    bits
}
