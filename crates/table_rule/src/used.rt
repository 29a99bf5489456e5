//! How many words of a row a record uses.
ghost use Rattle.std.specs.Prelude.{◌≡◌, ◌<◌, length};
ghost use Rattle.table_rule.specs.Steps.{used_by, used_by_either, words_over};

use record_slots::{FIRST_ITEM, ITEM_UNIT, ITEM_WORDS, PART_LIMIT};
use tree_words::Layout;

/// How many words a record uses that begins with this one; for 0, with which none begins, as many as one without items.
pub(crate) fn used_words(first: u64) -> usize
    ensures { result ≡ used_by first }
{
    FIRST_ITEM + ITEM_WORDS * (first / ITEM_UNIT % PART_LIMIT) as usize
}

/// How many words the one or the other of two records uses, by their first words.
pub(crate) fn words_of_either(one: u64, other: u64) -> usize
    ensures { result ≡ used_by_either one other }
{
    used_words(one).max(used_words(other))
}

/// How many words are to be written behind the header of a row. In a small tree the first word is the one that stands there until then.
pub(crate) fn words_over(limits: &Layout, first: u64, spelt: &[u64]) -> usize
    requires { 0 < length spelt.now }
    ensures { result ≡ words_over limits.now first spelt.now }
{
    if limits.is_large() {
        spelt.len() - 1
    } else {
        words_of_either(first, spelt[0]) - 1
    }
}
