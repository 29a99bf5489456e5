//! Rows without the zeros at their end.
ghost use Rattle.std.specs.Prelude.{◌≡◌, ◌≤◌, length};
ghost use Rattle.record_slots.specs.Layout.{row_size};
ghost use Rattle.core_memory.specs.Shared.{whole};

use record_slots::ROW_WORDS;

/// The words of a row up to the last one that isn't 0.
pub(crate) fn used(row: &[u64; ROW_WORDS]) -> &[u64]
    ensures { whole result.now ≡ row.now }
{
    let mut end = 0;
    for place in 0..ROW_WORDS {
        if row[place] != 0 {
            end = place + 1;
        }
    }
    &row[..end]
}

/// Writes the words into a row, and zeros behind them.
pub(crate) fn write_row(row: &mut [u64; ROW_WORDS], words: &[u64])
    requires { length words.now ≤ row_size }
    ensures { row.new ≡ whole words.now }
{
    let end = words.len();
    row[..end].copy_from_slice(words);
    row[end..].fill(0);
}
