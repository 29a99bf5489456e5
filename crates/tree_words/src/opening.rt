//! The words of the memory that opens a tree.
ghost use Rattle.std.specs.Prelude.{◌≡◌, ◌+◌, ◌<◌, ◌≤◌, length, IfOk};
ghost use Rattle.tree_limits.specs.declared.limits.Limits.{Limits};
ghost use Rattle.deltas.specs.Memory.{opening};
ghost use Rattle.record_slots.specs.declared.layout.TheConstants.{ROW_WORDS};
ghost use Rattle.tree_words.specs.Opening.{bound_at, bound_word, leaf_header, with_free, opening_words};
ghost use Rattle.tree_words.specs.Words.{AreWordsOf};

use crate::places::{epoch_place, pid_bits_place, row_bits_place, row_place, slot_place, width};
use bw_model::Limits;
use compact_rows::{COMPACT_FORM, SECOND_UNIT};
use record_slots::{FORM, FORM_UNIT, NO_BOUND, ROW_WORDS, SECOND_KEY};
use std::alloc::{AllocError, Allocator};

/// The opening words are those of the opening memory.
pub fn opening_is_spelled()
    ensures { (limits : Limits) → AreWordsOf limits (opening limits) (opening_words limits) }
{}

/// The words that open a table of these limits.
pub fn opening_words<A: Allocator>(alloc: A, limits: &Limits) -> Result<Vec<u64, A>, AllocError>
    ensures { IfOk result (λ words. words.items ≡ opening_words limits.now) }
{
    let mut words = vec![in alloc; 0; width(limits)]?;
    set_free(
        &mut words,
        pid_bits_place(limits, 0),
        (limits.pids / 64) as usize,
    );
    set_free(
        &mut words,
        row_bits_place(limits, 0),
        (limits.rows / 64) as usize,
    );
    words[slot_place(limits, 0)] = 1;
    words[slot_place(limits, 1)] = 1;
    words[epoch_place()] = limits.epoch;
    words[row_place(limits, 1)] = leaf_header(limits);
    words[row_place(limits, 1) + bound_place(limits)] = bound_word(limits);
    Ok(words)
}

/// The header of an empty leaf.
fn leaf_header(limits: &Limits) -> u64
    ensures { result ≡ leaf_header limits.now }
{
    if limits.is_large {
        1 + FORM_UNIT * COMPACT_FORM
    } else {
        1 + FORM_UNIT * FORM
    }
}

/// Where the mark stands in its row that says that it has no bound.
fn bound_place(limits: &Limits) -> usize
    ensures at { result ≡ bound_at limits.now }
    ensures few { result < ROW_WORDS }
{
    if limits.is_large { 1 } else { SECOND_KEY }
}

/// That mark.
fn bound_word(limits: &Limits) -> u64
    ensures { result ≡ bound_word limits.now }
{
    if limits.is_large {
        SECOND_UNIT * NO_BOUND
    } else {
        NO_BOUND
    }
}

/// Sets all bits of the words but the lowest two.
fn set_free(words: &mut [u64], from: usize, count: usize)
    requires some { 0 < count }
    requires within { from + count ≤ length words.old }
    ensures { words.new ≡ with_free from count words.old }
{
    for place in 0..count {
        words[from + place] = u64::MAX;
    }
    words[from] = u64::MAX - 3;
}
