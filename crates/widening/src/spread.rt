//! A row of the first form whose fields are spread to today's length.
ghost use Rattle.std.specs.Prelude.{◌≡◌, ◌<◌, ◌≤◌, ◌+◌, ◌*◌, ◌++◌, length, replicate, slice_index};
ghost use Rattle.record_slots.specs.Layout.{form_unit, row_size};
ghost use Rattle.widening.specs.Spread.{fields, first_field, grown_by, spread, spread_fields};

use crate::layout::{FIELDS, FIRST_FIELD_WORDS, FIRST_ROW_WORDS};
use arrayvec::ArrayVec;
use record_slots::{FIELD_WORDS, FIRST_KEY, FORM, FORM_UNIT, ROW_WORDS};

/// The words with today's form in the first one, and zeros behind each field and behind the last word.
pub(crate) fn spread(words: &[u64; FIRST_ROW_WORDS]) -> [u64; ROW_WORDS]
    requires { slice_index words.now 0 < form_unit }
    ensures { result ≡ spread words.now }
{
    let mut wide = ArrayVec::new();
    wide.push(words[0] + FORM_UNIT * FORM);
    wide.push(words[1]);
    wide.push(words[2]);
    push_fields(&mut wide, &words[FIRST_KEY..], FIELDS);
    let left = ROW_WORDS - wide.len();
    push_zeros(&mut wide, left);
    wide.into_inner().unwrap()
}

/// So many fields of the first form as today's, and the words behind them.
fn push_fields(wide: &mut ArrayVec<u64, ROW_WORDS>, words: &[u64], count: usize)
    requires few { count ≤ fields }
    requires many { first_field * count ≤ length words.now }
    requires room { length wide.old.items + (length words.now + grown_by * count) ≤ row_size }
    ensures { wide.new.items ≡ wide.old.items ++ spread_fields count words.now }
{
    for place in 0..count {
        let from = FIRST_FIELD_WORDS * place;
        push_words(wide, &words[from..from + FIRST_FIELD_WORDS]);
        push_zeros(wide, FIELD_WORDS - FIRST_FIELD_WORDS);
    }
    push_words(wide, &words[FIRST_FIELD_WORDS * count..]);
}

/// The words as they are.
fn push_words(wide: &mut ArrayVec<u64, ROW_WORDS>, words: &[u64])
    requires { length wide.old.items + length words.now ≤ row_size }
    ensures { wide.new.items ≡ wide.old.items ++ words.now }
{
    wide.try_extend_from_slice(words).unwrap();
}

/// So many zeros.
fn push_zeros(wide: &mut ArrayVec<u64, ROW_WORDS>, count: usize)
    requires { length wide.old.items + count ≤ row_size }
    ensures { wide.new.items ≡ wide.old.items ++ replicate count 0 }
{
    for _ in 0..count {
        wide.push(0);
    }
}
