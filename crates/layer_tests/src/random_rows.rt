//! Rows of drawn words, and good rows with one word of another kind: each spells nothing, or a record whose words it has.

use crate::rows::{EACH_KIND, Words, is_refused, is_spelled, with};
use rand_core::SeedableRng;
use rand_core::utils::NextWord;
use rand_pcg::Pcg32;
use record_slots::ROW_WORDS;

/// How many rows are drawn.
const ROWS: u32 = 100_000;

/// A word of 64 bits.
pub(crate) fn draw(words: &mut Pcg32) -> u64 {
    u64::from(words.next_word()) << 32 | u64::from(words.next_word())
}

/// How many rows of drawn words spell nothing.
fn refused(words: &mut Pcg32) -> u32 {
    let mut refused = 0u32;
    for _ in 0..ROWS {
        let mut row = [0; ROW_WORDS];
        for word in row.iter_mut() {
            *word = draw(words);
        }
        if is_refused(&row) {
            refused = refused.saturating_add(1);
        }
    }
    refused
}

// A header has 40 bits that are given: of so many rows none has that.
#[test]
fn drawn_words_spell_nothing(rt: HostRuntime) {
    let refused = refused(&mut Pcg32::seed_from_u64(38));
    assert!(rt; refused == ROWS, "{refused} of {ROWS}");
}

/// A word that may be of use in a row: any one, a small one, a text of three bytes, a header, or one with one bit.
pub(crate) fn other_word(words: &mut Pcg32, kind: u32) -> u64 {
    let any = draw(words);
    match kind {
        0 => any,
        1 => any % 64,
        2 => any % 16_384,
        3 => any << 40,
        4 => (any % 16) | (any >> 8 & 0x0f00) | (any >> 16 & 0x1f0000) | 0x02000000,
        _ => 1 << (any % 64),
    }
}

/// How many rows with another word at one place spell a record, all of which have to be its own words.
fn spelled(words: &mut Pcg32, good: Words) -> Option<u32> {
    let mut spelled = 0u32;
    for place in 0..ROW_WORDS {
        for kind in 0..24u32 {
            let row = with(good, place, other_word(words, kind % 6));
            if is_refused(&row) {
                continue;
            }
            if !is_spelled(&row) {
                return None;
            }
            spelled = spelled.saturating_add(1);
        }
    }
    Some(spelled)
}

// A good row of each kind with another word at each place in turn: it is refused, or it is the row of the record that it spells. Some rows of
// each kind spell one.
#[test]
fn rows_with_one_other_word(rt: HostRuntime) {
    let mut words = Pcg32::seed_from_u64(12);
    for (kind, good) in EACH_KIND.iter().enumerate() {
        let spelled = spelled(&mut words, good);
        assert!(rt; spelled > Some(0), "kind {kind}: {spelled:?}");
    }
}
