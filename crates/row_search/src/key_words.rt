//! Keys as words.
ghost use Rattle.std.specs.Prelude.{◌≡◌, ◌+◌, ◌%◌, List, ℕ, true, false, length, slice_index, take, drop};
ghost use Rattle.std.specs.Ordering.{is_eq, nat_cmp};
ghost use Rattle.bw_model.specs.Bytes.{key_cmp};
ghost use Rattle.record_slots.specs.Spelling.{text_words};
ghost use Rattle.record_slots.specs.Texts.{IsText};
ghost use Rattle.record_slots.specs.declared.layout.TheConstants.{HELD, TEXT_WORDS};
ghost use Rattle.row_search.specs.Placed.{row_words_of};
ghost use Rattle.row_search.specs.Reading.{text_in};
ghost use Rattle.row_search.specs.TextsOf.{HasText, length_at};

use crate::{RowAt, Rows, Text};
use bw_model::Key;
use record_slots::{HELD, TEXT_WORDS, key_bytes, word_at};
use std::cmp::Ordering;
use std::marker::Model;

/// A key as the words that spell it, and its length.
#[derive(Drop)]
pub struct KeyWords {
    words: [u64; TEXT_WORDS],
    count: u64,
}

impl Model for KeyWords {
    ghost use Rattle.std.specs.Prelude.{List, ℕ, take};
    ghost use Rattle.record_slots.specs.Texts.{IsText, bytes_of};

    ghost Value = { List ℕ };

    ghost view = { λ k. take k.count (bytes_of k.words) };

    ghost invariant = { λ k. IsText k.count k.words (take k.count (bytes_of k.words)) };
}

impl KeyWords {
    /// The words of the key.
    pub fn of(key: &Key) -> KeyWords
        ensures { result ≡ key.now }
    {
        let bytes = key_bytes(key);
        KeyWords {
            words: words_of(bytes),
            count: bytes.len() as u64,
        }
    }

    /// The key of that length which is a text of a record.
    pub(crate) fn at<R: Rows>(
        row: &RowAt<R>,
        rows: &R,
        pass: &mut R::Pass,
        place: R::Place,
        text: Text,
        count: u64,
    ) -> KeyWords
        requires read { R.lies rows.now pass.old place row.now.content }
        requires there { HasText text row.now.content }
        requires text { IsText count (take TEXT_WORDS (drop (length_at text + 1) (row_words_of row.now)))
            (text_in count (drop (length_at text + 1) (row_words_of row.now))) }
        ensures same { pass.new ≡ pass.old }
        ensures key { result ≡ text_in count (drop (length_at text + 1) (row_words_of row.now)) }
    {
        KeyWords {
            words: row.text(rows, pass, place, text, count),
            count,
        }
    }

    /// How it compares with another key.
    pub fn compare(&self, other: &KeyWords) -> Ordering
        ensures { result ≡ key_cmp self.now other.now }
    {
        self.words[..]
            .cmp(&other.words[..])
            .then(self.count.cmp(&other.count))
    }

    /// How a text of a record, which has that length, compares with the key.
    #[inline]
    pub(crate) fn compare_of<R: Rows>(
        &self,
        row: &RowAt<R>,
        rows: &R,
        pass: &mut R::Pass,
        place: R::Place,
        text: Text,
        count: u64,
    ) -> Ordering
        requires read { R.lies rows.now pass.old place row.now.content }
        requires there { HasText text row.now.content }
        ensures same { pass.new ≡ pass.old }
        ensures compared { (bytes : List ℕ) → IsText count (take TEXT_WORDS (drop (length_at text + 1) (row_words_of row.now))) bytes → result ≡ key_cmp bytes self.now }
    {
        let order = self.compare_words(row, rows, pass, place, text);
        if !order.is_eq() {
            return order;
        }
        count.cmp(&self.count)
    }

    /// How a text of a record compares with the key. Its length, beside which a held term has a mark, is looked at last, and only if all words are
    /// the same.
    #[inline(always)]
    pub(crate) fn compare_text<R: Rows>(
        &self,
        row: &RowAt<R>,
        rows: &R,
        pass: &mut R::Pass,
        place: R::Place,
        text: Text,
    ) -> Ordering
        requires read { R.lies rows.now pass.old place row.now.content }
        requires there { HasText text row.now.content }
        ensures same { pass.new ≡ pass.old }
        ensures compared { (bytes : List ℕ)
            → IsText (slice_index (row_words_of row.now) (length_at text) % HELD) (take TEXT_WORDS (drop (length_at text + 1) (row_words_of row.now))) bytes
            → result ≡ key_cmp bytes self.now }
    {
        let order = self.compare_words(row, rows, pass, place, text);
        if !order.is_eq() {
            return order;
        }
        let count = row.length(rows, pass, place, text) % HELD;
        count.cmp(&self.count)
    }

    /// How the words of a text compare with the key's, up to the first one that differs. The first ones decide most comparisons, before the key's
    /// length is loaded. Of the others, none is looked at behind the key's last: where all before it are the same, the lengths decide.
    #[inline(always)]
    fn compare_words<R: Rows>(
        &self,
        row: &RowAt<R>,
        rows: &R,
        pass: &mut R::Pass,
        place: R::Place,
        text: Text,
    ) -> Ordering
        requires read { R.lies rows.now pass.old place row.now.content }
        requires there { HasText text row.now.content }
        ensures same { pass.new ≡ pass.old }
        ensures other { is_eq result ≡ false → (count : ℕ) (bytes : List ℕ)
            → IsText count (take TEXT_WORDS (drop (length_at text + 1) (row_words_of row.now))) bytes → result ≡ key_cmp bytes self.now }
        ensures alike { is_eq result ≡ true → (count : ℕ) (bytes : List ℕ)
            → IsText count (take TEXT_WORDS (drop (length_at text + 1) (row_words_of row.now))) bytes → nat_cmp count (length self.now) ≡ key_cmp bytes self.now }
    {
        let order = row
            .text_word(rows, pass, place, text, 0)
            .cmp(&self.words[0]);
        if !order.is_eq() {
            return order;
        }
        let used = ((self.count + 7) / 8) as usize;
        let mut at = 1;
        while at < used {
            let word = row.text_word(rows, pass, place, text, at);
            let order = word.cmp(&self.words[at]);
            if !order.is_eq() {
                return order;
            }
            at += 1;
        }
        Ordering::Equal
    }
}

/// The words that spell the bytes.
fn words_of(bytes: &[u8]) -> [u64; TEXT_WORDS]
    ensures { result ≡ text_words TEXT_WORDS bytes.now }
{
    let mut words = [0; TEXT_WORDS];
    for place in 0..TEXT_WORDS {
        words[place] = word_at(bytes, 8 * place);
    }
    words
}
