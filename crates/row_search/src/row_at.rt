//! A record that was read in a row, and is looked at there.
ghost use Rattle.std.specs.Prelude.{◌≡◌, ◌<◌, ◌≤◌, ◌+◌, List, ℕ, Some, false, length, slice_index, take, drop};
ghost use Rattle.base_page.specs.declared.items.TheConstants.{MAX_ITEMS};
ghost use Rattle.bw_model.specs.declared.short_bytes.TheConstants.{MAX_LENGTH};
ghost use Rattle.deltas.specs.Records.{next_row, removed_after};
ghost use Rattle.record_slots.specs.Parts.{items_of, row_of};
ghost use Rattle.record_slots.specs.Spelling.{words_of};
ghost use Rattle.record_slots.specs.Spells.{HasSpelling};
ghost use Rattle.record_slots.specs.Texts.{IsText};
ghost use Rattle.record_slots.specs.declared.layout.TheConstants.{ROW_WORDS, TEXT_WORDS};
ghost use Rattle.row_search.specs.Begins.{Begins};
ghost use Rattle.row_search.specs.Placed.{row_words_of};
ghost use Rattle.row_search.specs.Reading.{text_in};
ghost use Rattle.row_search.specs.TextsOf.{HasText, length_at};

mod bounds;
mod items;
mod keys;
mod names;
mod parts;
mod says;

use crate::{Rows, Text, Told};
use bw_model::{Key, MAX_LENGTH};
use deltas::Record;
use record_slots::{
    FIRST_ITEM, FORM, FORM_UNIT, ITEM_UNIT, ITEM_WORDS, LEVEL_UNIT, PART_LIMIT, ROW_WORDS,
    TEXT_WORDS, kinds, read_words, rows_have_words, write_word,
};
use std::marker::Model;

/// What the row under it counts in the first word of a row that has not the form of the spelling.
const NEXT_UNIT: u64 = 4294967296;

/// A record that was read in a row: the row's number, and its first word as it stands there, which was loaded when it was read. Its other words
/// are looked at where they lie.
#[derive(Drop)]
pub struct RowAt<R: Rows> {
    number: u32,
    first: u64,
    told: Told<R::Pass>,
}

impl<R: Rows> Model for RowAt<R> {
    ghost use Rattle.record_slots.specs.Spells.{HasSpelling};
    ghost use Rattle.row_search.specs.Begins.{Begins};
    ghost use Rattle.row_search.specs.Placed.{PlacedRecord};

    ghost Value = { PlacedRecord };

    ghost view = { λ r. record { row = r.number; content = R.content r.told.value r.number } };

    ghost invariant = { λ r. HasSpelling (R.content r.told.value r.number) × Begins r.first (R.content r.told.value r.number) };
}

impl<R: Rows> RowAt<R> {
    /// The record that was read in the row, by its first word.
    pub fn of(number: u32, first: u64, pass: &R::Pass) -> RowAt<R>
        requires spelt { HasSpelling (R.content pass.now number) }
        requires first { first ≡ slice_index (words_of (R.content pass.now number)) 0 }
        ensures { result ≡ record { row = number; content = R.content pass.now number } }
    {
        RowAt {
            number,
            first,
            told: Told::of(pass),
        }
    }

    /// The record that was read in the row, by the word with which the row begins, whatever form it has.
    #[inline]
    pub fn begun(number: u32, first: u64, pass: &R::Pass) -> RowAt<R>
        requires spelt { HasSpelling (R.content pass.now number) }
        requires first { Begins first (R.content pass.now number) }
        ensures { result ≡ record { row = number; content = R.content pass.now number } }
    {
        RowAt {
            number,
            first,
            told: Told::of(pass),
        }
    }

    /// The row.
    pub fn number(&self) -> u32
        ensures { result ≡ self.now.row }
    {
        self.number
    }

    /// Shows that a row of words can spell its record, at no cost.
    pub fn keeps_spelling(&self)
        ensures { HasSpelling self.now.content }
    {
        let _ = &self.told;
    }

    /// Where it lies.
    #[inline]
    pub(crate) fn place(&self, rows: &R, pass: &R::Pass) -> R::Place
        requires read { R.has rows.now pass.now self.now.row self.now.content }
        ensures { R.lies rows.now pass.now result self.now.content }
    {
        rows.place(pass, self.number, self.first)
    }

    /// A word of its spelling.
    pub(crate) fn word(&self, rows: &R, pass: &mut R::Pass, at: usize) -> u64
        requires read { R.has rows.now pass.old self.now.row self.now.content }
        requires within { at < ROW_WORDS }
        ensures same { pass.new ≡ pass.old }
        ensures word { result ≡ slice_index (words_of self.now.content) at }
    {
        let place = self.place(rows, pass);
        rows.look(pass, place, at)
    }

    /// The words of a text of so many bytes. Those that it uses are looked at; the rest are 0.
    pub(crate) fn text(
        &self,
        rows: &R,
        pass: &mut R::Pass,
        place: R::Place,
        text: Text,
        count: u64,
    ) -> [u64; TEXT_WORDS]
        requires read { R.lies rows.now pass.old place self.now.content }
        requires there { HasText text self.now.content }
        requires text { (bytes : List ℕ) × IsText count (take TEXT_WORDS (drop (length_at text + 1) (words_of self.now.content))) bytes }
        ensures same { pass.new ≡ pass.old }
        ensures text { result ≡ take TEXT_WORDS (drop (length_at text + 1) (words_of self.now.content)) }
    {
        rows_have_words();
        self.keeps_spelling();
        self.has_room(text);
        let used = ((count + 7) / 8) as usize;
        let mut words = [0; TEXT_WORDS];
        let mut at = 0;
        while at < used {
            words[at] = self.text_word(rows, pass, place, text, at);
            at += 1;
        }
        words
    }

    /// The key that a text of so many bytes is.
    #[inline(always)]
    fn key(&self, rows: &R, pass: &mut R::Pass, place: R::Place, text: Text, count: u64) -> Key
        requires read { R.lies rows.now pass.old place self.now.content }
        requires there { HasText text self.now.content }
        requires few { count ≤ MAX_LENGTH }
        ensures same { pass.new ≡ pass.old }
        ensures key { result ≡ text_in count (drop (length_at text + 1) (row_words_of self.now)) }
    {
        Key::first_of(&self.bytes(rows, pass, place, text, count), count as u8)
    }

    /// An array that begins with the bytes of a text of so many. Only the words that it uses are looked at.
    #[inline(always)]
    fn bytes(
        &self,
        rows: &R,
        pass: &mut R::Pass,
        place: R::Place,
        text: Text,
        count: u64,
    ) -> [u8; MAX_LENGTH]
        requires read { R.lies rows.now pass.old place self.now.content }
        requires there { HasText text self.now.content }
        requires few { count ≤ MAX_LENGTH }
        ensures same { pass.new ≡ pass.old }
        ensures bytes { take count result ≡ text_in count (drop (length_at text + 1) (row_words_of self.now)) }
    {
        rows_have_words();
        self.keeps_spelling();
        self.has_room(text);
        let used = ((count + 7) / 8) as usize;
        let mut bytes = [0; MAX_LENGTH];
        let mut at = 0;
        while at < used {
            write_word(&mut bytes, at, self.text_word(rows, pass, place, text, at));
            at += 1;
        }
        bytes
    }

    /// The length of a text, or of an item's content that is a child the PID.
    #[inline(always)]
    pub(crate) fn length(&self, rows: &R, pass: &mut R::Pass, place: R::Place, text: Text) -> u64
        requires read { R.lies rows.now pass.old place self.now.content }
        requires there { HasText text self.now.content }
        ensures same { pass.new ≡ pass.old }
        ensures word { result ≡ slice_index (words_of self.now.content) (length_at text) }
    {
        self.has_room(text);
        rows.length(pass, place, text)
    }

    /// A word of a text; 0 behind its end.
    #[inline(always)]
    pub(crate) fn text_word(
        &self,
        rows: &R,
        pass: &mut R::Pass,
        place: R::Place,
        text: Text,
        at: usize,
    ) -> u64
        requires read { R.lies rows.now pass.old place self.now.content }
        requires there { HasText text self.now.content }
        requires within { at < TEXT_WORDS }
        ensures same { pass.new ≡ pass.old }
        ensures word { result ≡ slice_index (words_of self.now.content) (length_at text + 1 + at) }
    {
        self.has_room(text);
        rows.word(pass, place, text, at)
    }

    /// Shows that its spelling has room for a text that it has, at no cost.
    #[inline(always)]
    fn has_room(&self, text: Text)
        requires { HasText text self.now.content }
        ensures { length_at text + TEXT_WORDS < ROW_WORDS }
    {
        self.keeps_spelling();
        let _ = text;
    }

    /// All its words. Those that it uses are looked at; the rest are 0.
    fn words(&self, rows: &R, pass: &mut R::Pass) -> [u64; ROW_WORDS]
        requires read { R.has rows.now pass.old self.now.row self.now.content }
        ensures same { pass.new ≡ pass.old }
        ensures words { result ≡ words_of self.now.content }
    {
        rows_have_words();
        self.keeps_spelling();
        let used = FIRST_ITEM + ITEM_WORDS * self.item_count();
        let mut words = [0; ROW_WORDS];
        let mut place = 0;
        while place < used {
            words[place] = self.word(rows, pass, place);
            place += 1;
        }
        words
    }

    /// The record, decoded: about 6 KB. Searches look at its words.
    pub fn record(&self, rows: &R, pass: &mut R::Pass) -> Record
        requires read { R.has rows.now pass.old self.now.row self.now.content }
        ensures same { pass.new ≡ pass.old }
        ensures record { result ≡ self.now.content }
    {
        self.keeps_spelling();
        read_words(&self.words(rows, pass)).unwrap()
    }

    /// Which kind of record it is, by its number.
    fn kind(&self) -> u8
        ensures { result ≡ (row_of self.now.content).kind }
    {
        (self.first % PART_LIMIT) as u8
    }

    /// The level; puts and deletes stand on leaves.
    pub fn level(&self) -> u8
        ensures { result ≡ (row_of self.now.content).level }
    {
        (self.first / LEVEL_UNIT % PART_LIMIT) as u8
    }

    /// How many items it has.
    pub fn item_count(&self) -> usize
        ensures count { result ≡ length (items_of self.now.content) }
        ensures few { result ≤ MAX_ITEMS }
    {
        (self.first / ITEM_UNIT % PART_LIMIT) as usize
    }

    /// Whether it is a removal.
    pub fn removes(&self) -> bool
        ensures { result ≡ removed_after self.now.content false }
    {
        self.kind() == kinds::REMOVE
    }

    /// The row of the record under it.
    pub fn next(&self, rows: &R, pass: &mut R::Pass) -> Option<u32>
        requires read { R.has rows.now pass.old self.now.row self.now.content }
        ensures same { pass.new ≡ pass.old }
        ensures next { result ≡ next_row self.now.content }
    {
        self.keeps_spelling();
        if self.kind() == kinds::BASE {
            return None;
        }
        if self.first / FORM_UNIT % PART_LIMIT != FORM {
            return Some((self.first / NEXT_UNIT) as u32);
        }
        Some(self.word(rows, pass, 1) as u32)
    }

    /// The PID that stands in the row, or 0.
    fn page(&self, rows: &R, pass: &mut R::Pass) -> u32
        requires read { R.has rows.now pass.old self.now.row self.now.content }
        ensures same { pass.new ≡ pass.old }
        ensures page { result ≡ (row_of self.now.content).page }
    {
        self.keeps_spelling();
        self.word(rows, pass, 2) as u32
    }
}
