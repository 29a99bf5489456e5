//! The rows of a running tree, and who looks at them.
ghost use Rattle.std.specs.Prelude.{◌≡◌, ◌<◌, Some, true, slice_index};
ghost use Rattle.deltas.specs.declared.record.Record.{Record};
ghost use Rattle.record_slots.specs.Spelling.{words_of};
ghost use Rattle.record_slots.specs.Spells.{HasSpelling};
ghost use Rattle.record_slots.specs.declared.layout.TheConstants.{ROW_WORDS};
ghost use Rattle.tree_words.specs.Words.{stored, used_in};
ghost use Rattle.running_tree.specs.Stands.{StandsWithPlace};

use crate::lawful_runs::runs_keep_rows_apart;
use crate::tree::Tree;
use compact_rows::{CompactRows, length_spread, look_spread, records_have_room, word_spread};
use row_search::{Rows, Text};
use std::alloc::Allocator;
use table_rule::{TableSeat, look_at};

/// A seat at the table of words, and the actor whose seat it is: by it rows are looked at.
#[derive(Drop)]
pub struct Desk {
    pub(crate) place: TableSeat,
    pub(crate) number: u8,
}

/// A row, the place of its first word, and that word, or in a small tree the one with which the record's spelling begins.
#[derive(Clone, Copy)]
pub struct PlacedRow {
    pub(crate) row: u32,
    pub(crate) place: usize,
    pub(crate) first: u64,
    /// Whether it is a large tree's.
    pub(crate) is_large: bool,
}

impl<A: Allocator> Rows for Tree<A> {
    ghost use Rattle.row_search.specs.Begins.{Begins};
    ghost use Rattle.running_tree.specs.Stands.{Stands, StandsWithPlace, read_by};

    type Pass = Desk;

    ghost content = { λ desk row. read_by desk.place.me desk.number row };

    ghost has = { λ tree desk row content. Stands tree.limits tree.table desk.place.table_id desk.number desk.place.me row content };

    type Place = PlacedRow;

    ghost lies = { λ tree desk row content. StandsWithPlace tree.limits tree.table desk.place.table_id desk.number desk.place.me row content × Begins row.first content };

    #[inline(always)]
    fn place(&self, pass: &Desk, row: u32, first: u64) -> PlacedRow {
        let _ = pass;
        PlacedRow {
            row,
            place: self.limits.row(row),
            first,
            is_large: self.limits.is_large(),
        }
    }

    /// Loads, which are no steps: what the seat's actor has read stays until it leaves. In a small tree it is one. Not inlined: searches ask for
    /// texts.
    #[inline(never)]
    fn look(&self, pass: &mut Desk, place: PlacedRow, at: usize) -> u64 {
        if self.limits.is_large() {
            return look_compact(self, pass, place, at);
        }
        look_word(self, pass, place, at)
    }

    #[inline(always)]
    fn length(&self, pass: &mut Desk, place: PlacedRow, text: Text) -> u64 {
        if place.is_large {
            return length_spread(self, pass, place, place.first, text);
        }
        look_word(self, pass, place, text.length_at())
    }

    #[inline(always)]
    fn word(&self, pass: &mut Desk, place: PlacedRow, text: Text, at: usize) -> u64 {
        if place.is_large {
            return word_spread(self, pass, place, place.first, text, at);
        }
        look_word(self, pass, place, text.length_at() + 1 + at)
    }
}

impl<A: Allocator> CompactRows for Tree<A> {
    ghost use Rattle.std.specs.Prelude.{◌≡◌, true};
    ghost use Rattle.record_slots.specs.Spells.{HasSpelling};
    ghost use Rattle.running_tree.specs.Stands.{StandsWithPlace};

    type Pass = Desk;

    type Row = PlacedRow;

    ghost has = { λ tree desk row content. StandsWithPlace tree.limits tree.table desk.place.table_id desk.number desk.place.me row content × HasSpelling content
        × (tree.limits.is_large ≡ true) };

    #[inline(always)]
    fn look(&self, pass: &mut Desk, row: PlacedRow, at: usize) -> u64 {
        records_have_room();
        look_word(self, pass, row, at)
    }

    fn keeps_spelling(&self, pass: &Desk) {
        let _ = pass;
        records_have_room();
    }
}

/// A word that a record has in its row, by one load.
#[inline(always)]
fn look_word<A: Allocator>(tree: &Tree<A>, desk: &mut Desk, row: PlacedRow, at: usize) -> u64
    requires has { (content : Record) × StandsWithPlace tree.now.limits tree.now.table desk.old.place.table_id desk.old.number desk.old.place.me row content }
    requires within { at < ROW_WORDS }
    ensures same { desk.new ≡ desk.old }
    ensures word { (content : Record) → StandsWithPlace tree.now.limits tree.now.table desk.old.place.table_id desk.old.number desk.old.place.me row content
        → at < used_in tree.now.limits (Some content) → result ≡ slice_index (stored tree.now.limits content) at }
    ensures spelt { (content : Record) → StandsWithPlace tree.now.limits tree.now.table desk.old.place.table_id desk.old.number desk.old.place.me row content → HasSpelling content }
{
    runs_keep_rows_apart();
    look_at(
        &tree.table.shared,
        &mut desk.place,
        &tree.limits,
        desk.number,
        row.row,
        row.place,
        at,
    )
}

/// A word of the spelling of a record of a large tree.
#[inline(never)]
fn look_compact<A: Allocator>(tree: &Tree<A>, desk: &mut Desk, row: PlacedRow, at: usize) -> u64
    requires has { (content : Record) × StandsWithPlace tree.now.limits tree.now.table desk.old.place.table_id desk.old.number desk.old.place.me row content }
    requires within { at < ROW_WORDS }
    requires large { tree.now.limits.is_large ≡ true }
    ensures same { desk.new ≡ desk.old }
    ensures word { (content : Record) → StandsWithPlace tree.now.limits tree.now.table desk.old.place.table_id desk.old.number desk.old.place.me row content
        → result ≡ slice_index (words_of content) at }
{
    let first = look_word(tree, desk, row, 0);
    look_spread(tree, desk, row, first, at)
}
