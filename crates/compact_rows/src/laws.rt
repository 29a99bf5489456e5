//! Laws of the compact spelling: it is one, it has room, and it determines the row of `record_slots`.
ghost use Rattle.std.specs.Prelude.{◌≡◌, ◌<◌, ◌≤◌, List, ℕ, length, slice_index};
ghost use Rattle.deltas.specs.declared.record.Record.{Record};
ghost use Rattle.record_slots.specs.Layout.{row_size};
ghost use Rattle.record_slots.specs.Spelling.{words_of};
ghost use Rattle.compact_rows.specs.Seen.{seen};
ghost use Rattle.compact_rows.specs.Layout.{most_words};
ghost use Rattle.compact_rows.specs.Spelling.{compact_words};
ghost use Rattle.compact_rows.specs.Spells.{IsCompact};
ghost use Rattle.deltas.specs.Spellable.{IsSpellable};
ghost use Rattle.record_slots.specs.Spells.{HasShortTexts};

/// No two records have equal compact words.
pub fn compact_spelling_is_one()
    ensures { (one other : Record) (words : List ℕ) → IsCompact one words → IsCompact other words → one ≡ other }
{}

/// From the compact words of a record `seen` computes each word of the row of `record_slots` that spells the same record.
pub fn words_are_seen()
    ensures { (content : Record) (words : List ℕ) → IsCompact content words → (at : ℕ) → at < row_size → seen words at ≡ slice_index (words_of content) at }
{}

/// Each record that a row can spell takes at most 512 compact words.
pub fn records_have_room()
    ensures { (content : Record) → IsSpellable content → HasShortTexts content → length (compact_words content) ≤ most_words }
{}
