//! What holds of spellings.
ghost use Rattle.std.specs.Prelude.{◌≡◌, List, ℕ, length};
ghost use Rattle.deltas.specs.declared.record.Record.{Record};
ghost use Rattle.deltas.specs.Spellable.{IsSpellable};
ghost use Rattle.record_slots.specs.Layout.{row_size};
ghost use Rattle.record_slots.specs.Spelling.{words_of};
ghost use Rattle.record_slots.specs.Spells.{HasShortTexts, IsSpelling};

/// A record that a row can spell has a spelling, of as many words as a row has.
pub fn rows_have_words()
    ensures spelled { (content : Record) → IsSpellable content → HasShortTexts content → IsSpelling content (words_of content) }
    ensures all { (content : Record) (words : List ℕ) → IsSpelling content words → length words ≡ row_size }
{}

/// Words spell one record at most.
pub fn spelling_is_one()
    ensures { (one other : Record) (words : List ℕ) → IsSpelling one words → IsSpelling other words → one ≡ other }
{}
