//! Rows of the first form read, and written as rows of today's.
ghost use Rattle.std.specs.Prelude.{IfErr, IfOk};
ghost use Rattle.deltas.specs.declared.record.Record.{Record};
ghost use Rattle.record_slots.specs.Spells.{IsSpelling};
ghost use Rattle.widening.specs.FirstForm.{IsFirstSpelling};

use crate::layout::FIRST_ROW_WORDS;
use crate::narrow::is_narrow;
use crate::spread::spread;
use record_slots::{BadRow, FORM_UNIT, ROW_WORDS, from_words};

/// The row of today's form that spells the record which the words spell by the first form, refused exactly where they spell none.
///
/// In the first form keys and values had at most 32 bytes, and the first word had no form. A row is decoded once.
#[tactic(auto, using(crate::proofs::WideLaws::first_head))]
pub fn widen(words: &[u64; FIRST_ROW_WORDS]) -> Result<[u64; ROW_WORDS], BadRow>
    ensures spelled { IfOk result (λ wide. (content : Record) × (IsFirstSpelling content words.now × IsSpelling content wide)) }
    ensures refused { IfErr result (λ fault. (content : Record) → IsFirstSpelling content words.now → ⊥) }
{
    if words[0] >= FORM_UNIT {
        return Err(BadRow);
    }
    let wide = spread(words);
    let content = from_words(&wide)?;
    if is_narrow(&content) {
        Ok(wide)
    } else {
        Err(BadRow)
    }
}
