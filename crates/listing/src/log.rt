//! The pairs of a log, computed.
ghost use Rattle.std.specs.Prelude.{◌≡◌, IfOk, if◌then◌else◌, option_copied, None, OnOk, ℕ, List};
ghost use Rattle.std.specs.BTreeMap.{IsOrdered, get};
ghost use Rattle.std.specs.Ordering.{is_eq};
ghost use Rattle.bw_model.specs.Bytes.{key_cmp, is_in_range};
ghost use Rattle.bw_model.specs.Log.{updated_key, updated_value};
ghost use Rattle.bw_model.specs.Pairs.{IsPairsOf};

use bw_model::{Key, Update, Value};
use std::alloc::{AllocError, Global};
use std::collections::BTreeMap;

/// The keys of a range that have a value in the log, in order, each with that value.
pub fn logged_pairs(
    alloc: Global,
    log: &[Update],
    low: &Key,
    high: Option<&Key>,
) -> Result<Vec<(Key, Value)>, AllocError>
    ensures { IfOk result (λ pairs.
        IsPairsOf log.now low.now (option_copied high.entry) pairs.items) }
{
    let mut values = BTreeMap::new(alloc);
    for update in log {
        if is_inside(update.key(), low, high) {
            note(&mut values, update)?;
        }
    }
    pairs_of(alloc, &values)
}

/// The keys of the map in order, each with its value.
fn pairs_of(alloc: Global, values: &BTreeMap<Key, Value>) -> Result<Vec<(Key, Value)>, AllocError>
    ensures { IfOk result (λ pairs. pairs.items ≡ values.now.entries) }
{
    let mut pairs = Vec::new(alloc);
    for (key, value) in values {
        pairs.push((key.copied(), value.copied()))?;
    }
    Ok(pairs)
}

/// Whether the key is in the range.
fn is_inside(key: &Key, low: &Key, high: Option<&Key>) -> bool
    ensures { result ≡ is_in_range low.now (option_copied high.entry) key.now }
{
    !key.cmp(low).is_lt() && high.is_none_or(|bound| key.cmp(bound).is_lt())
}

/// Takes the update into the values.
fn note(values: &mut BTreeMap<Key, Value>, update: &Update) -> Result<(), AllocError>
    ensures ordered { OnOk result (IsOrdered key_cmp values.new) }
    ensures noted { OnOk result ((key : List ℕ) → get key_cmp values.new key
        ≡ (if is_eq (key_cmp key (updated_key update.now)) then updated_value update.now else get key_cmp values.old key)) }
{
    match update.value() {
        Some(value) => {
            values.insert(update.key().copied(), value.copied())?;
        }
        None => {
            values.remove(update.key());
        }
    }
    Ok(())
}
