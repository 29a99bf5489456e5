//! Updates of the map, and what a log of them says.
ghost use Rattle.std.specs.Prelude.{◌≡◌, option_copied};
ghost use Rattle.bw_model.specs.Log.{set, unset, updated_key, updated_value, logged_value};

use crate::{Key, Value};
use std::marker::Model;

/// What an actor's command changed: a key has a new value, or none.
#[derive(Drop)]
pub struct Update {
    actor: u8,
    key: Key,
    value: Option<Value>,
}

impl Model for Update {
    ghost use Rattle.bw_model.specs.Log.{Update, update_to};

    ghost Value = { Update };

    ghost view = { λ u. update_to u.actor u.key u.value };
}

impl Update {
    /// The actor gave the key the value.
    pub fn set(actor: u8, key: Key, value: Value) -> Update
        ensures { result ≡ set actor key value }
    {
        Update {
            actor,
            key,
            value: Some(value),
        }
    }

    /// The actor made the key absent.
    pub fn unset(actor: u8, key: Key) -> Update
        ensures { result ≡ unset actor key }
    {
        Update {
            actor,
            key,
            value: None,
        }
    }

    /// The key that was changed.
    pub fn key(&self) -> &Key
        ensures { result.now ≡ updated_key self.now }
    {
        &self.key
    }

    /// Its new value, or none.
    pub fn value(&self) -> Option<&Value>
        ensures { option_copied result ≡ updated_value self.now }
    {
        self.value.as_ref()
    }
}

/// What the last update of the key says: its value, or none.
pub fn logged_value<'a>(log: &'a [Update], key: &Key) -> Option<&'a Value>
    ensures { option_copied result ≡ logged_value log.now key.now }
{
    let mut found = None;
    for update in log {
        if key.cmp(update.key()).is_eq() {
            found = update.value();
        }
    }
    found
}
