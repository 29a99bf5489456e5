//! The record of an update, in the room that it needs.
ghost use Rattle.std.specs.Prelude.{◌≡◌, None, Some};
ghost use Rattle.deltas.specs.declared.record.Record.TheVariants as kind;

use bw_model::{Key, Value};
use deltas::{Delete, Put, Record};
use std::marker::Model;

/// A put, or a delete where there is no value: of the records those that are linked most. Any record has room for a whole page.
#[derive(Drop)]
pub struct UpdateRecord {
    next: u32,
    key: Key,
    value: Option<Value>,
}

impl Model for UpdateRecord {
    ghost use Rattle.deltas.specs.declared.record.Record.{Record};
    ghost use Rattle.structure_changes.specs.Updates.{put_or_delete};

    ghost Value = { Record };

    ghost view = { λ u. put_or_delete u.next u.key u.value };
}

impl UpdateRecord {
    /// A key has a value, over the row `next`.
    pub fn put(next: u32, key: &Key, value: Value) -> UpdateRecord
        ensures { result ≡ kind.Put (record { next = next; key = key.now; value = value }) }
    {
        UpdateRecord {
            next,
            key: key.copied(),
            value: Some(value),
        }
    }

    /// A key is absent, over the row `next`.
    pub fn delete(next: u32, key: &Key) -> UpdateRecord
        ensures { result ≡ kind.Delete (record { next = next; key = key.now }) }
    {
        UpdateRecord {
            next,
            key: key.copied(),
            value: None,
        }
    }

    /// Tells the record in its place: over one of the same kind, where one lies there, and else in the room of any.
    pub fn tell(&self, content: &mut Record)
        ensures { content.new ≡ self.now }
    {
        if let (Some(value), Record::Put(put)) = (&self.value, &mut *content) {
            put.next = self.next;
            put.key = self.key.copied();
            put.value = value.copied();
            return;
        }
        if let (None, Record::Delete(delete)) = (&self.value, &mut *content) {
            delete.next = self.next;
            delete.key = self.key.copied();
            return;
        }
        self.tell_anew(content);
    }

    /// Writes the record over whatever is in its place. Not inlined: a record with room for any is made first.
    #[inline(never)]
    fn tell_anew(&self, content: &mut Record)
        ensures { content.new ≡ self.now }
    {
        *content = match &self.value {
            Some(value) => Record::Put(Put {
                next: self.next,
                key: self.key.copied(),
                value: value.copied(),
            }),
            None => Record::Delete(Delete {
                next: self.next,
                key: self.key.copied(),
            }),
        };
    }
}
