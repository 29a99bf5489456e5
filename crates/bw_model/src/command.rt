//! What an actor asks of the map, and what it is answered.
ghost use Rattle.std.specs.Prelude.{◌≡◌, is_some, option_copied};
ghost use Rattle.bw_model.specs.Replies.{command_key, is_writer, update_of};

use crate::{Key, Pairs, Update, Value};
use std::alloc::AllocError;

/// What an actor asks of the map.
#[derive(Debug, PartialEq, Eq, Drop)]
pub enum Command {
    /// The value of a key.
    Get(Key),
    /// Gives a key a value where it has none.
    Insert(Key, Value),
    /// Gives a key a value, in place of the one that it has, if it has one.
    Upsert(Key, Value),
    /// Makes a key absent.
    Delete(Key),
    /// Makes a key absent where it has this value.
    DeleteIf(Key, Value),
    /// Gives a key the second value where it has the first one.
    Swap(Key, Value, Value),
    /// Adds a number, modulo 2^64, to the one that a key's value of eight bytes spells; an absent key is given the number.
    Add(Key, u64),
    /// A cursor page: the pairs of the leaf that has the key, from the key on.
    Page(Key),
    /// A page backward: the pairs of the leaf that has the key, up to the key.
    Back(Key),
    /// Upkeep that is due at the leaf that has the key; no value is changed.
    Tidy(Key),
}

/// What an operation answers when it is done.
#[derive(Debug, PartialEq, Eq, Drop)]
pub enum Reply {
    /// The value of the key.
    Value(Value),
    /// The key has no value.
    None,
    /// The key had no value, and has the new one.
    Inserted,
    /// The key has this value, and keeps it.
    Exists(Value),
    /// The key had no value before, and has the new one.
    Set,
    /// The key had this value before, and has the new one.
    Replaced(Value),
    /// The key had this value before, and has none.
    Deleted(Value),
    /// The key had no value before, and has none.
    Absent,
    /// The key had the expected value, and has the new one.
    Swapped,
    /// The key has this value, which isn't the expected one, and keeps it.
    Differs(Value),
    /// The pairs, keys ascending, and the key from which the next page goes on, or none at the end.
    Page { items: Pairs, next: Option<Key> },
    /// The pairs, keys ascending, and the key from which the next page backward goes on, or none at the beginning.
    BackPage { items: Pairs, next: Option<Key> },
    /// The upkeep was done, or none was due.
    Tidied,
    /// Nothing was free for a change, and no key was changed.
    Full,
}

impl Command {
    /// The key that the command is about.
    pub fn key(&self) -> &Key
        ensures { result.now ≡ command_key self.now }
    {
        match self {
            Command::Get(key) => key,
            Command::Insert(key, _) => key,
            Command::Upsert(key, _) => key,
            Command::Delete(key) => key,
            Command::DeleteIf(key, _) => key,
            Command::Swap(key, _, _) => key,
            Command::Add(key, _) => key,
            Command::Page(key) => key,
            Command::Back(key) => key,
            Command::Tidy(key) => key,
        }
    }

    /// Whether an actor links records for the command; lookups and pages of either direction link none.
    pub fn is_writer(&self) -> bool
        ensures { result ≡ is_writer self.now }
    {
        match self {
            Command::Get(_) => false,
            Command::Insert(_, _) => true,
            Command::Upsert(_, _) => true,
            Command::Delete(_) => true,
            Command::DeleteIf(_, _) => true,
            Command::Swap(_, _, _) => true,
            Command::Add(_, _) => true,
            Command::Page(_) => false,
            Command::Back(_) => false,
            Command::Tidy(_) => true,
        }
    }

    /// Whether the command changes the map where its key has the value `old`, or none.
    pub fn changes(&self, old: Option<&Value>) -> bool
        ensures { result ≡ is_some (update_of 0 self.now (option_copied old.entry)) }
    {
        match self {
            Command::Get(_) => false,
            Command::Insert(_, _) => old.is_none(),
            Command::Upsert(_, _) => true,
            Command::Delete(_) => old.is_some(),
            Command::DeleteIf(_, expected) => old == Some(expected),
            Command::Swap(_, expected, _) => old == Some(expected),
            Command::Add(_, _) => old.is_none_or(Value::is_number),
            Command::Page(_) => false,
            Command::Back(_) => false,
            Command::Tidy(_) => false,
        }
    }

    /// The actor's update where the key has the value `old`, or none; no update where nothing changes.
    pub fn update(&self, actor: u8, old: Option<&Value>) -> Option<Update>
        ensures { result ≡ update_of actor self.now (option_copied old.entry) }
    {
        match (self, old) {
            (Command::Insert(key, value), None) => {
                Some(Update::set(actor, key.copied(), value.copied()))
            }
            (Command::Upsert(key, value), _) => {
                Some(Update::set(actor, key.copied(), value.copied()))
            }
            (Command::Delete(key), Some(_)) => Some(Update::unset(actor, key.copied())),
            (Command::DeleteIf(key, expected), Some(old)) => {
                if old == expected {
                    Some(Update::unset(actor, key.copied()))
                } else {
                    None
                }
            }
            (Command::Swap(key, expected, value), Some(old)) => {
                if old == expected {
                    Some(Update::set(actor, key.copied(), value.copied()))
                } else {
                    None
                }
            }
            (Command::Add(key, number), None) => {
                Some(Update::set(actor, key.copied(), Value::of_number(*number)))
            }
            (Command::Add(key, number), Some(old)) => {
                if old.is_number() {
                    Some(Update::set(actor, key.copied(), old.added(*number)))
                } else {
                    None
                }
            }
            _ => None,
        }
    }

    /// A copy of the command; it allocates nothing.
    pub fn copied(&self) -> Command
        ensures { result ≡ self.now }
    {
        match self {
            Command::Get(key) => Command::Get(key.copied()),
            Command::Insert(key, value) => Command::Insert(key.copied(), value.copied()),
            Command::Upsert(key, value) => Command::Upsert(key.copied(), value.copied()),
            Command::Delete(key) => Command::Delete(key.copied()),
            Command::DeleteIf(key, expected) => Command::DeleteIf(key.copied(), expected.copied()),
            Command::Swap(key, expected, value) => {
                Command::Swap(key.copied(), expected.copied(), value.copied())
            }
            Command::Add(key, number) => Command::Add(key.copied(), *number),
            Command::Page(key) => Command::Page(key.copied()),
            Command::Back(key) => Command::Back(key.copied()),
            Command::Tidy(key) => Command::Tidy(key.copied()),
        }
    }
}

impl Clone for Command {
    ghost is_clone = { λ command other. other ≡ command };

    ghost is_infallible = { λ _. Unit {0} };

    fn clone(&self) -> Result<Self, AllocError> {
        Ok(self.copied())
    }
}

impl Reply {
    /// A copy of the reply; it allocates nothing.
    pub fn copied(&self) -> Reply
        ensures { result ≡ self.now }
    {
        match self {
            Reply::Value(value) => Reply::Value(value.copied()),
            Reply::None => Reply::None,
            Reply::Inserted => Reply::Inserted,
            Reply::Exists(value) => Reply::Exists(value.copied()),
            Reply::Set => Reply::Set,
            Reply::Replaced(value) => Reply::Replaced(value.copied()),
            Reply::Deleted(value) => Reply::Deleted(value.copied()),
            Reply::Absent => Reply::Absent,
            Reply::Swapped => Reply::Swapped,
            Reply::Differs(value) => Reply::Differs(value.copied()),
            Reply::Page { items, next } => Reply::Page {
                items: items.copied(),
                next: next.as_ref().map(Key::copied),
            },
            Reply::BackPage { items, next } => Reply::BackPage {
                items: items.copied(),
                next: next.as_ref().map(Key::copied),
            },
            Reply::Tidied => Reply::Tidied,
            Reply::Full => Reply::Full,
        }
    }
}

impl Clone for Reply {
    ghost is_clone = { λ reply other. other ≡ reply };

    ghost is_infallible = { λ _. Unit {0} };

    fn clone(&self) -> Result<Self, AllocError> {
        Ok(self.copied())
    }
}
