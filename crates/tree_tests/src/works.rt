//! What is done with a key, by its number.

use bw_model::{Command, Key, Reply, Value};

/// What is done.
#[derive(Clone, Copy, Debug)]
pub(crate) enum Work {
    Insert,
    Update,
    Delete,
    Tidy,
}

/// Four bytes, so that keys are in the order of their numbers.
pub(crate) fn key(number: u32) -> Key {
    Key::from_slice(&number.to_be_bytes()).unwrap_or_default()
}

pub(crate) fn value(number: u32) -> Value {
    Value::from_slice(&number.to_be_bytes()).unwrap_or_default()
}

impl Work {
    /// The command for the key of a number.
    pub(crate) fn command(self, number: u32) -> Command {
        match self {
            Work::Insert => Command::Insert(key(number), value(number)),
            Work::Update => Command::Upsert(key(number), value(number)),
            Work::Delete => Command::Delete(key(number)),
            Work::Tidy => Command::Tidy(key(number)),
        }
    }

    /// What it replies where it is done.
    pub(crate) fn reply(self, number: u32) -> Reply {
        match self {
            Work::Insert => Reply::Inserted,
            Work::Update => Reply::Replaced(value(number)),
            Work::Delete => Reply::Deleted(value(number)),
            Work::Tidy => Reply::Tidied,
        }
    }
}
