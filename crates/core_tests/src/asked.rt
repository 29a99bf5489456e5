//! What an actor is asked: which commands are drawn, what each changes, and the replies that it may have.

use crate::numbered::key;
use crate::plain_map::{ABSENT, MULTIPLES, VALUES, multiple, multiple_in, value_at};
use bw_model::{Command, Reply};
use rand_core::utils::NextWord;
use rand_pcg::Pcg32;

/// The bit that stands for a value.
pub(crate) fn bit(number: u32) -> u32 {
    1 << (number % 32)
}

/// One of the first so many numbers, of at most 1,024.
pub(crate) fn draw(rng: &mut Pcg32, count: u32) -> u32 {
    (rng.next_word() % 1024).wrapping_mul(count) / 1024
}

/// What a command does.
#[derive(Clone, Copy, PartialEq, Eq)]
pub(crate) enum Kind {
    Get,
    Insert,
    Upsert,
    Delete,
    Swap,
    Page,
    Tidy,
    DeleteIf,
    /// Of a multiple of 2^61.
    Add,
    Back,
}

/// Which commands there are.
#[derive(Clone, Copy)]
pub(crate) enum Mix {
    /// The four commands on one value, each as often as the others.
    Four,
    /// One delete, and two each of the three others.
    FewDeletes,
    /// Five deletes, a lookup and an insert.
    ManyDeletes,
    /// All commands but the last three, each as often as the others.
    Seven,
    /// All commands but the last three, each as often as the others; a swap expects the value that its key has when it is asked, if it has one.
    Swaps,
    /// All ten commands, each as often as the others; what expects a value expects the one that its key has when it is asked, if it has
    /// one.
    Ten,
    /// As `Ten`, but both deletions three times as often.
    Shrinking,
}

pub(crate) const KINDS: [Kind; 10] = [
    Kind::Get,
    Kind::Insert,
    Kind::Upsert,
    Kind::Delete,
    Kind::Swap,
    Kind::Page,
    Kind::Tidy,
    Kind::DeleteIf,
    Kind::Add,
    Kind::Back,
];

/// The places of one delete, and two each of the three others.
const FEW_DELETES: [u32; 7] = [0, 1, 2, 3, 0, 1, 2];

/// The places of five deletes, a lookup and an insert.
const MANY_DELETES: [u32; 7] = [0, 1, 3, 3, 3, 3, 3];

/// The places of three deletions of each kind, and one each of the eight others.
const SHRINKING: [u32; 14] = [0, 1, 2, 3, 4, 5, 6, 7, 8, 9, 3, 3, 7, 7];

impl Mix {
    /// One of the commands.
    pub(crate) fn drawn(self, rng: &mut Pcg32) -> Kind {
        let place = match self {
            Mix::Four => draw(rng, 4),
            Mix::FewDeletes => FEW_DELETES[draw(rng, 7) as usize % 7],
            Mix::ManyDeletes => MANY_DELETES[draw(rng, 7) as usize % 7],
            Mix::Seven | Mix::Swaps => draw(rng, 7),
            Mix::Ten => draw(rng, 10),
            Mix::Shrinking => SHRINKING[draw(rng, 14) as usize % 14],
        };
        KINDS[place as usize % 10]
    }
}

/// What an actor was asked: the kind of the command, its key, its value and the one that it expects by their numbers.
#[derive(Clone, Copy)]
pub(crate) struct Asked {
    pub(crate) kind: Kind,
    pub(crate) key: u32,
    pub(crate) value: u32,
    pub(crate) expected: u32,
    /// At which moment of the map it was asked.
    pub(crate) since: usize,
    /// A bit for each value that its key has had since, and for none.
    pub(crate) met: u32,
    /// The value of its key directly before its own update.
    pub(crate) changed: Option<u32>,
}

impl Asked {
    /// A lookup of the first key.
    pub(crate) fn idle() -> Asked {
        Asked {
            kind: Kind::Get,
            key: 0,
            value: 0,
            expected: 0,
            since: 0,
            met: 0,
            changed: None,
        }
    }

    /// A command of a kind, on one of so many keys, which is drawn with its values.
    pub(crate) fn drawn(kind: Kind, rng: &mut Pcg32, keys: u32) -> Asked {
        Asked {
            kind,
            key: draw(rng, keys),
            value: draw(rng, VALUES),
            expected: draw(rng, VALUES),
            since: 0,
            met: 0,
            changed: None,
        }
    }

    pub(crate) fn command(&self) -> Command {
        let key = key(self.key);
        match self.kind {
            Kind::Get => Command::Get(key),
            Kind::Insert => Command::Insert(key, value_at(self.value)),
            Kind::Upsert => Command::Upsert(key, value_at(self.value)),
            Kind::Delete => Command::Delete(key),
            Kind::DeleteIf => Command::DeleteIf(key, value_at(self.expected)),
            Kind::Swap => Command::Swap(key, value_at(self.expected), value_at(self.value)),
            Kind::Add => Command::Add(key, u64::from(self.value % MULTIPLES) << 61),
            Kind::Page => Command::Page(key),
            Kind::Back => Command::Back(key),
            Kind::Tidy => Command::Tidy(key),
        }
    }

    /// Whether it changes the map where its key has this value.
    fn changes(&self, old: u32) -> bool {
        match self.kind {
            Kind::Get | Kind::Page | Kind::Back | Kind::Tidy => false,
            Kind::Insert => old == ABSENT,
            Kind::Upsert => true,
            Kind::Delete => old != ABSENT,
            Kind::Swap | Kind::DeleteIf => old == self.expected,
            Kind::Add => old == ABSENT || multiple_in(old).is_some(),
        }
    }

    /// What its update leaves where its key has this value.
    pub(crate) fn left(&self, old: u32) -> u32 {
        match self.kind {
            Kind::Delete | Kind::DeleteIf => ABSENT,
            Kind::Add => multiple(multiple_in(old).unwrap_or(0).wrapping_add(self.value)),
            _ => self.value,
        }
    }

    /// Its reply where its key has this value; of a page of either direction none, which goes by more.
    fn reply(&self, old: u32) -> Option<Reply> {
        match (self.kind, old == ABSENT) {
            (Kind::Get, true) => Some(Reply::None),
            (Kind::Get, false) => Some(Reply::Value(value_at(old))),
            (Kind::Insert, true) => Some(Reply::Inserted),
            (Kind::Insert, false) => Some(Reply::Exists(value_at(old))),
            (Kind::Upsert | Kind::Add, true) => Some(Reply::Set),
            (Kind::Upsert, false) => Some(Reply::Replaced(value_at(old))),
            (Kind::Delete | Kind::DeleteIf | Kind::Swap, true) => Some(Reply::Absent),
            (Kind::Delete, false) => Some(Reply::Deleted(value_at(old))),
            (Kind::DeleteIf, false) if old == self.expected => Some(Reply::Deleted(value_at(old))),
            (Kind::Swap, false) if old == self.expected => Some(Reply::Swapped),
            (Kind::Add, false) if multiple_in(old).is_some() => Some(Reply::Replaced(value_at(
                old,
            ))),
            (Kind::DeleteIf | Kind::Swap | Kind::Add, false) => Some(Reply::Differs(value_at(old))),
            (Kind::Page | Kind::Back, _) => None,
            (Kind::Tidy, _) => Some(Reply::Tidied),
        }
    }

    /// Whether it may have this reply: by its own update; by a value that its key has had meanwhile; or because there was no room,
    /// as a writer that changed nothing.
    pub(crate) fn may_reply(&self, reply: &Reply) -> bool {
        if let Some(old) = self.changed {
            return Some(reply) == self.reply(old).as_ref();
        }
        if *reply == Reply::Full {
            return !matches!(self.kind, Kind::Get | Kind::Page | Kind::Back);
        }
        for old in 0..=ABSENT + MULTIPLES {
            let met = self.met & bit(old) != 0 && !self.changes(old);
            if met && Some(reply) == self.reply(old).as_ref() {
                return true;
            }
        }
        false
    }
}
