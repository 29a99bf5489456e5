//! A client of one seat, which draws commands and knows the values of its own keys: nobody else changes these, so each reply on them is
//! known beforehand. All clients change the shared keys.
use crate::numbered::{key, value};
use bw_model::{Command, Reply};
use running_tree::{BwSeat, Tree};
use workers::{Work, reply};

/// How many keys each client has of its own, and how many all share.
pub(crate) const OWN: u32 = 16;

const SHARED: u32 = 24;

/// The number of the first shared key: those of the clients stand before it.
const FIRST_SHARED: u32 = 4 * OWN;

/// What a client knows of its own keys: the number of each one's value, or 0 where it has none; and how many replies were wrong.
#[derive(Drop)]
pub(crate) struct Client {
    number: u32,
    pub(crate) rounds: u32,
    drawn: u32,
    values: [u32; 16],
    pub(crate) wrong: u32,
}

/// The next of a row of numbers that are as if drawn.
fn next(drawn: u32) -> u32 {
    drawn.wrapping_mul(1_664_525).wrapping_add(1_013_904_223)
}

/// A command on the key, by a number that was drawn.
fn command(kind: u32, number: u32, new: u32) -> Command {
    match kind % 8 {
        0 | 1 => Command::Insert(key(number), value(new)),
        2 | 3 => Command::Upsert(key(number), value(new)),
        4 => Command::Delete(key(number)),
        5 => Command::Tidy(key(number)),
        _ => Command::Get(key(number)),
    }
}

/// The reply to such a command on a key with the value of a number, or none where that is 0.
fn wanted(kind: u32, known: u32) -> Reply {
    match (kind % 8, known) {
        (0 | 1, 0) => Reply::Inserted,
        (0 | 1, _) => Reply::Exists(value(known)),
        (2 | 3, 0) => Reply::Set,
        (2 | 3, _) => Reply::Replaced(value(known)),
        (4, 0) => Reply::Absent,
        (4, _) => Reply::Deleted(value(known)),
        (5, _) => Reply::Tidied,
        (_, 0) => Reply::None,
        (_, _) => Reply::Value(value(known)),
    }
}

/// The number of the value that such a command leaves.
fn left(kind: u32, known: u32, new: u32) -> u32 {
    match (kind % 8, known) {
        (0 | 1, 0) | (2 | 3, _) => new,
        (4, _) => 0,
        (_, _) => known,
    }
}

impl Client {
    /// A client that is to run so many commands.
    pub(crate) fn new(number: u32, rounds: u32) -> Client {
        Client {
            number,
            rounds,
            drawn: number,
            values: [0; 16],
            wrong: 0,
        }
    }

    /// The number of its first own key.
    pub(crate) fn first(&self) -> u32 {
        self.number % 4 * OWN
    }

    /// The value of one of its own keys.
    pub(crate) fn value(&self, place: usize) -> u32 {
        match self.values.get(place) {
            Some(known) => *known,
            None => 0,
        }
    }

    /// Whether a command on an own key is to have this reply. A writer may find no room, and then has changed nothing.
    fn expects(&mut self, kind: u32, place: usize, new: u32, reply: &Reply) -> bool {
        let known = self.value(place);
        if *reply == Reply::Full {
            return kind % 8 < 6;
        }
        if let Some(now) = self.values.get_mut(place) {
            *now = left(kind, known, new);
        }
        *reply == wanted(kind, known)
    }
}

/// What a client asks in a round: a command by a number that was drawn, on an own key or on a shared one.
#[derive(Clone, Copy)]
pub(crate) struct Asked {
    drawn: u32,
    own: bool,
}

impl Asked {
    fn kind(self) -> u32 {
        self.drawn >> 8
    }

    /// The number of the value that an update sets.
    fn new_value(self) -> u32 {
        1 + (self.drawn >> 20) % 4000
    }

    /// The index among the client's own keys.
    fn index(self) -> u32 {
        (self.drawn >> 16) % OWN
    }
}

impl Client {
    /// What it asks in a round: every second command is on an own key.
    pub(crate) fn ask(&mut self, round: u32) -> Asked {
        self.drawn = next(self.drawn);
        Asked {
            drawn: self.drawn,
            own: round % 2 == 0,
        }
    }

    pub(crate) fn command(&self, asked: Asked) -> Command {
        let number = if asked.own {
            self.first().wrapping_add(asked.index())
        } else {
            FIRST_SHARED + (asked.drawn >> 12) % SHARED
        };
        command(asked.kind(), number, asked.new_value())
    }

    /// Looks at the reply of a command, and counts it where it is wrong.
    pub(crate) fn learn(&mut self, asked: Asked, reply: &Reply) {
        let index = asked.index() as usize;
        if asked.own && !self.expects(asked.kind(), index, asked.new_value(), reply) {
            self.wrong = self.wrong.saturating_add(1);
        }
    }
}

impl Work for Client {
    /// Runs its commands.
    fn work(&mut self, tree: &Tree, seat: &mut BwSeat) {
        for round in 0..self.rounds {
            let asked = self.ask(round);
            let Ok(reply) = reply(tree, seat, self.command(asked)) else {
                return;
            };
            self.learn(asked, &reply);
        }
    }
}
