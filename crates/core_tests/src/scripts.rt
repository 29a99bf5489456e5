//! Scripts: lines of what actors do with keys by their numbers, and what each line is to tell.

use crate::by_hand::{begins, end, finish, let_go, replies, reply, stepped, steps, until};
use crate::numbered::{back_page, between, insert, is_pair, key, page, value};
use bw_model::{Command, Key, Limits, Link, Reply, Value};
use std::alloc::Global;
use step_core::Core;

/// A command on a key, with its values, by their numbers.
#[derive(Clone, Copy, Debug)]
pub(crate) enum Ask {
    Get(u32),
    Insert(u32),
    Upsert(u32, u32),
    Delete(u32),
    DeleteIf(u32, u32),
    Swap(u32, u32, u32),
    Page(u32),
    Back(u32),
    Tidy(u32),
}

impl Ask {
    /// An insert gives a key the value of its number.
    pub(crate) fn command(self) -> Command {
        match self {
            Ask::Get(number) => Command::Get(key(number)),
            Ask::Insert(number) => insert(number),
            Ask::Upsert(number, new) => Command::Upsert(key(number), value(new)),
            Ask::Delete(number) => Command::Delete(key(number)),
            Ask::DeleteIf(number, old) => Command::DeleteIf(key(number), value(old)),
            Ask::Swap(number, old, new) => Command::Swap(key(number), value(old), value(new)),
            Ask::Page(number) => Command::Page(key(number)),
            Ask::Back(number) => Command::Back(key(number)),
            Ask::Tidy(number) => Command::Tidy(key(number)),
        }
    }
}

/// A reply, with the number of its value.
#[derive(Clone, Copy)]
pub(crate) enum Say {
    Value(u32),
    None,
    Inserted,
    Set,
    Replaced(u32),
    Deleted(u32),
    Swapped,
    Differs(u32),
    /// The pairs from the first number to the second, and the next key.
    Page(u32, u32, Option<u32>),
    /// The pairs of a page backward, in a leaf from the key of the third number on, or from the least key.
    Back(u32, u32, Option<u32>),
    Tidied,
}

impl Say {
    pub(crate) fn reply(self) -> Reply {
        match self {
            Say::Value(number) => Reply::Value(value(number)),
            Say::None => Reply::None,
            Say::Inserted => Reply::Inserted,
            Say::Set => Reply::Set,
            Say::Replaced(number) => Reply::Replaced(value(number)),
            Say::Deleted(number) => Reply::Deleted(value(number)),
            Say::Swapped => Reply::Swapped,
            Say::Differs(number) => Reply::Differs(value(number)),
            Say::Page(first, last, next) => page(first, last, next),
            Say::Back(first, last, low) => back_page(first, last, low),
            Say::Tidied => Reply::Tidied,
        }
    }
}

/// What an actor does, which comes first, and what that is to tell.
#[derive(Clone, Copy)]
pub(crate) enum Line {
    /// It begins an operation.
    Begins(u8, Ask),
    /// It takes so many steps, which each tell this link, or that there is none.
    Steps(u8, u32, Option<Link>),
    /// It takes so many steps, whatever these tell, and isn't done by then.
    Turns(u8, u32),
    /// It takes steps up to the exchange with this link.
    Until(u8, Link),
    /// It takes one step, which tells the reply.
    Ends(u8, Say),
    /// It takes steps up to the one that tells the reply.
    Finishes(u8, Say),
    /// It takes steps up to the one that tells one of these replies.
    FinishesSo(u8, [Say; 2]),
    /// It begins an operation, and takes steps up to the one that tells the reply.
    Replies(u8, Ask, Say),
    /// It inserts the keys from one number to another, each with the value of its number.
    Inserts(u8, u32, u32),
    /// It inserts ten keys between that of a number and the next one.
    InsertsBehind(u8, u32),
    /// It deletes the keys from one number down to another, each with the value of its number.
    Deletes(u8, u32, u32),
    /// It deletes the keys from one number up to another, each with the value of its number.
    DeletesUp(u8, u32, u32),
    /// Its pages backward, from the key of the first number down, show exactly the keys from the second number to the third, each with the
    /// value of its number.
    WalksBack(u8, u32, u32, u32),
    /// Exactly the keys from one number to another are listed, each with the value of its number.
    ListsAll(u32, u32),
    /// Exactly the keys of these ranges are listed, each with the value of its number, but the tenth with that of another one.
    Lists([(u32, u32); 3], u32),
}

/// A range without numbers.
pub(crate) const NONE: (u32, u32) = (1, 0);

/// Whether an actor inserts the keys from one number to another.
pub(crate) fn inserts(core: &mut Core, actor: u8, first: u32, last: u32) -> bool {
    for number in first..=last {
        if !replies(core, actor, insert(number), Reply::Inserted) {
            return false;
        }
    }
    true
}

/// Whether an actor inserts ten keys behind that of a number.
fn inserts_behind(core: &mut Core, actor: u8, number: u32) -> bool {
    for last in b'a'..=b'j' {
        let command = Command::Insert(between(number, last), value(number));
        if !replies(core, actor, command, Reply::Inserted) {
            return false;
        }
    }
    true
}

/// Whether an actor deletes the key of a number.
fn deletes_one(core: &mut Core, actor: u8, number: u32) -> bool {
    let reply = Reply::Deleted(value(number));
    replies(core, actor, Command::Delete(key(number)), reply)
}

/// Whether an actor deletes the keys from one number down to another.
fn deletes(core: &mut Core, actor: u8, last: u32, first: u32) -> bool {
    for number in (first..=last).rev() {
        if !deletes_one(core, actor, number) {
            return false;
        }
    }
    true
}

/// Whether an actor deletes the keys from one number up to another.
fn deletes_up(core: &mut Core, actor: u8, first: u32, last: u32) -> bool {
    for number in first..=last {
        if !deletes_one(core, actor, number) {
            return false;
        }
    }
    true
}

/// The number below those of a page's pairs, if these are the numbers from one on down, each with the value of its number.
fn below(pairs: &[(Key, Value)], from: u32) -> Option<u32> {
    let mut number = from;
    for pair in pairs.iter().rev() {
        if !is_pair(Some(pair), number, number) {
            return None;
        }
        number = number.wrapping_sub(1);
    }
    Some(number)
}

/// Whether an actor's pages backward, from the key of a number down, show exactly the keys from one number to another.
fn walks_back(core: &mut Core, actor: u8, upto: u32, first: u32, last: u32) -> bool {
    let (mut number, mut bound) = (last, key(upto));
    for _ in first..=last {
        let Some(Reply::BackPage { items, next }) = reply(core, actor, Command::Back(bound)) else {
            return false;
        };
        match below(items.as_slice(), number) {
            Some(below) => number = below,
            None => return false,
        }
        match next {
            Some(next) => bound = next,
            None => return number.wrapping_add(1) == first,
        }
    }
    false
}

/// Whether a range's keys are the next ones, each with the value of its number, but the tenth with this one; and how many they are.
fn are_next(pairs: &[(Key, Value)], (first, last): (u32, u32), tenth: u32) -> Option<usize> {
    let mut count = 0usize;
    for number in first..=last {
        let had = if number == 10 { tenth } else { number };
        if !is_pair(pairs.get(count), number, had) {
            return None;
        }
        count = count.wrapping_add(1);
    }
    Some(count)
}

/// Whether these are exactly the keys of the ranges.
fn are_pairs(pairs: &[(Key, Value)], ranges: [(u32, u32); 3], tenth: u32) -> bool {
    let mut left = pairs;
    for range in ranges {
        match are_next(left, range, tenth) {
            Some(count) => left = left.get(count..).unwrap_or(&[]),
            None => return false,
        }
    }
    left.is_empty()
}

/// Whether the core lists exactly the keys of these ranges, each with the value of its number, but the tenth with this one.
fn lists(alloc: Global, core: &Core, ranges: [(u32, u32); 3], tenth: u32) -> bool {
    match core.listing(alloc) {
        Ok(pairs) => are_pairs(pairs.as_slice(), ranges, tenth),
        Err(_) => false,
    }
}

/// Whether the core lists exactly the keys from one number to another, each with the value of its number.
pub(crate) fn lists_all(alloc: Global, core: &Core, first: u32, last: u32) -> bool {
    lists(alloc, core, [(first, last), NONE, NONE], 10)
}

/// Whether there is a reply, and it is this.
fn is_said(reply: &Option<Reply>, wanted: Say) -> bool {
    match reply {
        Some(reply) => *reply == wanted.reply(),
        None => false,
    }
}

/// Whether there is a reply, and it is one of these.
fn is_one_of(reply: Option<Reply>, wanted: [Say; 2]) -> bool {
    let [one, other] = wanted;
    is_said(&reply, one) || is_said(&reply, other)
}

/// Whether the line tells what it is to.
fn holds(alloc: Global, core: &mut Core, line: Line) -> bool {
    match line {
        Line::Begins(actor, ask) => begins(core, actor, ask.command()),
        Line::Steps(actor, count, link) => steps(core, actor, count, link),
        Line::Turns(actor, count) => stepped(core, actor, count, Link::Put).is_some(),
        Line::Until(actor, link) => until(core, actor, link),
        Line::Ends(actor, say) => is_one_of(end(core, actor), [say; 2]),
        Line::Finishes(actor, say) => is_one_of(finish(core, actor), [say; 2]),
        Line::FinishesSo(actor, wanted) => is_one_of(finish(core, actor), wanted),
        Line::Replies(actor, ask, say) => replies(core, actor, ask.command(), say.reply()),
        Line::Inserts(actor, first, last) => inserts(core, actor, first, last),
        Line::InsertsBehind(actor, number) => inserts_behind(core, actor, number),
        Line::Deletes(actor, last, first) => deletes(core, actor, last, first),
        Line::DeletesUp(actor, first, last) => deletes_up(core, actor, first, last),
        Line::WalksBack(actor, upto, first, last) => walks_back(core, actor, upto, first, last),
        Line::ListsAll(first, last) => lists_all(alloc, core, first, last),
        Line::Lists(ranges, tenth) => lists(alloc, core, ranges, tenth),
    }
}

/// Whether all lines tell what they are to, one after another.
pub(crate) fn runs(alloc: Global, core: &mut Core, lines: &[Line]) -> bool {
    for line in lines {
        if !holds(alloc, core, *line) {
            return false;
        }
    }
    true
}

/// A core with so many actors, page identifiers and rows, at this epoch.
pub(crate) fn opened(alloc: Global, actors: u64, pids: u64, rows: u64, epoch: u64) -> Option<Core> {
    match Limits::new(actors, pids, rows, epoch) {
        Ok(limits) => Core::open(alloc, limits).ok(),
        Err(_) => None,
    }
}

/// Which kind of tree a core has, and how many page identifiers and rows.
#[derive(Clone, Copy, Debug)]
pub(crate) enum Size {
    Small(u64, u64),
    /// A large tree, whatever its numbers are.
    Large(u64, u64),
}

impl Size {
    /// A core of this size with so many actors.
    pub(crate) fn opened(self, alloc: Global, actors: u64) -> Option<Core> {
        let limits = match self {
            Size::Small(pids, rows) => Limits::new(actors, pids, rows, 1),
            Size::Large(pids, rows) => Limits::large(actors, pids, rows, 1),
        };
        Core::open(alloc, limits.ok()?).ok()
    }
}

/// Whether all lines tell what they are to on a new core of two actors, 64 page identifiers and 256 rows.
pub(crate) fn is_told(alloc: Global, lines: &[Line]) -> bool {
    match opened(alloc, 2, 64, 256, 1) {
        Some(mut core) => {
            let told = runs(alloc, &mut core, lines);
            let_go(core);
            told
        }
        None => false,
    }
}
