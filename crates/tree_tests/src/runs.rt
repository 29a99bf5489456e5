//! What two seats of one tree do, one after the other, and whether each reply is right.
ghost use Rattle.running_tree.specs.Trees.{IsSeatOf};

use crate::calls::{ends_within, goes_to_its_end, replies, stops_after, stops_again};
use crate::numbered::{are_from_k01, are_numbers, found, get, insert, pair};
use crate::shrinking::comes_and_goes;
use crate::stops::Stop;
use bw_model::{Command, Key, Reply, Value};
use running_tree::{BwSeat, Tree};

/// What is done.
#[derive(Clone, Copy, Debug)]
pub(crate) enum Run {
    /// Nothing.
    Nothing,
    /// A lookup, one step at a time.
    Steps,
    /// Updates, while a lookup stands after its second step.
    Stays,
    /// That lookup is done, and one more update.
    Goes,
    /// Updates of one seat, beside no other: whether the key has no value yet, and how many.
    Updates(bool, u32),
    /// Inserts of one seat, beside no other.
    Alone(u32),
    /// Keys for four levels that one seat inserts and deletes, beside no other.
    ComesAndGoes,
    /// Inserts of one seat, each looked up by it and by the other.
    Inserts(u32),
    /// Inserts of both seats, in another order than that of the keys.
    Mixed,
    /// Inserts of one seat, between meetings.
    Meets,
    /// An operation that is stopped after so many steps, while the other seat goes on.
    Stopped(Stop, u32),
}

impl Run {
    /// Whether the pairs are those of a tree that was empty before.
    pub(crate) fn leaves(self, pairs: &[(Key, Value)]) -> bool {
        match self {
            Run::Nothing | Run::Steps | Run::ComesAndGoes => pairs.is_empty(),
            Run::Stays | Run::Goes | Run::Updates(_, _) => pairs == [(key(), value())].as_slice(),
            Run::Alone(count) => are_from_k01(pairs, count),
            Run::Inserts(count) => are_numbers(pairs, 0, count),
            Run::Mixed => are_numbers(pairs, 0, 200),
            Run::Meets => are_numbers(pairs, 0, 20),
            Run::Stopped(stop, _) => pairs.len() == stop.left(),
        }
    }
}

/// Does it with two seats, and answers whether all replies were right.
pub(crate) fn is_right(tree: &Tree, one: &mut BwSeat, other: &mut BwSeat, run: Run) -> bool
    requires one { IsSeatOf tree.now one.old }
    requires other { IsSeatOf tree.now other.old }
    ensures one { IsSeatOf tree.now one.new }
    ensures other { IsSeatOf tree.now other.new }
{
    match run {
        Run::Nothing | Run::Steps | Run::Alone(_) | Run::ComesAndGoes | Run::Updates(_, _) =>
            is_right_alone(tree, one, run),
        Run::Stays => stays(tree, one, other),
        Run::Goes => goes(tree, one, other),
        Run::Inserts(count) => inserts(tree, one, other, count),
        Run::Mixed => mixes(tree, one, other),
        Run::Meets => meets(tree, one, other),
        Run::Stopped(stop, steps) => stop.is_right(tree, one, other, steps),
    }
}

/// Does it with one seat, and answers whether all replies were right; false where it takes two.
pub(crate) fn is_right_alone(tree: &Tree, seat: &mut BwSeat, run: Run) -> bool
    requires own { IsSeatOf tree.now seat.old }
    ensures own { IsSeatOf tree.now seat.new }
{
    match run {
        Run::Nothing => true,
        Run::Steps => steps(tree, seat),
        Run::Alone(count) => inserts_alone(tree, seat, count),
        Run::ComesAndGoes => comes_and_goes(tree, seat),
        Run::Updates(fresh, count) => updates(tree, seat, fresh, count),
        _ => false,
    }
}

pub(crate) fn key() -> Key {
    Key::from_slice(b"a").unwrap_or_default()
}

pub(crate) fn value() -> Value {
    Value::from_slice(b"x").unwrap_or_default()
}

/// A lookup on an empty tree takes six steps: it reads the epoch, enters, reads slot 0, slot 1 and row 1, and leaves.
fn steps(tree: &Tree, seat: &mut BwSeat) -> bool
    requires own { IsSeatOf tree.now seat.old }
    ensures own { IsSeatOf tree.now seat.new }
{
    let mut right = stops_after(tree, seat, Command::Get(key()), 1);
    for _ in 0..4u32 {
        right = stops_again(tree, seat, 1) && right;
    }
    goes_to_its_end(tree, seat, 1, Reply::None) && right
}

/// Inserts the keys `k01` and on, each within 4,096 steps, so that the page is consolidated at the ninth and split at the seventeenth.
fn inserts_alone(tree: &Tree, seat: &mut BwSeat, count: u32) -> bool
    requires own { IsSeatOf tree.now seat.old }
    ensures own { IsSeatOf tree.now seat.new }
{
    for number in 0..count {
        let (key, value) = pair(number);
        if !ends_within(
            tree,
            seat,
            Command::Insert(key, value),
            4096,
            Reply::Inserted,
        ) {
            return false;
        }
    }
    true
}

/// Sets the value of the key within 4,096 steps, and answers whether the reply is right.
fn sets(tree: &Tree, seat: &mut BwSeat, wanted: Reply) -> bool
    requires own { IsSeatOf tree.now seat.old }
    ensures own { IsSeatOf tree.now seat.new }
{
    ends_within(tree, seat, Command::Upsert(key(), value()), 4096, wanted)
}

/// What the update of a round is told while a lookup stands.
fn reply_beside_a_reader(round: u32) -> Reply {
    match round {
        0 => Reply::Set,
        56 => Reply::Full,
        _ => Reply::Replaced(value()),
    }
}

/// While a lookup stands after its second step, fifty-six updates use all rows, and the next one finds none; each within 4,096 steps.
fn stays(tree: &Tree, writer: &mut BwSeat, reader: &mut BwSeat) -> bool
    requires one { IsSeatOf tree.now writer.old }
    requires other { IsSeatOf tree.now reader.old }
    ensures one { IsSeatOf tree.now writer.new }
    ensures other { IsSeatOf tree.now reader.new }
{
    let stopped = stops_after(tree, reader, Command::Get(key()), 2);
    for round in 0..57u32 {
        if !sets(tree, writer, reply_beside_a_reader(round)) {
            return false;
        }
    }
    stopped
}

/// Once that lookup is done, an update has room again.
fn goes(tree: &Tree, writer: &mut BwSeat, reader: &mut BwSeat) -> bool
    requires one { IsSeatOf tree.now writer.old }
    requires other { IsSeatOf tree.now reader.old }
    ensures one { IsSeatOf tree.now writer.new }
    ensures other { IsSeatOf tree.now reader.new }
{
    let last = goes_to_its_end(tree, reader, 4096, Reply::Value(value()));
    sets(tree, writer, Reply::Replaced(value())) && last
}

/// What an update is told of a key that has no value yet, or has it.
fn reply_to_update(fresh: bool) -> Reply {
    if fresh {
        Reply::Set
    } else {
        Reply::Replaced(value())
    }
}

/// So many updates within 4,096 steps each, of a key that has no value yet, or has it.
fn updates(tree: &Tree, seat: &mut BwSeat, fresh: bool, count: u32) -> bool
    requires own { IsSeatOf tree.now seat.old }
    ensures own { IsSeatOf tree.now seat.new }
{
    for round in 0..count {
        if !sets(tree, seat, reply_to_update(fresh && round == 0)) {
            return false;
        }
    }
    true
}

/// Inserts within 4,096 steps each, so that the page is consolidated at the ninth and split at the seventeenth.
fn inserts(tree: &Tree, one: &mut BwSeat, other: &mut BwSeat, count: u32) -> bool
    requires one { IsSeatOf tree.now one.old }
    requires other { IsSeatOf tree.now other.old }
    ensures one { IsSeatOf tree.now one.new }
    ensures other { IsSeatOf tree.now other.new }
{
    for number in 0..count {
        let inserted = ends_within(tree, one, insert(number), 4096, Reply::Inserted);
        let own = ends_within(tree, one, get(number), 4096, found(number));
        let others = ends_within(tree, other, get(number), 4096, found(number));
        if !inserted || !own || !others {
            return false;
        }
    }
    true
}

/// Inserts of 200 keys, every third by the first seat.
fn mixes(tree: &Tree, one: &mut BwSeat, other: &mut BwSeat) -> bool
    requires one { IsSeatOf tree.now one.old }
    requires other { IsSeatOf tree.now other.old }
    ensures one { IsSeatOf tree.now one.new }
    ensures other { IsSeatOf tree.now other.new }
{
    for place in 0..200u32 {
        let number = place * 77 % 200;
        let inserted = if number % 3 == 0 {
            replies(tree, one, insert(number), Reply::Inserted)
        } else {
            replies(tree, other, insert(number), Reply::Inserted)
        };
        if !inserted {
            return false;
        }
    }
    true
}

/// Seats that meet between operations, and in the midst of one.
fn meets(tree: &Tree, one: &mut BwSeat, other: &mut BwSeat) -> bool
    requires one { IsSeatOf tree.now one.old }
    requires other { IsSeatOf tree.now other.old }
    ensures one { IsSeatOf tree.now one.new }
    ensures other { IsSeatOf tree.now other.new }
{
    for number in 0..20u32 {
        let inserted = replies(tree, one, insert(number), Reply::Inserted);
        let stopped = stops_after(tree, one, get(number), 1 + number % 6);
        tree.meet(one, other);
        let others = replies(tree, other, get(number), found(number));
        tree.meet(other, one);
        let last = goes_to_its_end(tree, one, 4096, found(number));
        if !inserted || !stopped || !others || !last {
            return false;
        }
    }
    true
}
