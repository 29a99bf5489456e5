//! Calls on a seat: each is one command.
ghost use Rattle.std.specs.Prelude.{◌≡◌, ◌<◌, ◌≤◌, ◌⊎◌, Some, length};
ghost use Rattle.bw_model.specs.declared.command.Command.TheVariants as command;
ghost use Rattle.bw_model.specs.declared.short_bytes.TheConstants.{MAX_LENGTH};
ghost use Rattle.bw_tree_c.specs.Calls.{ComesToValue, ComesTidied, ComesWithin};
ghost use Rattle.bw_tree_c.specs.Handles.{MayCall, MayCallOn};

use crate::c_types::Bytes;
use crate::handle::TreeHandle;
use crate::handle::shared::Shared;
use crate::receipt::{Receipt, Told};
use crate::statuses::{CLOSED, SPENT, TOO_LONG};
use crate::taking::{Taken, finish, take};
use bw_model::{Command, Key, Value};
use seats::BUDGET;

impl TreeHandle {
    /// Runs a command on a seat, for at most so many steps.
    #[inline(always)]
    fn run(&self, seat: u32, command: Command, budget: u32, old: &mut Bytes, since: Receipt) -> Told
        requires may { MayCallOn self.now.kept.value since }
        requires some { 1 ≤ budget }
        ensures called { ComesWithin self.now.kept.value seat command budget since result old.old old.new }
        ensures may { MayCallOn self.now.kept.value result.receipt }
    {
        match self.shared() {
            Some(shared) => run_in(shared, seat, command, budget, old, since),
            None => self.refused(CLOSED, since),
        }
    }

    /// Does upkeep on a seat.
    fn tidy(&self, seat: u32, key: Key, since: Receipt) -> Told
        requires may { MayCallOn self.now.kept.value since }
        ensures called { ComesTidied self.now.kept.value seat (command.Tidy key) since result }
        ensures may { MayCallOn self.now.kept.value result.receipt }
    {
        match self.shared() {
            Some(shared) => tidy_in(shared, seat, key, since),
            None => self.refused(CLOSED, since),
        }
    }
}

/// Runs a command on a seat of a handle.
#[inline(always)]
fn run_in(
    shared: &Shared,
    seat: u32,
    command: Command,
    budget: u32,
    old: &mut Bytes,
    since: Receipt,
) -> Told
    requires may { MayCall shared.now since }
    requires some { 1 ≤ budget }
    ensures called { ComesWithin (Some shared.now) seat command budget since result old.old old.new }
    ensures may { MayCall shared.now result.receipt }
{
    let Taken { hand, mut place } = match take(shared, seat, since) {
        Ok(taken) => taken,
        Err(told) => return told,
    };
    let status = place.run(command, budget, old);
    finish(shared, seat, hand, place, status)
}

/// Does upkeep on a seat of a handle.
fn tidy_in(shared: &Shared, seat: u32, key: Key, since: Receipt) -> Told
    requires { MayCall shared.now since }
    ensures called { ComesTidied (Some shared.now) seat (command.Tidy key) since result }
    ensures may { MayCall shared.now result.receipt }
{
    let Taken { hand, mut place } = match take(shared, seat, since) {
        Ok(taken) => taken,
        Err(told) => return told,
    };
    let status = place.tidy(key);
    finish(shared, seat, hand, place, status)
}

/// Looks a key up.
#[unsafe(no_mangle)]
pub extern "C" fn bwtree_raw_get(
    tree: &TreeHandle,
    seat: u32,
    key: &[u8],
    value: &mut Bytes,
    since: Receipt,
) -> Told
    requires may { MayCallOn tree.now.kept.value since }
    ensures long { MAX_LENGTH < length key.now → (result.status ≡ TOO_LONG) × (value.new ≡ value.old) × (result.receipt ≡ since) }
    ensures called { length key.now ≤ MAX_LENGTH → ComesToValue tree.now.kept.value seat (command.Get key.now) since result value.old value.new }
    ensures may { MayCallOn tree.now.kept.value result.receipt }
{
    let Ok(key) = Key::from_slice(key) else {
        return tree.refused(TOO_LONG, since);
    };
    tree.run(seat, Command::Get(key), BUDGET, value, since)
}

/// Looks a key up, for at most so many steps. With none the answer is SPENT, and nothing is begun.
#[unsafe(no_mangle)]
pub extern "C" fn bwtree_raw_get_within(
    tree: &TreeHandle,
    seat: u32,
    budget: u32,
    key: &[u8],
    value: &mut Bytes,
    since: Receipt,
) -> Told
    requires may { MayCallOn tree.now.kept.value since }
    ensures long { MAX_LENGTH < length key.now → (result.status ≡ TOO_LONG) × (value.new ≡ value.old) × (result.receipt ≡ since) }
    ensures none { length key.now ≤ MAX_LENGTH → budget ≡ 0 → (result.status ≡ SPENT) × (value.new ≡ value.old) × (result.receipt ≡ since) }
    ensures called { length key.now ≤ MAX_LENGTH → 1 ≤ budget → ComesWithin tree.now.kept.value seat (command.Get key.now) budget since result value.old value.new }
    ensures may { MayCallOn tree.now.kept.value result.receipt }
{
    let Ok(key) = Key::from_slice(key) else {
        return tree.refused(TOO_LONG, since);
    };
    if budget == 0 {
        return tree.refused(SPENT, since);
    }
    tree.run(seat, Command::Get(key), budget, value, since)
}

/// Gives a key a value where it has none.
#[unsafe(no_mangle)]
pub extern "C" fn bwtree_raw_insert(
    tree: &TreeHandle,
    seat: u32,
    key: &[u8],
    value: &[u8],
    old: &mut Bytes,
    since: Receipt,
) -> Told
    requires may { MayCallOn tree.now.kept.value since }
    ensures long { (MAX_LENGTH < length key.now) ⊎ (MAX_LENGTH < length value.now) → (result.status ≡ TOO_LONG) × (old.new ≡ old.old) × (result.receipt ≡ since) }
    ensures called { length key.now ≤ MAX_LENGTH → length value.now ≤ MAX_LENGTH → ComesToValue tree.now.kept.value seat (command.Insert key.now value.now) since result old.old old.new }
    ensures may { MayCallOn tree.now.kept.value result.receipt }
{
    let (Ok(key), Ok(value)) = (Key::from_slice(key), Value::from_slice(value)) else {
        return tree.refused(TOO_LONG, since);
    };
    tree.run(seat, Command::Insert(key, value), BUDGET, old, since)
}

/// Gives a key a value, in place of the one that it has.
#[unsafe(no_mangle)]
pub extern "C" fn bwtree_raw_upsert(
    tree: &TreeHandle,
    seat: u32,
    key: &[u8],
    value: &[u8],
    old: &mut Bytes,
    since: Receipt,
) -> Told
    requires may { MayCallOn tree.now.kept.value since }
    ensures long { (MAX_LENGTH < length key.now) ⊎ (MAX_LENGTH < length value.now) → (result.status ≡ TOO_LONG) × (old.new ≡ old.old) × (result.receipt ≡ since) }
    ensures called { length key.now ≤ MAX_LENGTH → length value.now ≤ MAX_LENGTH → ComesToValue tree.now.kept.value seat (command.Upsert key.now value.now) since result old.old old.new }
    ensures may { MayCallOn tree.now.kept.value result.receipt }
{
    let (Ok(key), Ok(value)) = (Key::from_slice(key), Value::from_slice(value)) else {
        return tree.refused(TOO_LONG, since);
    };
    tree.run(seat, Command::Upsert(key, value), BUDGET, old, since)
}

/// Gives a key a value, in place of the one that it has, in at most so many steps. With none the answer is SPENT, and nothing is begun.
#[unsafe(no_mangle)]
pub extern "C" fn bwtree_raw_upsert_within(
    tree: &TreeHandle,
    seat: u32,
    budget: u32,
    key: &[u8],
    value: &[u8],
    old: &mut Bytes,
    since: Receipt,
) -> Told
    requires may { MayCallOn tree.now.kept.value since }
    ensures long { (MAX_LENGTH < length key.now) ⊎ (MAX_LENGTH < length value.now) → (result.status ≡ TOO_LONG) × (old.new ≡ old.old) × (result.receipt ≡ since) }
    ensures none { length key.now ≤ MAX_LENGTH → length value.now ≤ MAX_LENGTH → budget ≡ 0 → (result.status ≡ SPENT) × (old.new ≡ old.old) × (result.receipt ≡ since) }
    ensures called { length key.now ≤ MAX_LENGTH → length value.now ≤ MAX_LENGTH → 1 ≤ budget
        → ComesWithin tree.now.kept.value seat (command.Upsert key.now value.now) budget since result old.old old.new }
    ensures may { MayCallOn tree.now.kept.value result.receipt }
{
    let (Ok(key), Ok(value)) = (Key::from_slice(key), Value::from_slice(value)) else {
        return tree.refused(TOO_LONG, since);
    };
    if budget == 0 {
        return tree.refused(SPENT, since);
    }
    tree.run(seat, Command::Upsert(key, value), budget, old, since)
}

/// Makes a key absent.
#[unsafe(no_mangle)]
pub extern "C" fn bwtree_raw_delete(
    tree: &TreeHandle,
    seat: u32,
    key: &[u8],
    old: &mut Bytes,
    since: Receipt,
) -> Told
    requires may { MayCallOn tree.now.kept.value since }
    ensures long { MAX_LENGTH < length key.now → (result.status ≡ TOO_LONG) × (old.new ≡ old.old) × (result.receipt ≡ since) }
    ensures called { length key.now ≤ MAX_LENGTH → ComesToValue tree.now.kept.value seat (command.Delete key.now) since result old.old old.new }
    ensures may { MayCallOn tree.now.kept.value result.receipt }
{
    let Ok(key) = Key::from_slice(key) else {
        return tree.refused(TOO_LONG, since);
    };
    tree.run(seat, Command::Delete(key), BUDGET, old, since)
}

/// Makes a key absent where it has the expected value.
#[unsafe(no_mangle)]
pub extern "C" fn bwtree_raw_delete_if(
    tree: &TreeHandle,
    seat: u32,
    key: &[u8],
    expected: &[u8],
    old: &mut Bytes,
    since: Receipt,
) -> Told
    requires may { MayCallOn tree.now.kept.value since }
    ensures long { (MAX_LENGTH < length key.now) ⊎ (MAX_LENGTH < length expected.now) → (result.status ≡ TOO_LONG) × (old.new ≡ old.old) × (result.receipt ≡ since) }
    ensures called { length key.now ≤ MAX_LENGTH → length expected.now ≤ MAX_LENGTH
        → ComesToValue tree.now.kept.value seat (command.DeleteIf key.now expected.now) since result old.old old.new }
    ensures may { MayCallOn tree.now.kept.value result.receipt }
{
    let (Ok(key), Ok(expected)) = (Key::from_slice(key), Value::from_slice(expected)) else {
        return tree.refused(TOO_LONG, since);
    };
    tree.run(seat, Command::DeleteIf(key, expected), BUDGET, old, since)
}

/// Gives a key the new value where it has the expected one.
#[unsafe(no_mangle)]
pub extern "C" fn bwtree_raw_swap(
    tree: &TreeHandle,
    seat: u32,
    key: &[u8],
    expected: &[u8],
    value: &[u8],
    old: &mut Bytes,
    since: Receipt,
) -> Told
    requires may { MayCallOn tree.now.kept.value since }
    ensures long { (MAX_LENGTH < length key.now) ⊎ (MAX_LENGTH < length expected.now) ⊎ (MAX_LENGTH < length value.now)
        → (result.status ≡ TOO_LONG) × (old.new ≡ old.old) × (result.receipt ≡ since) }
    ensures called { length key.now ≤ MAX_LENGTH → length expected.now ≤ MAX_LENGTH → length value.now ≤ MAX_LENGTH
        → ComesToValue tree.now.kept.value seat (command.Swap key.now expected.now value.now) since result old.old old.new }
    ensures may { MayCallOn tree.now.kept.value result.receipt }
{
    let Ok(key) = Key::from_slice(key) else {
        return tree.refused(TOO_LONG, since);
    };
    let (Ok(expected), Ok(value)) = (Value::from_slice(expected), Value::from_slice(value)) else {
        return tree.refused(TOO_LONG, since);
    };
    tree.run(
        seat,
        Command::Swap(key, expected, value),
        BUDGET,
        old,
        since,
    )
}

/// Adds a number, modulo 2^64, to the one that a key's value of eight bytes spells; an absent key is given the number.
#[unsafe(no_mangle)]
pub extern "C" fn bwtree_raw_add(
    tree: &TreeHandle,
    seat: u32,
    key: &[u8],
    number: u64,
    old: &mut Bytes,
    since: Receipt,
) -> Told
    requires may { MayCallOn tree.now.kept.value since }
    ensures long { MAX_LENGTH < length key.now → (result.status ≡ TOO_LONG) × (old.new ≡ old.old) × (result.receipt ≡ since) }
    ensures called { length key.now ≤ MAX_LENGTH → ComesToValue tree.now.kept.value seat (command.Add key.now number) since result old.old old.new }
    ensures may { MayCallOn tree.now.kept.value result.receipt }
{
    let Ok(key) = Key::from_slice(key) else {
        return tree.refused(TOO_LONG, since);
    };
    tree.run(seat, Command::Add(key, number), BUDGET, old, since)
}

/// Does what upkeep is due at the leaf that has the key.
#[unsafe(no_mangle)]
pub extern "C" fn bwtree_raw_tidy(tree: &TreeHandle, seat: u32, key: &[u8], since: Receipt) -> Told
    requires may { MayCallOn tree.now.kept.value since }
    ensures long { MAX_LENGTH < length key.now → (result.status ≡ TOO_LONG) × (result.receipt ≡ since) }
    ensures called { length key.now ≤ MAX_LENGTH → ComesTidied tree.now.kept.value seat (command.Tidy key.now) since result }
    ensures may { MayCallOn tree.now.kept.value result.receipt }
{
    let Ok(key) = Key::from_slice(key) else {
        return tree.refused(TOO_LONG, since);
    };
    tree.tidy(seat, key, since)
}
