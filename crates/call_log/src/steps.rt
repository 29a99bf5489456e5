//! Steps on the words of a log's table: each is one atomic operation, and writes into the log or sees it.
ghost use Rattle.std.specs.Prelude.{◌≡◌, ◌<◌, [], ℕ, IfSome, length, replicate};
ghost use Rattle.call_log.specs.Logs.{WritesAs};
ghost use Rattle.call_log.specs.Rule.{all_of};
ghost use Rattle.call_log.specs.Steps.{CanClose, CanEmpty, CanEnd, CanLeave, EndsSo, HasClosed, HasEmptied, HasLeft, HasLooked, HasSeen, HasTried, one, others};

use crate::rule::{
    Beginning, Closing, Course, Emptying, Ending, Hand, Leaving, Log, LogTable, Looking, Parting,
    Recalling,
};
use atomic_table::Table;
use std::alloc::Global;
use std::snapshot::Snapshot;

/// The word of a slot in which something is.
pub const HOME: u64 = 0;

/// The word of a slot that is out.
pub const OUT: u64 = 1;

/// The word of a slot that is out for good.
pub const GONE: u64 = 2;

/// A table with these slots, and the seat that has all authors, if there is memory for it.
pub fn opened<S: Drop, P: Course<S>>(
    alloc: Global,
    slots: Vec<S>,
) -> Option<(LogTable<S, P>, Hand<S>)>
    ensures table { IfSome result (λ made. made.1.table_id ≡ made.0.shared.table_id) }
    ensures long { IfSome result (λ made. made.0.shared.table_id.words ≡ length slots.items) }
    ensures key { IfSome result (λ made. made.0.shared.key.value.items ≡ slots.items) }
    ensures hand { IfSome result (λ made. made.1.me ≡ (all_of slots.items, [])) }
{
    let about = Snapshot::of(&slots);
    let words = zeros(alloc, slots.len())?;
    match Table::new(alloc, words.as_slice(), slots, &about) {
        Ok(made) => Some(made),
        Err(_) => None,
    }
}

/// So many zeros.
fn zeros(alloc: Global, count: usize) -> Option<Vec<u64>>
    ensures { IfSome result (λ words. words.items ≡ replicate count 0) }
{
    let mut words = Vec::with_capacity(alloc, count).ok()?;
    while words.len() < count {
        words.push(HOME).ok()?;
    }
    Some(words)
}

/// Tries to take out what is in a slot, and tells its word: `HOME` where the seat has it now; `OUT` where somebody has it; `GONE` where it is out for good.
pub fn begun<S, P: Course<S>>(log: &Log<S, P>, hand: &mut Hand<S>, slot: usize) -> u64
    requires table { hand.old.table_id ≡ log.now.table_id }
    requires word { slot < log.now.table_id.words }
    requires there { slot < length log.now.key.value.items }
    requires may { (author : ℕ) × WritesAs hand.old.me.0.authors author }
    ensures same { hand.new.table_id ≡ hand.old.table_id }
    ensures tried { HasTried P.ends slot result hand.old.me hand.new.me }
{
    log.compare_exchange::<Beginning<S, P>>(hand, slot, HOME, OUT)
}

/// Puts back the slot that was taken last, with what is in it now.
pub fn ended<S, P: Course<S>>(log: &Log<S, P>, hand: &mut Hand<S>, slot: usize)
    requires table { hand.old.table_id ≡ log.now.table_id }
    requires word { slot < log.now.table_id.words }
    requires there { slot < length log.now.key.value.items }
    requires can { CanEnd P.ends slot hand.old.me }
    ensures same { hand.new.table_id ≡ hand.old.table_id }
    ensures ended { EndsSo P.ends slot hand.old.me hand.new.me }
{
    log.store::<Ending<S, P>>(hand, slot, HOME);
}

/// Closes the table: all slots are out with this seat, for good.
pub fn closed<S, P: Course<S>>(log: &Log<S, P>, hand: &mut Hand<S>)
    requires table { hand.old.table_id ≡ log.now.table_id }
    requires word { 0 < log.now.table_id.words }
    requires can { CanClose hand.old.me }
    ensures same { hand.new.table_id ≡ hand.old.table_id }
    ensures closed { HasClosed P.ends hand.old.me hand.new.me }
{
    log.load::<Closing<S, P>>(hand, 0);
}

/// Leaves the slot that was taken last for good; the table is closed.
pub fn left<S, P: Course<S>>(log: &Log<S, P>, hand: &mut Hand<S>, slot: usize)
    requires table { hand.old.table_id ≡ log.now.table_id }
    requires word { slot < log.now.table_id.words }
    requires there { slot < length log.now.key.value.items }
    requires can { CanLeave slot hand.old.me }
    ensures same { hand.new.table_id ≡ hand.old.table_id }
    ensures left { HasLeft P.ends hand.old.me hand.new.me }
{
    log.store::<Leaving<S, P>>(hand, slot, GONE);
}

/// Leaves the last slot for good: nothing waits any more.
pub fn emptied<S, P: Course<S>>(log: &Log<S, P>, hand: &mut Hand<S>, slot: usize)
    requires table { hand.old.table_id ≡ log.now.table_id }
    requires word { slot < log.now.table_id.words }
    requires can { CanEmpty slot hand.old.me }
    ensures same { hand.new.table_id ≡ hand.old.table_id }
    ensures emptied { HasEmptied P.ends hand.old.me hand.new.me }
{
    log.store::<Emptying<S, P>>(hand, slot, GONE);
}

/// Looks at the log.
pub fn recalled<S, P: Course<S>>(log: &Log<S, P>, hand: &mut Hand<S>, slot: usize)
    requires table { hand.old.table_id ≡ log.now.table_id }
    requires word { slot < log.now.table_id.words }
    ensures same { hand.new.table_id ≡ hand.old.table_id }
    ensures recalled { HasSeen P.ends hand.old.me.1 hand.old.me.0 hand.new.me }
{
    log.load::<Recalling<S, P>>(hand, slot);
}

/// Looks at the log with no seat: the new one has no author.
pub fn looked<S, P: Course<S>>(log: &Log<S, P>) -> Hand<S>
    requires word { 0 < log.now.table_id.words }
    ensures table { result.table_id ≡ log.now.table_id }
    ensures looked { HasLooked P.ends log.now.key.value.items result.me }
{
    let (_, hand) = log.load_new_seat::<Looking<S, P>>(0);
    hand
}

/// A seat that has seen the same, with the first of the authors; the other ones stay.
pub fn parted<S, P: Course<S>>(log: &Log<S, P>, hand: &mut Hand<S>) -> Hand<S>
    requires table { hand.old.table_id ≡ log.now.table_id }
    requires word { 0 < log.now.table_id.words }
    ensures same { hand.new.table_id ≡ hand.old.table_id }
    ensures table { result.table_id ≡ hand.old.table_id }
    ensures others { hand.new.me ≡ (others hand.old.me.0, hand.old.me.1) }
    ensures one { result.me ≡ (one hand.old.me.0, []) }
{
    log.split_seat::<Parting>(hand)
}
