//! Replies as C reads them: a status, and the value that goes with it.
ghost use Rattle.std.specs.Prelude.{◌≡◌};
ghost use Rattle.running_tree.specs.Calls.{called_if};
ghost use Rattle.bw_tree_c.specs.Told.{TellsPage, TellsValue, ShowsPageOf, ShowsValueOf};
ghost use Rattle.bw_tree_c.specs.Statuses.{status_of, status_of_called};

use crate::c_types::{Bytes, Page};
use bw_model::Reply;

/// The operation is done: the key had a value, or got one, or lost it.
pub(crate) const OK: u32 = 0;

/// The key has no value.
pub(crate) const ABSENT: u32 = 1;

/// The key has a value, and keeps it.
pub(crate) const EXISTS: u32 = 2;

/// The key had another value before.
pub(crate) const REPLACED: u32 = 3;

/// The key has a value that isn't the expected one, or no number, and keeps it.
pub(crate) const DIFFERS: u32 = 4;

/// Nothing was free for a change, and no key was changed.
pub(crate) const FULL: u32 = 5;

/// The steps are spent, and the operation stays in the seat: resume it.
pub(crate) const SPENT: u32 = 6;

/// The tree is closed, and its pairs, which are more than there is room for, wait.
pub(crate) const NO_ROOM: u32 = 7;

/// The tree is closed, or was never opened.
pub(crate) const CLOSED: u32 = 16;

/// The tree has no seat of this number.
pub(crate) const NO_SEAT: u32 = 17;

/// Another call is inside the seat.
pub(crate) const BUSY: u32 = 18;

/// The seat has an unfinished operation.
pub(crate) const UNFINISHED: u32 = 19;

/// The seat has no unfinished operation.
pub(crate) const IDLE: u32 = 20;

/// A key or a value has more than 64 bytes.
pub(crate) const TOO_LONG: u32 = 21;

/// A limit is outside its range.
pub(crate) const BAD_LIMITS: u32 = 22;

/// A growth of memory was refused.
pub(crate) const NO_MEMORY: u32 = 23;

/// A handle that is to be opened has a tree that isn't closed.
pub(crate) const OPEN: u32 = 24;

/// The keys of the pairs to be loaded don't ascend.
pub(crate) const BAD_ORDER: u32 = 26;

/// The status of a reply.
fn status_of(reply: &Reply) -> u32
    ensures { result ≡ status_of reply.now }
{
    match reply {
        Reply::Value(_) => OK,
        Reply::None => ABSENT,
        Reply::Inserted => OK,
        Reply::Exists(_) => EXISTS,
        Reply::Set => OK,
        Reply::Replaced(_) => REPLACED,
        Reply::Deleted(_) => OK,
        Reply::Absent => ABSENT,
        Reply::Swapped => OK,
        Reply::Differs(_) => DIFFERS,
        Reply::Page { items: _, next: _ } => OK,
        Reply::BackPage { items: _, next: _ } => OK,
        Reply::Tidied => OK,
        Reply::Full => FULL,
    }
}

/// The status of what became of a call.
pub(crate) fn status_of_called(done: bool, reply: &Reply) -> u32
    ensures { result ≡ status_of_called (called_if done reply.now) }
{
    if done { status_of(reply) } else { SPENT }
}

/// Shows the value of a reply, if it has one.
fn show_value(reply: &Reply, old: &mut Bytes)
    ensures { TellsValue reply.now old.old old.new }
{
    match reply {
        Reply::Value(value) => old.set(value.as_slice()),
        Reply::Exists(value) => old.set(value.as_slice()),
        Reply::Replaced(value) => old.set(value.as_slice()),
        Reply::Deleted(value) => old.set(value.as_slice()),
        Reply::Differs(value) => old.set(value.as_slice()),
        _ => {}
    }
}

/// Shows the pairs of a reply, if it is a page of either direction.
fn show_page(reply: &Reply, page: &mut Page)
    ensures { TellsPage reply.now page.old page.new }
{
    match reply {
        Reply::Page { items, next } => page.set(items, next),
        Reply::BackPage { items, next } => page.set(items, next),
        _ => {}
    }
}

/// Tells what became of a call whose reply has a value, or none.
pub(crate) fn tell_value(done: bool, reply: &Reply, old: &mut Bytes) -> u32
    ensures status { result ≡ status_of_called (called_if done reply.now) }
    ensures told { ShowsValueOf (called_if done reply.now) old.old old.new }
{
    if done {
        show_value(reply, old);
    }
    status_of_called(done, reply)
}

/// Tells what became of a call whose reply is a page of either direction.
pub(crate) fn tell_page(done: bool, reply: &Reply, page: &mut Page) -> u32
    ensures status { result ≡ status_of_called (called_if done reply.now) }
    ensures told { ShowsPageOf (called_if done reply.now) page.old page.new }
{
    if done {
        show_page(reply, page);
    }
    status_of_called(done, reply)
}
