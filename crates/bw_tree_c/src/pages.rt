//! Pages of either direction, and operations that go on.
ghost use Rattle.std.specs.Prelude.{◌≡◌, ◌<◌, ◌≤◌, Some, length};
ghost use Rattle.bw_model.specs.declared.command.Command.TheVariants as command;
ghost use Rattle.bw_model.specs.declared.short_bytes.TheConstants.{MAX_LENGTH};
ghost use Rattle.bw_tree_c.specs.Calls.{ComesOn, ComesToPage};
ghost use Rattle.bw_tree_c.specs.Handles.{MayCall, MayCallOn};

use crate::c_types::{Bytes, Page};
use crate::handle::TreeHandle;
use crate::handle::shared::Shared;
use crate::receipt::{Receipt, Told};
use crate::statuses::{CLOSED, TOO_LONG};
use crate::taking::{Taken, finish, take};
use bw_model::{Command, Key};

impl TreeHandle {
    /// Runs a command whose reply is a page on a seat.
    fn page(&self, seat: u32, command: Command, page: &mut Page, since: Receipt) -> Told
        requires may { MayCallOn self.now.kept.value since }
        ensures called { ComesToPage self.now.kept.value seat command since result page.old page.new }
        ensures may { MayCallOn self.now.kept.value result.receipt }
    {
        match self.shared() {
            Some(shared) => page_in(shared, seat, command, page, since),
            None => self.refused(CLOSED, since),
        }
    }
}

/// Runs a command whose reply is a page on a seat of a handle.
fn page_in(shared: &Shared, seat: u32, command: Command, page: &mut Page, since: Receipt) -> Told
    requires { MayCall shared.now since }
    ensures called { ComesToPage (Some shared.now) seat command since result page.old page.new }
    ensures may { MayCall shared.now result.receipt }
{
    let Taken { hand, mut place } = match take(shared, seat, since) {
        Ok(taken) => taken,
        Err(told) => return told,
    };
    let status = place.page(command, page);
    finish(shared, seat, hand, place, status)
}

/// Goes on with the unfinished operation of a seat of a handle.
fn resume_in(
    shared: &Shared,
    seat: u32,
    budget: u32,
    old: &mut Bytes,
    page: &mut Page,
    since: Receipt,
) -> Told
    requires { MayCall shared.now since }
    ensures called { ComesOn (Some shared.now) seat budget since result old.old old.new page.old page.new }
    ensures may { MayCall shared.now result.receipt }
{
    let Taken { hand, mut place } = match take(shared, seat, since) {
        Ok(taken) => taken,
        Err(told) => return told,
    };
    let status = place.resume(budget, old, page);
    finish(shared, seat, hand, place, status)
}

/// The pairs of the leaf that has the key, from the key on.
#[unsafe(no_mangle)]
pub extern "C" fn bwtree_raw_page(
    tree: &TreeHandle,
    seat: u32,
    from: &[u8],
    page: &mut Page,
    since: Receipt,
) -> Told
    requires may { MayCallOn tree.now.kept.value since }
    ensures long { MAX_LENGTH < length from.now → (result.status ≡ TOO_LONG) × (page.new ≡ page.old) × (result.receipt ≡ since) }
    ensures called { length from.now ≤ MAX_LENGTH → ComesToPage tree.now.kept.value seat (command.Page from.now) since result page.old page.new }
    ensures may { MayCallOn tree.now.kept.value result.receipt }
{
    let Ok(from) = Key::from_slice(from) else {
        return tree.refused(TOO_LONG, since);
    };
    tree.page(seat, Command::Page(from), page, since)
}

/// The pairs of the leaf that has the key, up to the key, and the key at which the next page backward goes on.
#[unsafe(no_mangle)]
pub extern "C" fn bwtree_raw_back(
    tree: &TreeHandle,
    seat: u32,
    upto: &[u8],
    page: &mut Page,
    since: Receipt,
) -> Told
    requires may { MayCallOn tree.now.kept.value since }
    ensures long { MAX_LENGTH < length upto.now → (result.status ≡ TOO_LONG) × (page.new ≡ page.old) × (result.receipt ≡ since) }
    ensures called { length upto.now ≤ MAX_LENGTH → ComesToPage tree.now.kept.value seat (command.Back upto.now) since result page.old page.new }
    ensures may { MayCallOn tree.now.kept.value result.receipt }
{
    let Ok(upto) = Key::from_slice(upto) else {
        return tree.refused(TOO_LONG, since);
    };
    tree.page(seat, Command::Back(upto), page, since)
}

/// Goes on with a seat's unfinished operation.
#[unsafe(no_mangle)]
pub extern "C" fn bwtree_raw_resume(
    tree: &TreeHandle,
    seat: u32,
    budget: u32,
    old: &mut Bytes,
    page: &mut Page,
    since: Receipt,
) -> Told
    requires may { MayCallOn tree.now.kept.value since }
    ensures called { ComesOn tree.now.kept.value seat budget since result old.old old.new page.old page.new }
    ensures may { MayCallOn tree.now.kept.value result.receipt }
{
    match tree.shared() {
        Some(shared) => resume_in(shared, seat, budget, old, page, since),
        None => tree.refused(CLOSED, since),
    }
}
