//! Why no step needs a lock, in words.
ghost use Rattle.std.specs.Prelude.{◌≡◌};
ghost use Rattle.tree_picture.specs.Reasons.{announce_reason, link_reason, presence_reason, reason_text, retiring_reason, row_reason, slot_reason, step_reason, taking_reason};

use crate::touches::last_entry;
use bw_model::{Answer, Link, Step};
use deltas::Record;
use step_core::{Core, Event};
use traces::Entry;

/// Why the last step of a core, which told the event, needed no lock.
pub fn lock_reason(core: &Core, event: &Event) -> &'static [u8]
    ensures { result.now ≡ reason_text core.now.entries event.now }
{
    if let Event::Stepped(Some(link)) = event {
        return link_reason(*link);
    }
    match last_entry(core.entries()) {
        Some(Entry::Step(_, step, answer, _)) => step_reason(&step, &answer),
        _ => b"",
    }
}

/// Of an exchange that was won, by what it linked.
fn link_reason(link: Link) -> &'static [u8]
    ensures { result.now ≡ link_reason link }
{
    match link {
        Link::Put | Link::Delete => {
            b"one compare-and-swap. Had another record been linked since the slot was read, it would be lost. The same row means the same record: none that was read here is used anew meanwhile."
        }
        Link::Base => {
            b"one compare-and-swap, lost if another record was linked since. The base has the items of the chain, and who started at an older record still reads the page as it was then."
        }
        Link::Split => {
            b"the new page stands already, and the split leads there: who finds no term for it in the page above goes by the side link."
        }
        Link::Term => {
            b"who read the page above before goes to the left page, and on by the side link, to the same items."
        }
        Link::Root => {
            b"the old root is the first child of the new one: who started there goes on by side links."
        }
        Link::Hold => {
            b"the page is still read and written, and by this term. While it is held, its left page is not removed: who would do so goes on without."
        }
        Link::Remove => {
            b"its records stay as they are, and who meets the removed page does not wait: a reader goes round by the left page or answers by what it has read, a writer merges the page first."
        }
        Link::Merge => {
            b"the removed page keeps its records, for whoever reads there. Who comes to it from now on finds it removed, and the items in the left page."
        }
        Link::Unterm => {
            b"the page above leads to the left page now. Who came by the old term finds the page removed, and goes round by the left page."
        }
        Link::Clear => {
            b"no term leads to this slot any more. Who comes by one that it read before finds the slot empty, and begins anew."
        }
        Link::Ready => b"nothing leads to the new page yet.",
        Link::Undo => b"nobody else has seen this page.",
    }
}

/// Of a step that isn't an exchange that was won.
fn step_reason(step: &Step<Record>, answer: &Answer<Record>) -> &'static [u8]
    ensures { result.now ≡ step_reason step.now answer.now }
{
    match step {
        Step::Slot(slot) => slot_reason(*slot),
        Step::Row(_) => row_reason(answer),
        Step::Epoch => {
            b"the epoch may grow as soon as it is read: who enters by an old one keeps more rows waiting, never fewer. Cells that are stamped with it wait for all who entered by it or before."
        }
        Step::Announce(_) => announce_reason(answer),
        Step::PidBits(_) | Step::RowBits(_) => {
            b"one load of one word, which only tells where to try. The taking decides."
        }
        Step::Place(_, _) => {
            b"nothing leads to this row now, so nobody else looks there while it is written."
        }
        Step::Exchange(_, _, _) => {
            b"another actor was faster, and has got on. Nothing has changed, so nothing has to be undone: this one begins anew with what stands there now."
        }
        Step::TakePid(_) | Step::TakeRow(_) => taking_reason(answer),
        Step::Enter(_) => {
            b"one store, which all can read: no row that this actor can reach is used anew from now on, until it leaves."
        }
        Step::Leave =>
            b"one store. From now on this actor keeps no row in the limbo of others. What waits in its own it frees in a later operation.",
        Step::Retire(_) => retiring_reason(answer),
        Step::ReusePids(_, _) | Step::ReuseRows(_, _) => {
            b"one atomic operation on one word. Since these were taken out, each other actor was seen outside or in an epoch later than theirs, so nobody can reach them."
        }
    }
}

/// Of a read of slot 0, which has the root, or of another one.
fn slot_reason(slot: u32) -> &'static [u8]
    ensures { result.now ≡ slot_reason slot }
{
    if slot == 0 {
        b"one load of one word. If a new root is put over this one, who goes by this one still gets to the same keys."
    } else {
        b"one load of one word. Who exchanges it later changes none of the records that are read from there."
    }
}

/// Of a read of a row.
fn row_reason(answer: &Answer<Record>) -> &'static [u8]
    ensures { result.now ≡ row_reason answer.now }
{
    match answer {
        Answer::Content(Record::Remove(_)) => {
            b"the page was removed, and its records stand as they were, for whoever still comes here."
        }
        _ => {
            b"a record that was linked never changes, in the tree or out of it, and its row is not used anew before this actor leaves."
        }
    }
}

/// Of a look for another actor, by whether that is outside.
fn announce_reason(answer: &Answer<Record>) -> &'static [u8]
    ensures { result.now ≡ announce_reason answer.now }
{
    match answer {
        Answer::Number(epoch) => presence_reason(*epoch),
        _ => b"",
    }
}

fn presence_reason(epoch: u64) -> &'static [u8]
    ensures { result.now ≡ presence_reason epoch }
{
    if epoch == 0 {
        b"that actor is outside. If it enters right after this look, it begins at the slots, which lead to nothing that was taken out before."
    } else {
        b"that actor is inside: what was taken out in its epoch or later waits in the limbo, and this actor goes on."
    }
}

fn taking_reason(answer: &Answer<Record>) -> &'static [u8]
    ensures { result.now ≡ taking_reason answer.now }
{
    match answer {
        Answer::Whether(true) => {
            b"one atomic operation on one word: of all who want this number exactly one gets it."
        }
        _ => b"another actor has this number, and the next one is tried.",
    }
}

fn retiring_reason(answer: &Answer<Record>) -> &'static [u8]
    ensures { result.now ≡ retiring_reason answer.now }
{
    match answer {
        Answer::Whether(true) => {
            b"one compare-and-swap. Who enters by the new epoch begins at the slots, which lead to nothing that was stamped with the old one."
        }
        _ => b"another actor has done the same.",
    }
}
