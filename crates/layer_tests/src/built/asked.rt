//! What tests ask of a page by hand.
ghost use Rattle.std.specs.Prelude.{◌≡◌, ◌≤◌, ◌∷◌, [], IsTrue, false, length};
ghost use Rattle.deltas.specs.declared.record.Record.TheVariants.{Base};
ghost use Rattle.traces.specs.chain.Chains.{covers, is_removed, level_in, low_in};
ghost use Rattle.traces.specs.chain.Fitted.{IsPageChain};

use crate::built::Held;
use crate::built::shelf::{HeldRows, Shelf};
use base_page::Page;
use bw_model::Key;
use row_search::KeyWords;
use std::process::Abort;

/// The lowest key that the page may have.
pub(crate) fn low<R: Abort + AllocGlobal>(rt: &R, page: &Held) -> Key
    ensures { result ≡ low_in page.now.chain }
{
    let mut shelf = Shelf::of_one(page);
    let read = shelf.read(rt, page);
    read.page.chain().low(&HeldRows::new(), &mut shelf)
}

/// Whether the page is a leaf that may have the key, with fewer than twelve deltas.
pub(crate) fn takes_delete<R: Abort + AllocGlobal>(rt: &R, page: &Held, key: &Key) -> bool
    ensures { IsTrue result → (level_in page.now.chain ≡ 0) × IsTrue (covers page.now.chain key.now) × (length page.now.chain ≤ 12) }
{
    let mut shelf = Shelf::of_one(page);
    let read = shelf.read(rt, page);
    let rows = HeldRows::new();
    let chain = read.page.chain();
    chain.was_read(&rows, &shelf);
    if chain.level() != 0 || chain.deltas() >= 12 {
        return false;
    }
    chain.covers(&rows, &mut shelf, &KeyWords::of(key))
}

/// The base that has what the page has.
pub(crate) fn consolidated<R: Abort + AllocGlobal>(rt: &R, page: &Held) -> Page
    requires alive { is_removed page.now.chain ≡ false }
    ensures alive { result.removed ≡ false }
    ensures stands { IsPageChain (Base result ∷ []) }
{
    let mut shelf = Shelf::of_one(page);
    let read = shelf.read(rt, page);
    let mut base = Page::empty_leaf();
    read.page
        .chain()
        .consolidated(&HeldRows::new(), &mut shelf, &mut base);
    base
}
