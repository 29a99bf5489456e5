//! Which terms of a page are held.
ghost use Rattle.std.specs.Prelude.{◌≡◌, Some};
ghost use Rattle.std.specs.Bool.{Decides};
ghost use Rattle.base_page.specs.declared.item.Content.TheVariants.{Child};
ghost use Rattle.traces.specs.chain.Chains.{content_in, low_in};
ghost use Rattle.row_chain.specs.Placed.{IsReadChain};
ghost use Rattle.structure_changes.specs.Reads.{IsReadPage};
ghost use Rattle.structure_changes.specs.Sizes.{HasNoneHeld};

use crate::PageInHand;
use base_page::{Content, held_count};
use row_chain::Chain;
use row_search::{KeyWords, Rows};
use std::alloc::Allocator;

/// Whether the parent has the page's term, held or not as said.
pub(crate) fn has_term<R: Rows, A: Allocator>(
    parent: &PageInHand<R, A>,
    page: &PageInHand<R, A>,
    rows: &R,
    pass: &mut R::Pass,
    held: bool,
) -> bool
    requires parent { IsReadPage (R.has rows.now pass.old) parent.now }
    requires page { IsReadPage (R.has rows.now pass.old) page.now }
    ensures same { pass.new ≡ pass.old }
    ensures has { Decides result (content_in parent.now.chain (low_in page.now.chain) ≡ Some (Child page.now.pid held)) }
{
    let low = page.chain().low(rows, pass);
    let key = KeyWords::of(&low);
    match parent.chain().content(rows, pass, &key) {
        Some(
            Content::Child {
                page: child,
                held: mark,
            },
        ) => child == page.pid() && mark == held,
        _ => false,
    }
}

/// Whether no term of the page is held; on a leaf there is none.
#[inline(never)]
pub(crate) fn is_unheld<R: Rows, A: Allocator>(
    chain: &Chain<R, A>,
    rows: &R,
    pass: &mut R::Pass,
) -> bool
    requires read { IsReadChain (R.has rows.now pass.old) chain.now }
    ensures same { pass.new ≡ pass.old }
    ensures unheld { Decides result (HasNoneHeld chain.now.records) }
{
    chain.was_read(rows, pass);
    chain.keeps_rules();
    if chain.level() == 0 {
        return true;
    }
    let made = chain.page(rows, pass);
    held_count(made.items().as_slice()) == 0
}
