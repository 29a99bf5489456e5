//! The end of a merged page's term.
ghost use Rattle.std.specs.Prelude.{◌≡◌, MatchOption, IfSome, IsFalse};
ghost use Rattle.std.specs.Bool.{Decides};
ghost use Rattle.bw_model.specs.Bytes.{is_below};
ghost use Rattle.traces.specs.chain.Chains.{high_in};
ghost use Rattle.row_chain.specs.Placed.{IsReadChain};
ghost use Rattle.structure_changes.specs.Reads.{IsReadPage};
ghost use Rattle.structure_changes.specs.Unterms.{CanUnterm, IsUntermPlan};

use crate::PageInHand;
use crate::held::has_term;
use crate::neighbours::is_next_to;
use crate::sizes::MANY_DELTAS;
use bw_model::Key;
use deltas::Unterm;
use row_chain::Chain;
use row_search::Rows;
use std::alloc::Allocator;

/// The unterm of the removed page in the parent; none exactly where the left page is removed, doesn't begin below the removed page's
/// low key and end at or above it or nowhere, or has the removed page next to it; or the parent is removed, hasn't the term held, or
/// has many deltas; or the removed page isn't removed.
pub fn plan_unterm<R: Rows, A: Allocator>(
    parent: &PageInHand<R, A>,
    left: &PageInHand<R, A>,
    removed: &PageInHand<R, A>,
    rows: &R,
    pass: &mut R::Pass,
) -> Option<Unterm>
    requires parent { IsReadPage (R.has rows.now pass.old) parent.now }
    requires left { IsReadPage (R.has rows.now pass.old) left.now }
    requires removed { IsReadPage (R.has rows.now pass.old) removed.now }
    ensures same { pass.new ≡ pass.old }
    ensures plan { MatchOption result (¬ CanUnterm parent.now left.now removed.now) (IsUntermPlan parent.now left.now removed.now) }
{
    let above = parent.chain();
    let chain = left.chain();
    let gone = removed.chain();
    above.was_read(rows, pass);
    chain.was_read(rows, pass);
    gone.was_read(rows, pass);
    above.keeps_rules();
    let low = gone.low(rows, pass);
    if above.is_removed() {
        return None;
    }
    if chain.is_removed() || !gone.is_removed() {
        return None;
    }
    if !chain.low(rows, pass).cmp(&low).is_lt() {
        return None;
    }
    if !reaches(chain, rows, pass, &low) {
        return None;
    }
    if is_next_to(left, removed, rows, pass) {
        return None;
    }
    if !has_term(parent, removed, rows, pass, true) {
        return None;
    }
    if above.deltas() >= MANY_DELTAS {
        return None;
    }
    Some(Unterm {
        level: above.level(),
        next: parent.head(),
        separator: low,
        child: removed.pid(),
    })
}

/// Whether the page ends at or above the key, or nowhere.
fn reaches<R: Rows, A: Allocator>(
    chain: &Chain<R, A>,
    rows: &R,
    pass: &mut R::Pass,
    key: &Key,
) -> bool
    requires read { IsReadChain (R.has rows.now pass.old) chain.now }
    ensures same { pass.new ≡ pass.old }
    ensures reaches { Decides result (IfSome (high_in chain.now.records) (λ high. IsFalse (is_below high key.now))) }
{
    match chain.high(rows, pass) {
        None => true,
        Some(high) => !high.cmp(key).is_lt(),
    }
}
