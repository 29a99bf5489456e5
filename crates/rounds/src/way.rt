//! Which page a page leads to, on the way to a key, or to the left of a page, by the rows of its chain.
ghost use Rattle.std.specs.Prelude.{◌≡◌, ◌<◌, IsFalse, IsTrue, MatchOption, false, ⊤};
ghost use Rattle.bw_model.specs.Bytes.{is_below};
ghost use Rattle.traces.specs.chain.Chains.{high_in, level_in, low_in};
ghost use Rattle.row_chain.specs.Placed.{IsReadChain};
ghost use Rattle.round_model.specs.Ways.{LeadsDown, LeadsOn, LeadsRight, StaysLeft, passes};

use row_chain::Chain;
use row_search::{KeyWords, Rows};
use std::alloc::Allocator;

/// The page's right, where the page ends on the way.
pub(crate) fn right_on_way<R: Rows, A: Allocator>(
    chain: &Chain<R, A>,
    rows: &R,
    pass: &mut R::Pass,
    key: &KeyWords,
    below: bool,
) -> Option<u32>
    requires read { IsReadChain (R.has rows.now pass.old) chain.now }
    ensures looks { pass.new ≡ pass.old }
    ensures leads { MatchOption result (StaysLeft (passes below key.now) chain.now.records) (LeadsRight (passes below key.now) chain.now.records) }
{
    chain.was_read(rows, pass);
    chain.keeps_rules();
    if ends_on_way(chain, rows, pass, key, below) {
        return chain.right(rows, pass);
    }
    None
}

/// The child of the greatest term on the way, also where the page ends on it.
pub(crate) fn child_on_way<R: Rows, A: Allocator>(
    chain: &Chain<R, A>,
    rows: &R,
    pass: &mut R::Pass,
    key: &KeyWords,
    below: bool,
) -> u32
    requires read { IsReadChain (R.has rows.now pass.old) chain.now }
    requires index { 0 < level_in chain.now.records }
    requires reached { IsTrue (passes below key.now (low_in chain.now.records)) }
    ensures looks { pass.new ≡ pass.old }
    ensures leads { LeadsDown (passes below key.now) chain.now.records result }
{
    chain.was_read(rows, pass);
    chain.keeps_rules();
    if below {
        return match chain.child_below(rows, pass, key) {
            Some(child) => child,
            None => unreachable!(),
        };
    }
    match chain.child_of(rows, pass, key) {
        Some(child) => child,
        None => unreachable!(),
    }
}

/// The child of the greatest term on the way to the key, of an index page without deltas that ends beyond the way; none of another page. Inlined: most
/// pages that a round reads are such.
#[inline(always)]
pub(crate) fn child_inside<R: Rows, A: Allocator>(
    chain: &Chain<R, A>,
    rows: &R,
    pass: &mut R::Pass,
    key: &KeyWords,
) -> Option<u32>
    requires read { IsReadChain (R.has rows.now pass.old) chain.now }
    ensures looks { pass.new ≡ pass.old }
    ensures leads { MatchOption result ⊤ (λ child. (0 < level_in chain.now.records) × StaysLeft (passes false key.now) chain.now.records
        × LeadsDown (passes false key.now) chain.now.records child) }
{
    chain.was_read(rows, pass);
    chain.keeps_rules();
    chain.child_inside(rows, pass, key)
}

/// The page's right, where the page ends on the way; else the child of its greatest term there.
pub(crate) fn next_on_way<R: Rows, A: Allocator>(
    chain: &Chain<R, A>,
    rows: &R,
    pass: &mut R::Pass,
    key: &KeyWords,
    below: bool,
) -> u32
    requires read { IsReadChain (R.has rows.now pass.old) chain.now }
    requires index { 0 < level_in chain.now.records }
    requires reached { IsTrue (passes below key.now (low_in chain.now.records)) }
    ensures looks { pass.new ≡ pass.old }
    ensures leads { LeadsOn (passes below key.now) chain.now.records result }
{
    match right_on_way(chain, rows, pass, key, below) {
        Some(right) => right,
        None => child_on_way(chain, rows, pass, key, below),
    }
}

/// Whether the page ends on the way: at or below the way's key, or, to the left of a page, below it.
fn ends_on_way<R: Rows, A: Allocator>(
    chain: &Chain<R, A>,
    rows: &R,
    pass: &mut R::Pass,
    key: &KeyWords,
    below: bool,
) -> bool
    requires read { IsReadChain (R.has rows.now pass.old) chain.now }
    ensures looks { pass.new ≡ pass.old }
    ensures ends { MatchOption (high_in chain.now.records) (IsFalse result) (λ high. result ≡ passes below key.now high) }
{
    if below {
        return ends_below(chain, rows, pass, key);
    }
    !chain.ends_after(rows, pass, key)
}

/// Whether the page ends below the key. Not inlined: only a way to the left of a page asks for it.
#[inline(never)]
fn ends_below<R: Rows, A: Allocator>(
    chain: &Chain<R, A>,
    rows: &R,
    pass: &mut R::Pass,
    key: &KeyWords,
) -> bool
    requires read { IsReadChain (R.has rows.now pass.old) chain.now }
    ensures looks { pass.new ≡ pass.old }
    ensures ends { MatchOption (high_in chain.now.records) (IsFalse result) (λ high. result ≡ is_below high key.now) }
{
    match chain.high(rows, pass) {
        Some(high) => KeyWords::of(&high).compare(key).is_lt(),
        None => false,
    }
}
