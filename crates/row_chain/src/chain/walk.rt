//! The walk from the newest record of a chain to the child of its greatest term that passes.
ghost use Rattle.std.specs.Prelude.{◌≡◌, ◌≤◌, ◌<◌, ◌-◌, ◌++◌, [], ◌∷◌, ℕ, Bool, List};
ghost use Rattle.std.specs.Prelude.{IsFalse, IsSome, IsTrue, MatchOption, ⊤, true, false, length, option_copied, slice_index_or};
ghost use Rattle.std.specs.List.{All};
ghost use Rattle.base_page.specs.declared.item.Item.{Item};
ghost use Rattle.base_page.specs.Pages.{AreItems};
ghost use Rattle.base_page.specs.Places.{IsAt, IsGreatest, IsGreatestChild, HasNoChild};
ghost use Rattle.bw_model.specs.Bytes.{is_under};
ghost use Rattle.traces.specs.chain.Chains.{content_in, high_in};
ghost use Rattle.traces.specs.chain.Fitted.{IsPageChain};
ghost use Rattle.row_search.specs.Items.{items_said};
ghost use Rattle.row_chain.specs.Walks.{is_above, is_left, is_taken, IsGreatestKey, PassesUpTo};
ghost use Rattle.row_chain.specs.Placed.{IsReadChain, contents};

use crate::Chain;
use row_search::{KeyWords, RowAt, Rows};
use std::alloc::Allocator;

impl<R: Rows, A: Allocator> Chain<R, A> {
    /// The child of the greatest term that is below the bound, or at it where it needn't be below, or none.
    pub(super) fn greatest_child(
        &self,
        rows: &R,
        pass: &mut R::Pass,
        bound: &KeyWords,
        below: bool,
    ) -> Option<u32>
        requires read { IsReadChain (R.has rows.now pass.old) self.now }
        ensures same { pass.new ≡ pass.old }
        ensures child { MatchOption result
            (HasNoChild (content_in self.now.records) (is_left below bound.now))
            (IsGreatestChild (content_in self.now.records) (is_left below bound.now)) }
    {
        self.was_read(rows, pass);
        self.keeps_rules();
        let records = self.as_read(rows, pass);
        if records.len() > 1 {
            return self.greatest_over_base(rows, pass, bound, below);
        }
        greatest_in_base(&records[0], rows, pass, bound, below)
    }

    /// The child of the greatest term that passes, of a chain that may have deltas. One pass, from the newest record on: each says at most one term that is
    /// above the best one so far and that no newer record names, and then it is the best. A term at the bound ends the pass. The last record's key is loaded
    /// only where a newer record may take keys away. Not inlined: most index pages have no delta, and need no room for keys.
    #[inline(never)]
    fn greatest_over_base(
        &self,
        rows: &R,
        pass: &mut R::Pass,
        bound: &KeyWords,
        below: bool,
    ) -> Option<u32>
        requires read { IsReadChain (R.has rows.now pass.old) self.now }
        ensures same { pass.new ≡ pass.old }
        ensures child { MatchOption result
            (HasNoChild (content_in self.now.records) (is_left below bound.now))
            (IsGreatestChild (content_in self.now.records) (is_left below bound.now)) }
    {
        self.was_read(rows, pass);
        self.keeps_rules();
        let records = self.as_read(rows, pass);
        let mut best = None;
        let mut child = None;
        for place in 0..records.len() {
            let row = &records[place];
            let (count, at_bound) = passing(row, rows, pass, bound, below);
            match winner(row, &records[..place], rows, pass, count, best.as_ref()) {
                None => {}
                Some(won) => {
                    child = row.child_at(rows, pass, won);
                    if is_last(at_bound, won, count) {
                        return child;
                    }
                    if place + 1 == records.len() {
                        return child;
                    }
                    best = Some(row.key_said(rows, pass, won));
                }
            }
        }
        child
    }
}

/// The child of the greatest of a page's items that passes, where its base has no delta over it, or none.
fn greatest_in_base<R: Rows>(
    base: &RowAt<R>,
    rows: &R,
    pass: &mut R::Pass,
    bound: &KeyWords,
    below: bool,
) -> Option<u32>
    requires here { R.has rows.now pass.old base.now.row base.now.content }
    requires alone { IsPageChain (base.now.content ∷ []) }
    ensures same { pass.new ≡ pass.old }
    ensures child { MatchOption result
        (HasNoChild (content_in (base.now.content ∷ [])) (is_left below bound.now))
        (IsGreatestChild (content_in (base.now.content ∷ [])) (is_left below bound.now)) }
{
    base.keeps_spelling();
    let (count, _) = passing(base, rows, pass, bound, below);
    if count == 0 {
        return None;
    }
    base.child_at(rows, pass, count - 1)
}

/// The child of the greatest of a page's items at or below the key, where its base has no delta over it and the page ends above the key. Where another
/// item is above the key the end is too, and isn't looked at.
#[inline(always)]
pub(super) fn inside_base<R: Rows>(
    base: &RowAt<R>,
    rows: &R,
    pass: &mut R::Pass,
    key: &KeyWords,
) -> Option<u32>
    requires here { R.has rows.now pass.old base.now.row base.now.content }
    requires alone { IsPageChain (base.now.content ∷ []) }
    ensures same { pass.new ≡ pass.old }
    ensures child { MatchOption result ⊤ (IsGreatestChild (content_in (base.now.content ∷ [])) (is_left false key.now)) }
    ensures ends { IsSome result → is_under key.now (high_in (base.now.content ∷ [])) ≡ true }
{
    base.keeps_spelling();
    let (count, _) = passing(base, rows, pass, key, false);
    if count == 0 {
        return None;
    }
    if count < base.item_count() {
        return base.child_at(rows, pass, count - 1);
    }
    if base.ends_after(rows, pass, key) {
        return base.child_at(rows, pass, count - 1);
    }
    None
}

/// How many of the items that the record says are there pass, and whether the last of those is at the bound.
fn passing<R: Rows>(
    row: &RowAt<R>,
    rows: &R,
    pass: &mut R::Pass,
    bound: &KeyWords,
    below: bool,
) -> (usize, bool)
    requires here { R.has rows.now pass.old row.now.row row.now.content }
    ensures same { pass.new ≡ pass.old }
    ensures passed { PassesUpTo (items_said row.now.content) (is_left below bound.now) result.0 }
    ensures items { AreItems (items_said row.now.content) }
    ensures at_bound { IsTrue result.1 → IsFalse below × IsAt (items_said row.now.content) bound.now (result.0 - 1) }
{
    match row.place_said(rows, pass, bound) {
        Ok(place) => {
            if below {
                return (place, false);
            }
            (place + 1, true)
        }
        Err(place) => (place, false),
    }
}

/// Whether the place is that of the last item that passes, which is at the bound.
fn is_last(at_bound: bool, place: usize, count: usize) -> bool
    requires { place < count }
    ensures last { IsTrue result → IsTrue at_bound × (place ≡ count - 1) }
{
    if at_bound {
        return place == count - 1;
    }
    false
}

/// The place of the greatest of the record's first items that no newer record names, where it is above the best key of the newer
/// records.
fn winner<R: Rows>(
    row: &RowAt<R>,
    newer: &[RowAt<R>],
    rows: &R,
    pass: &mut R::Pass,
    count: usize,
    best: Option<&KeyWords>,
) -> Option<usize>
    requires here { R.has rows.now pass.old row.now.row row.now.content }
    requires read { All (λ placed. R.has rows.now pass.old placed.row placed.content) newer.now }
    requires within { count ≤ length (items_said row.now.content) }
    ensures same { pass.new ≡ pass.old }
    ensures there { MatchOption result ⊤ (λ place. place < count) }
    ensures wins { (passes : List ℕ → Bool)
        → AreItems (items_said row.now.content)
        → PassesUpTo (items_said row.now.content) passes count
        → IsGreatestKey (content_in (contents newer.now)) passes (option_copied best.entry)
        → MatchOption result
        (IsGreatestKey (content_in (contents newer.now ++ row.now.content ∷ [])) passes (option_copied best.entry))
        (λ place. (d : Item) → IsGreatest (content_in (contents newer.now ++ row.now.content ∷ [])) passes
        (slice_index_or (items_said row.now.content) place d).key
        (slice_index_or (items_said row.now.content) place d).content) }
{
    row.keeps_spelling();
    for place in (0..count).rev() {
        if !is_above(row, place, rows, pass, best) {
            return None;
        }
        if !is_taken(row, place, newer, rows, pass) {
            return Some(place);
        }
    }
    None
}

/// Whether the key of the record's item is above the best one, as each is where there is none.
fn is_above<R: Rows>(
    row: &RowAt<R>,
    place: usize,
    rows: &R,
    pass: &mut R::Pass,
    best: Option<&KeyWords>,
) -> bool
    requires here { R.has rows.now pass.old row.now.row row.now.content }
    requires there { place < length (items_said row.now.content) }
    ensures same { pass.new ≡ pass.old }
    ensures above { (d : Item) → result ≡ is_above (option_copied best.entry) (slice_index_or (items_said row.now.content) place d).key }
{
    match best {
        None => true,
        Some(best) => row.compare_said(rows, pass, place, best).is_gt(),
    }
}

/// Whether a newer record takes the key of the record's item away. The key is loaded only where there is a record that may.
fn is_taken<R: Rows>(
    row: &RowAt<R>,
    place: usize,
    newer: &[RowAt<R>],
    rows: &R,
    pass: &mut R::Pass,
) -> bool
    requires here { R.has rows.now pass.old row.now.row row.now.content }
    requires there { place < length (items_said row.now.content) }
    requires read { All (λ placed. R.has rows.now pass.old placed.row placed.content) newer.now }
    ensures same { pass.new ≡ pass.old }
    ensures taken { (d : Item) → result ≡ is_taken (contents newer.now) (slice_index_or (items_said row.now.content) place d).key }
{
    if !any_may_take(newer) {
        return false;
    }
    let key = row.key_said(rows, pass, place);
    any_takes(newer, rows, pass, &key)
}

/// Whether one of the records may take keys away.
fn any_may_take<R: Rows>(newer: &[RowAt<R>]) -> bool
    ensures none { IsFalse result → (key : List ℕ) → is_taken (contents newer.now) key ≡ false }
{
    for newest in newer {
        if newest.may_take() {
            return true;
        }
    }
    false
}

/// Whether one of the records takes the key away.
fn any_takes<R: Rows>(newer: &[RowAt<R>], rows: &R, pass: &mut R::Pass, key: &KeyWords) -> bool
    requires read { All (λ placed. R.has rows.now pass.old placed.row placed.content) newer.now }
    ensures same { pass.new ≡ pass.old }
    ensures taken { result ≡ is_taken (contents newer.now) key.now }
{
    for newest in newer {
        if newest.takes(rows, pass, key) {
            return true;
        }
    }
    false
}
