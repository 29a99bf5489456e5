//! What a record makes of the page under it.
ghost use Rattle.std.specs.Prelude.{◌≡◌, false};
ghost use Rattle.base_page.specs.Pages.{IsPage};
ghost use Rattle.deltas.specs.Applies.{Applies};
ghost use Rattle.deltas.specs.Fits.{FitsOnPage, FitsPut, FitsDelete, FitsSplit, FitsTerm, FitsHold, FitsRemove, FitsMerge, FitsUnterm};
ghost use Rattle.deltas.specs.declared.record.Record.TheVariants as kind;

use crate::{Delete, Hold, Merge, Put, Record, Remove, Split, Term, Unterm};
use base_page::{Content, Page};

/// Makes of the page what the record makes of it; a base makes its own.
pub fn apply(page: &mut Page, change: &Record)
    requires { FitsOnPage page.old change.now }
    ensures applies { Applies page.old change.now page.new }
    ensures page { IsPage page.new }
{
    match change {
        Record::Base(base) => stand(base, page),
        Record::Put(put) => put.apply(page),
        Record::Delete(delete) => delete.apply(page),
        Record::Split(split) => split.apply(page),
        Record::Term(term) => term.apply(page),
        Record::Hold(hold) => hold.apply(page),
        Record::Remove(remove) => remove.apply(page),
        Record::Merge(merge) => merge.apply(page),
        Record::Unterm(unterm) => unterm.apply(page),
    }
}

/// Puts a base in the page's place.
#[inline(never)]
fn stand(base: &Page, page: &mut Page)
    requires { base.now.removed ≡ false }
    ensures applies { Applies page.old (kind.Base base.now) page.new }
    ensures page { IsPage page.new }
{
    base.keeps_rules();
    *page = base.copied();
}

impl Put {
    /// Gives the key its value.
    pub fn apply(&self, page: &mut Page)
        requires { FitsPut page.old self.now }
        ensures applies { Applies page.old (kind.Put self.now) page.new }
        ensures page { IsPage page.new }
    {
        page.put(self.key.copied(), Content::Value(self.value.copied()));
    }
}

impl Delete {
    /// Takes the key's value away.
    pub fn apply(&self, page: &mut Page)
        requires { FitsDelete page.old self.now }
        ensures applies { Applies page.old (kind.Delete self.now) page.new }
        ensures page { IsPage page.new }
    {
        page.delete(&self.key);
    }
}

impl Split {
    /// Ends the page at the separator.
    pub fn apply(&self, page: &mut Page)
        requires { FitsSplit page.old self.now }
        ensures applies { Applies page.old (kind.Split self.now) page.new }
        ensures page { IsPage page.new }
    {
        page.end_at(self.separator.copied(), self.page);
    }
}

impl Term {
    fn apply(&self, page: &mut Page)
        requires { FitsTerm page.old self.now }
        ensures applies { Applies page.old (kind.Term self.now) page.new }
        ensures page { IsPage page.new }
    {
        let content = Content::Child {
            page: self.child,
            held: false,
        };
        page.put(self.separator.copied(), content);
    }
}

impl Hold {
    fn apply(&self, page: &mut Page)
        requires { FitsHold page.old self.now }
        ensures applies { Applies page.old (kind.Hold self.now) page.new }
        ensures page { IsPage page.new }
    {
        page.hold(&self.separator);
    }
}

impl Remove {
    fn apply(&self, page: &mut Page)
        requires { FitsRemove page.old self.now }
        ensures applies { Applies page.old (kind.Remove self.now) page.new }
        ensures page { IsPage page.new }
    {
        page.remove();
    }
}

impl Merge {
    #[inline(never)]
    fn apply(&self, page: &mut Page)
        requires { FitsMerge page.old self.now }
        ensures applies { Applies page.old (kind.Merge self.now) page.new }
        ensures page { IsPage page.new }
    {
        page.join(&self.merged());
    }

    /// The page that is merged, as its left page copied it.
    fn merged(&self) -> Page
        requires { IsPage (record { level = self.now.level; low = self.now.low; high = self.now.high; right = self.now.right; removed = false; items = self.now.items }) }
        ensures { result ≡ record { level = self.now.level; low = self.now.low; high = self.now.high; right = self.now.right; removed = false; items = self.now.items } }
    {
        let high = match &self.high {
            None => None,
            Some(high) => Some(high.copied()),
        };
        Page::new(
            self.level,
            self.low.copied(),
            high,
            self.right,
            self.items.copied(),
        )
    }
}

impl Unterm {
    fn apply(&self, page: &mut Page)
        requires { FitsUnterm page.old self.now }
        ensures applies { Applies page.old (kind.Unterm self.now) page.new }
        ensures page { IsPage page.new }
    {
        page.delete(&self.separator);
    }
}
