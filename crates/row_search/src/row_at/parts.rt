//! What a record has, decoded from where it lies.
ghost use Rattle.std.specs.Prelude.{◌≡◌, ◌<◌, [], Some, length, option_map, slice_index_or};
ghost use Rattle.base_page.specs.declared.item.Item.{Item};
ghost use Rattle.base_page.specs.Pages.{Page as PageSeen, value_in};
ghost use Rattle.deltas.specs.declared.record.Record.TheVariants.{Base};
ghost use Rattle.record_slots.specs.Parts.{items_of, row_of};
ghost use Rattle.row_search.specs.Changes.{delete_of, put_of, split_of};

use crate::{RowAt, Rows, Text};
use base_page::{Content, Item, Page};
use bw_model::Key;
use deltas::{Delete, Put, Split};
use record_slots::{HELD, kinds};

impl<R: Rows> RowAt<R> {
    /// The put that it is; none of another record.
    pub fn put(&self, rows: &R, pass: &mut R::Pass) -> Option<Put>
        requires read { R.has rows.now pass.old self.now.row self.now.content }
        ensures same { pass.new ≡ pass.old }
        ensures put { result ≡ put_of self.now.content }
    {
        if self.kind() == kinds::PUT {
            let next = self.under(rows, pass);
            let lies = self.place(rows, pass);
            return put_from(next, self.item(rows, pass, lies, 0));
        }
        None
    }

    /// The delete that it is; none of another record.
    pub fn delete(&self, rows: &R, pass: &mut R::Pass) -> Option<Delete>
        requires read { R.has rows.now pass.old self.now.row self.now.content }
        ensures same { pass.new ≡ pass.old }
        ensures delete { result ≡ delete_of self.now.content }
    {
        if self.kind() == kinds::DELETE {
            let next = self.under(rows, pass);
            let key = self.first(rows, pass);
            return Some(Delete { next, key });
        }
        None
    }

    /// The split that it is; none of another record.
    pub fn split(&self, rows: &R, pass: &mut R::Pass) -> Option<Split>
        requires read { R.has rows.now pass.old self.now.row self.now.content }
        ensures same { pass.new ≡ pass.old }
        ensures split { result ≡ split_of self.now.content }
    {
        if self.kind() == kinds::SPLIT {
            return Some(Split {
                level: self.level(),
                next: self.under(rows, pass),
                separator: self.first(rows, pass),
                page: self.page(rows, pass),
            });
        }
        None
    }

    /// The row under it, or 0.
    fn under(&self, rows: &R, pass: &mut R::Pass) -> u32
        requires read { R.has rows.now pass.old self.now.row self.now.content }
        ensures same { pass.new ≡ pass.old }
        ensures under { result ≡ (row_of self.now.content).next }
    {
        self.keeps_spelling();
        self.word(rows, pass, 1) as u32
    }

    /// Makes the page that of a base, where it lies.
    #[inline(never)]
    pub fn base_in(&self, rows: &R, pass: &mut R::Pass, page: &mut Page)
        requires read { R.has rows.now pass.old self.now.row self.now.content }
        requires base { (row_of self.now.content).kind ≡ 1 }
        ensures same { pass.new ≡ pass.old }
        ensures page { Base page.new ≡ self.now.content }
    {
        self.keeps_spelling();
        let low = self.first(rows, pass);
        let high = self.second(rows, pass);
        let right = self.right(rows, pass);
        page.restart(self.level(), low, high, right);
        self.fill(rows, pass, page);
    }

    /// Adds its items to the page of its range.
    fn fill(&self, rows: &R, pass: &mut R::Pass, page: &mut Page)
        requires read { R.has rows.now pass.old self.now.row self.now.content }
        requires base { (row_of self.now.content).kind ≡ 1 }
        requires empty { (is : PageSeen) → self.now.content ≡ Base is → page.old ≡ record is { items = [] } }
        ensures same { pass.new ≡ pass.old }
        ensures page { Base page.new ≡ self.now.content }
    {
        self.keeps_spelling();
        let lies = self.place(rows, pass);
        for place in 0..self.item_count() {
            page.push(self.item(rows, pass, lies, place));
        }
    }

    /// The item at the place, of the record that lies there.
    #[inline(always)]
    fn item(&self, rows: &R, pass: &mut R::Pass, lies: R::Place, place: usize) -> Item
        requires read { R.lies rows.now pass.old lies self.now.content }
        requires there { place < length (items_of self.now.content) }
        ensures same { pass.new ≡ pass.old }
        ensures item { (d : Item) → result ≡ slice_index_or (items_of self.now.content) place d }
    {
        Item {
            key: self.item_key(rows, pass, lies, place),
            content: self.content_in(rows, pass, lies, place),
        }
    }

    /// The key of the item at the place, of the record that lies there.
    #[inline(always)]
    fn item_key(&self, rows: &R, pass: &mut R::Pass, lies: R::Place, place: usize) -> Key
        requires read { R.lies rows.now pass.old lies self.now.content }
        requires there { place < length (items_of self.now.content) }
        ensures same { pass.new ≡ pass.old }
        ensures key { (d : Item) → result ≡ (slice_index_or (items_of self.now.content) place d).key }
    {
        self.keeps_spelling();
        let text = Text::Key(place);
        let count = self.length(rows, pass, lies, text) % HELD;
        self.key(rows, pass, lies, text, count)
    }
}

/// The put of a leaf's item; none of a term.
fn put_from(next: u32, item: Item) -> Option<Put>
    ensures { result ≡ option_map (λ value. record { next = next; key = item.key; value = value }) (value_in (Some item.content)) }
{
    let Item { key, content } = item;
    match content {
        Content::Value(value) => Some(Put { next, key, value }),
        Content::Child { .. } => None,
    }
}
