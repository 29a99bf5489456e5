//! The base in the place of a page's chain.
ghost use Rattle.std.specs.Prelude.{◌≡◌, false};
ghost use Rattle.base_page.specs.Pages.{Page as PageSeen};
ghost use Rattle.deltas.specs.declared.record.Record.TheVariants.{Base};
ghost use Rattle.traces.specs.chain.Chains.{is_removed};
ghost use Rattle.structure_changes.specs.Bases.{IsBasePlan};
ghost use Rattle.structure_changes.specs.Plans.{over};
ghost use Rattle.structure_changes.specs.Reads.{IsReadPage};

use crate::{PageInHand, Plan};
use base_page::Page;
use deltas::Record;
use row_search::Rows;
use std::alloc::Allocator;

/// Plans the base that has what the page has, which isn't removed: in the room of a base that was planned there before, if one was.
#[inline(never)]
pub fn plan_base<R: Rows, A: Allocator>(
    page: &PageInHand<R, A>,
    rows: &R,
    pass: &mut R::Pass,
    plan: &mut Plan,
)
    requires read { IsReadPage (R.has rows.now pass.old) page.now }
    requires alive { is_removed page.now.chain ≡ false }
    ensures same { pass.new ≡ pass.old }
    ensures plan { (base : PageSeen) × IsBasePlan page.now base × (plan.new ≡ over page.now (Base base)) }
{
    if let Plan::Install { pid, head, content } = &mut *plan {
        *pid = page.pid();
        *head = page.head();
        return write_base(page, rows, pass, content);
    }
    plan_base_anew(page, rows, pass, plan);
}

/// Plans the base over whatever else was planned before. Not inlined: a record with room for any is made first.
#[inline(never)]
fn plan_base_anew<R: Rows, A: Allocator>(
    page: &PageInHand<R, A>,
    rows: &R,
    pass: &mut R::Pass,
    plan: &mut Plan,
)
    requires read { IsReadPage (R.has rows.now pass.old) page.now }
    requires alive { is_removed page.now.chain ≡ false }
    ensures same { pass.new ≡ pass.old }
    ensures plan { (base : PageSeen) × IsBasePlan page.now base × (plan.new ≡ over page.now (Base base)) }
{
    let mut content = Record::default();
    write_base(page, rows, pass, &mut content);
    *plan = Plan::over(page, content);
}

/// Makes of a record the base that has what the page has: of another base, where it lies.
fn write_base<R: Rows, A: Allocator>(
    page: &PageInHand<R, A>,
    rows: &R,
    pass: &mut R::Pass,
    content: &mut Record,
)
    requires read { IsReadPage (R.has rows.now pass.old) page.now }
    requires alive { is_removed page.now.chain ≡ false }
    ensures same { pass.new ≡ pass.old }
    ensures base { (base : PageSeen) × IsBasePlan page.now base × (content.new ≡ Base base) }
{
    if let Record::Base(base) = &mut *content {
        return fill_base(page, rows, pass, base);
    }
    write_base_anew(page, rows, pass, content);
}

/// Writes the base over whatever else is in the record's place. Not inlined: a page is made first.
#[inline(never)]
fn write_base_anew<R: Rows, A: Allocator>(
    page: &PageInHand<R, A>,
    rows: &R,
    pass: &mut R::Pass,
    content: &mut Record,
)
    requires read { IsReadPage (R.has rows.now pass.old) page.now }
    requires alive { is_removed page.now.chain ≡ false }
    ensures same { pass.new ≡ pass.old }
    ensures base { (base : PageSeen) × IsBasePlan page.now base × (content.new ≡ Base base) }
{
    let mut base = Page::empty_leaf();
    fill_base(page, rows, pass, &mut base);
    *content = Record::Base(base);
}

/// Makes of a page the base that has what the page in hand has.
fn fill_base<R: Rows, A: Allocator>(
    page: &PageInHand<R, A>,
    rows: &R,
    pass: &mut R::Pass,
    base: &mut Page,
)
    requires read { IsReadPage (R.has rows.now pass.old) page.now }
    requires alive { is_removed page.now.chain ≡ false }
    ensures same { pass.new ≡ pass.old }
    ensures plan { IsBasePlan page.now base.new }
{
    page.chain().consolidated(rows, pass, base);
}
