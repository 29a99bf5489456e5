//! One level as it stands.
ghost use Rattle.std.specs.Prelude.{◌≡◌, ◌≤◌, ℕ, length, IfOk};
ghost use Rattle.core_memory.specs.Tables.{memory_in};
ghost use Rattle.tree_picture.specs.Levels.{first_child};
ghost use Rattle.tree_law.specs.LevelPages.{HasPagesOn};

use crate::page::{ScenePage, page_at};
use bw_model::Limits;
use core_memory::CoreTable;
use std::alloc::{AllocError, Allocator, Global};
use std::marker::Model;

/// The pages of a level, from left to right.
#[derive(Drop)]
pub struct Level<A: Allocator = Global> {
    pages: Vec<ScenePage<A>, A>,
}

impl<A: Allocator> Model for Level<A> {
    ghost use Rattle.std.specs.Prelude.{◌≤◌, length, List};
    ghost use Rattle.traces.specs.chain.SideChain.{LivePage};

    ghost Value = { List LivePage };

    ghost view = { λ l. l.pages.items };

    ghost invariant = { λ l. length l.pages.items ≤ 4194304 };
}

impl<A: Allocator> Level<A> {
    /// The pages.
    pub fn pages(&self) -> &[ScenePage<A>]
        ensures pages { result.now ≡ self.now }
        ensures few { length result.now ≤ 4194304 }
    {
        self.pages.as_slice()
    }

    /// The child of the first page's low key, or none.
    pub(crate) fn first_child(&self) -> Option<u32>
        ensures { result ≡ first_child self.now }
    {
        match self.pages.first() {
            Some(page) => page.low_child(),
            None => None,
        }
    }
}

/// The level from its first page on.
pub(crate) fn level_from<A: Allocator, B: Allocator + Copy>(
    alloc: B,
    limits: &Limits,
    table: &CoreTable<A>,
    first: u32,
) -> Result<Level<B>, AllocError>
    requires limits { table.now.limits ≡ limits.now }
    requires stands { (number : ℕ) × HasPagesOn limits.now (memory_in table.now) number first }
    ensures { IfOk result (λ level. (number : ℕ) (has : HasPagesOn limits.now (memory_in table.now) number first) → level ≡ has.pages) }
{
    let mut pages = Vec::new(alloc);
    let mut pid = first;
    for _ in 0..limits.pids {
        let page = page_at(alloc, table, pid)?;
        let right = page.right();
        pages.push(page)?;
        match right {
            Some(right) => pid = right,
            None => return Ok(Level { pages }),
        }
    }
    unreachable!()
}
