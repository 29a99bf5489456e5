//! A whole tree as it stands.
ghost use Rattle.std.specs.Prelude.{◌≡◌, ◌≤◌, length, IfOk};
ghost use Rattle.core_memory.specs.Tables.{memory_in};
ghost use Rattle.tree_picture.specs.Levels.{AreLevels};
ghost use Rattle.tree_picture.specs.Scenes.{IsSceneOf};
ghost use Rattle.tree_law.specs.LevelPages.{HasAllLevels};

use crate::counts::{free_pids, free_rows};
use crate::level::{Level, level_from};
use crate::slots::{Slot, slots_of};
use bw_model::Limits;
use core_memory::CoreTable;
use std::alloc::{AllocError, Allocator, Global};
use std::marker::Model;

/// How many levels a tree has at most.
const MANY_LEVELS: u32 = 16;

/// What stands in a tree.
#[derive(Drop)]
pub struct Scene<A: Allocator = Global> {
    root: u32,
    slots: Vec<Slot, A>,
    levels: Vec<Level<A>, A>,
    free_pids: u64,
    free_rows: u64,
    epoch: u64,
}

impl<A: Allocator> Model for Scene<A> {
    ghost use Rattle.std.specs.Prelude.{◌≤◌, length};
    ghost use Rattle.tree_picture.specs.Scenes.{Scene};

    ghost Value = { Scene };

    ghost view = { λ s. record { root = s.root; slots = s.slots.items; levels = s.levels.items; free_pids = s.free_pids; free_rows = s.free_rows; epoch = s.epoch } };

    ghost invariant = { λ s. length s.levels.items ≤ 16 };
}

impl<A: Allocator + Copy> Scene<A> {
    /// What stands in a table, all levels of which stand; refused for want of memory alone.
    pub fn of<B: Allocator>(
        alloc: A,
        limits: &Limits,
        table: &CoreTable<B>,
    ) -> Result<Scene<A>, AllocError>
        requires limits { limits.now ≡ table.now.limits }
        requires stands { HasAllLevels limits.now (memory_in table.now) }
        ensures { IfOk result (λ scene. IsSceneOf limits.now (memory_in table.now) scene) }
    {
        let levels = levels_of(alloc, limits, table)?;
        Ok(Scene {
            root: table.slot(0),
            slots: slots_of(alloc, table, limits.pids)?,
            levels,
            free_pids: free_pids(table, limits.pids),
            free_rows: free_rows(table, limits.rows),
            epoch: table.epoch(),
        })
    }
}

impl<A: Allocator> Scene<A> {
    /// The PID in slot 0.
    pub fn root(&self) -> u32
        ensures { result ≡ self.now.root }
    {
        self.root
    }

    /// The slots that aren't 0.
    pub fn slots(&self) -> &[Slot]
        ensures { result.now ≡ self.now.slots }
    {
        self.slots.as_slice()
    }

    /// The levels, the root's first.
    pub fn levels(&self) -> &[Level<A>]
        ensures levels { result.now ≡ self.now.levels }
        ensures few { length result.now ≤ 16 }
    {
        self.levels.as_slice()
    }

    /// How many PIDs are free.
    pub fn free_pids(&self) -> u64
        ensures { result ≡ self.now.free_pids }
    {
        self.free_pids
    }

    /// How many rows are free.
    pub fn free_rows(&self) -> u64
        ensures { result ≡ self.now.free_rows }
    {
        self.free_rows
    }

    /// The epoch.
    pub fn epoch(&self) -> u64
        ensures { result ≡ self.now.epoch }
    {
        self.epoch
    }
}

/// The levels of a table, the root's first.
fn levels_of<A: Allocator, B: Allocator + Copy>(
    alloc: B,
    limits: &Limits,
    table: &CoreTable<A>,
) -> Result<Vec<Level<B>, B>, AllocError>
    requires limits { table.now.limits ≡ limits.now }
    requires stands { HasAllLevels limits.now (memory_in table.now) }
    ensures are { IfOk result (λ levels. AreLevels (memory_in table.now) levels.items) }
    ensures few { IfOk result (λ levels. length levels.items ≤ 16) }
{
    let mut levels = Vec::new(alloc);
    let mut pid = table.slot(0);
    for _ in 0..MANY_LEVELS {
        let level = level_from(alloc, limits, table, pid)?;
        let child = level.first_child();
        levels.push(level)?;
        match child {
            Some(child) => pid = child,
            None => return Ok(levels),
        }
    }
    unreachable!()
}
