//! Thousands of rows in limbo, which another actor may hold at first: how many of them each sweep frees then.
ghost use Rattle.std.specs.Prelude.{◌<◌};
ghost use Rattle.sweep.specs.Kept.{IsLimboOf};

use crate::sweeps::told;
use bw_model::{Limits, Step};
use deltas::Record;
use epochs::{Item, Limbo};
use std::alloc::Global;
use sweep::Sweep;

/// How many words the rows are of.
const WORDS: usize = 157;

/// The rows that were freed.
#[derive(Drop)]
struct Freed {
    words: [u64; WORDS],
    rows: u32,
}

impl Freed {
    /// None.
    fn new() -> Freed {
        Freed {
            words: [0; WORDS],
            rows: 0,
        }
    }

    /// The rows that a step frees, if it frees any; whether none of them was freed before.
    fn add(&mut self, step: &Step<Record>) -> bool {
        let Step::ReuseRows(word, bits) = step else {
            return true;
        };
        let Some(freed) = self.words.get_mut(*word as usize) else {
            return false;
        };
        let new = *freed & *bits == 0;
        *freed |= *bits;
        self.rows = self.rows.saturating_add(bits.count_ones());
        new
    }
}

/// So many rows come into limbo, each of another word than the 156 before it; whether it accepts them all.
fn fills(limits: &Limits, limbo: &mut Limbo, rows: u32) -> bool
    requires { IsLimboOf limits.now limbo.old }
    ensures { IsLimboOf limits.now limbo.new }
{
    let _ = limits;
    for place in 0..rows {
        let row = Item::Row(place % 157 * 64 + place / 157);
        if !limbo.accepts(row) {
            return false;
        }
        limbo.unlinked(row);
    }
    true
}

/// A sweep of actor 0 beside one that announces this epoch, where it reads epoch 1: how many rows it frees. None where it frees one
/// that was freed before.
fn sweep(limits: &Limits, limbo: &mut Limbo, announced: u64, freed: &mut Freed) -> Option<u32>
    requires actor { 0 < limits.now.actors }
    requires lists { IsLimboOf limits.now limbo.old }
    ensures lists { IsLimboOf limits.now limbo.new }
{
    let before = freed.rows;
    let Some(mut sweep) = Sweep::begin(limits, 0, limbo) else {
        return Some(0);
    };
    for _ in 0..400 {
        let step = sweep.step();
        let new = freed.add(&step);
        let goes = sweep.next(limbo, told(1, &[0, announced], &step));
        if !new {
            return None;
        }
        if !goes {
            return Some(freed.rows.saturating_sub(before));
        }
    }
    None
}

/// How many sweeps free all rows, and how many of them the first of these frees.
#[derive(Clone, Copy, Debug, PartialEq, Eq)]
struct SweptRows {
    sweeps: u32,
    first: u32,
}

/// The sweeps that free so many rows. None where one is freed twice or too early.
fn sweeps(limits: &Limits, limbo: &mut Limbo, rows: u32) -> Option<SweptRows>
    requires actor { 0 < limits.now.actors }
    requires lists { IsLimboOf limits.now limbo.old }
{
    let mut freed = Freed::new();
    let filled = fills(limits, limbo, rows);
    for _ in 0..3 {
        if sweep(limits, limbo, 1, &mut freed) != Some(0) {
            return None;
        }
    }
    let Some(first) = sweep(limits, limbo, 2, &mut freed) else {
        return None;
    };
    for count in 1..200 {
        if limbo.is_empty() {
            return (filled && freed.rows == rows).then_some(SweptRows {
                sweeps: count,
                first,
            });
        }
        if sweep(limits, limbo, 2, &mut freed).is_none() {
            return None;
        }
    }
    None
}

/// What `sweeps` finds in a tree of two actors.
fn swept(alloc: Global, limits: &Limits, rows: u32) -> Option<SweptRows> {
    if limits.actors != 2 {
        return None;
    }
    match Limbo::new(alloc, limits) {
        Ok(mut limbo) => sweeps(limits, &mut limbo, rows),
        Err(_) => None,
    }
}

// Where another actor may hold them none is freed. A large tree's sweep frees 64 at most; a small one's frees all.
#[test]
fn large_trees_free_64_a_sweep(rt: HostRuntime) {
    let large = Limits::large(2, 64, 10048, 1).unwrap();
    let small = Limits::new(2, 64, 10048, 1).unwrap();
    let alloc = rt.alloc();
    let found = swept(alloc, &large, 10_000);
    let expected = SweptRows {
        sweeps: 157,
        first: 64,
    };
    assert!(rt; found == Some(expected), "large: {found:?}");
    let found = swept(alloc, &small, 1_000);
    let expected = SweptRows {
        sweeps: 1,
        first: 1_000,
    };
    assert!(rt; found == Some(expected), "small: {found:?}");
}
