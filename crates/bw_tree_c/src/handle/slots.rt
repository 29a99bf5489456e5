//! The slots of a handle: what is in them, and what may be put back.

use crate::closing::whole::Whole;
use crate::place::Place;
use bw_model::{Key, Value};
use call_log::{Course, Hand, LogTable};

/// What is in a slot.
#[derive(Drop)]
pub enum Inside {
    /// Nothing: so it is in the last slot while the tree is open, and in any while a call uses what was there.
    Nothing,
    /// A seat that no call uses.
    Seat(Box<Place>),
    /// The pairs of a closed tree, which wait.
    Pairs(Vec<(Key, Value)>),
    /// A closed tree whose pairs aren't listed yet.
    Whole(Box<Whole>),
}

/// How a call leaves a slot.
pub struct Going;

impl Course<Inside> for Going {
    ghost use Rattle.bw_tree_c.specs.Slots.{IsPutBack};

    ghost ends = { IsPutBack };
}

/// The slots of a handle, and its log.
pub type SlotTable = LogTable<Inside, Going>;

/// What has seen the log of a handle, and may have slots out. It takes no memory.
pub type SeatHand = Hand<Inside>;
