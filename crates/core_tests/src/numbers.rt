//! Where each row, or each PID, is.

/// More rows than the trees of these tests have, and more PIDs.
pub(crate) const MOST: u32 = 16384;

/// What is true of a row or a PID.
#[derive(Clone, Copy, PartialEq, Eq)]
pub(crate) enum Status {
    Free,
    /// An actor took it, and has not linked it.
    Spare,
    Linked,
    /// An actor took it out of the tree.
    Limbo,
}

/// Each row, or each PID, by its number. 0 is none of them, and counts as linked.
#[derive(Drop)]
pub(crate) struct Numbers {
    statuses: [Status; MOST as usize],
}

impl Numbers {
    /// Of a tree that opens: 1 is linked, what is above is free.
    pub(crate) fn new() -> Numbers {
        let mut statuses = [Status::Free; MOST as usize];
        statuses[0] = Status::Linked;
        statuses[1] = Status::Linked;
        Numbers { statuses }
    }

    pub(crate) fn is_at(&self, number: u32, status: Status) -> bool {
        self.statuses[(number % MOST) as usize] == status
    }

    /// Moves a number from one status to another, if it has the first.
    pub(crate) fn moves(&mut self, number: u32, from: Status, to: Status) -> bool {
        let status = &mut self.statuses[(number % MOST) as usize];
        let is_there = *status == from;
        if is_there {
            *status = to;
        }
        is_there
    }

    /// Frees the numbers of a word's bits, if all of them are in limbo.
    pub(crate) fn frees(&mut self, word: u32, bits: u64) -> bool {
        for bit in 0..64u32 {
            let number = word.wrapping_mul(64).wrapping_add(bit);
            let is_freed = bits >> (bit % 64) & 1 == 1;
            if is_freed && !self.moves(number, Status::Limbo, Status::Free) {
                return false;
            }
        }
        true
    }

    /// How many are linked, without 0, and how many are in limbo.
    pub(crate) fn linked_and_in_limbo(&self) -> (u32, u32) {
        let (mut linked, mut limbo) = (0u32, 0u32);
        for status in &self.statuses {
            match status {
                Status::Linked => linked = linked.wrapping_add(1),
                Status::Limbo => limbo = limbo.wrapping_add(1),
                _ => {}
            }
        }
        (linked.wrapping_sub(1), limbo)
    }
}
