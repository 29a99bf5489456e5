//! What is kept in limbo, and how it leaves it.

/// What can be taken out of the tree.
#[derive(Clone, Copy)]
pub enum Item {
    /// A row, by its number.
    Row(u32),
    /// A page identifier.
    Pid(u32),
}

/// What one step frees: the place of a word of free bits, and the bits to set there. Number n is bit n % 64 of word n / 64.
#[derive(Clone, Copy, PartialEq, Eq)]
pub enum Reuse {
    /// Rows.
    Rows(u32, u64),
    /// PIDs.
    Pids(u32, u64),
}
