//! What the words of a command line ask for: a program, and how large its tree is.

ghost use Rattle.std.specs.Prelude.{◌↔◌, IfOk, IsOk};
ghost use Rattle.shell_options.specs.Settings.{AreLimitsOf, MayOpen};

use tree_limits::{BadLimits, Limits};

/// What the program is to do.
#[derive(Clone, Copy, Debug, PartialEq, Eq)]
pub enum Program {
    /// Runs commands, one after another.
    Script,
    /// Runs operations of several actors, turn by turn.
    Weave,
    /// Runs the lines of `Weave`, and draws the tree at the end of the input.
    Draw,
    /// Runs the lines of `Weave`, and draws the tree after each step.
    Film,
    /// Runs jobs on threads.
    Race,
}

/// How large the tree is.
#[derive(Clone, Copy, Debug, PartialEq, Eq)]
pub enum TreeSize {
    /// A small tree of so many page identifiers and rows.
    Small {
        pids: u64,
        rows: u64,
    },
    /// A large tree of so many page identifiers and rows.
    Large {
        pids: u64,
        rows: u64,
    },
    /// A small tree, of the limits that are proposed for so many different keys.
    ForKeys {
        keys: u64,
    },
    /// A large tree, of the limits that are proposed for so many different keys, where a key and a value have so many bytes at most.
    ForPairs {
        keys: u64,
        key_bytes: u64,
        value_bytes: u64,
    },
}

/// What the words of a command line ask for.
#[derive(Clone, Copy, Debug, PartialEq, Eq)]
pub struct Settings {
    pub program: Program,
    pub actors: u64,
    pub size: TreeSize,
    pub epoch: u64,
}

impl Settings {
    /// The limits of these settings, refused exactly where a number is outside its range.
    pub fn limits(&self) -> Result<Limits, BadLimits>
        ensures allowed { IsOk result ↔ MayOpen self.now }
        ensures limits { IfOk result (AreLimitsOf self.now) }
    {
        let actors = self.actors;
        match self.size {
            TreeSize::Small { pids, rows } => Limits::new(actors, pids, rows, self.epoch),
            TreeSize::Large { pids, rows } => Limits::large(actors, pids, rows, self.epoch),
            TreeSize::ForKeys { keys } => Limits::for_keys(actors, keys)?.opening_at(self.epoch),
            TreeSize::ForPairs {
                keys,
                key_bytes,
                value_bytes,
            } => Limits::for_pairs(actors, keys, key_bytes, value_bytes)?.opening_at(self.epoch),
        }
    }
}
