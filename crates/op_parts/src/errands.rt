//! What an operation is still to visit for the splits that it has linked.
ghost use Rattle.std.specs.Prelude.{◌≡◌, ◌≤◌, ◌-◌, [], length, option_copied, slice_get, take};
ghost use Rattle.op_parts.specs.Errands.{with_errand};

use arrayvec::ArrayVec;
use bw_model::Key;
use std::marker::Model;

/// How many errands an operation keeps at most; one more is left out, and another writer posts the term.
pub const MAX_ERRANDS: usize = 16;

/// The separators of the splits that an operation has linked, and has not looked for since, the newest last: on the way to one
/// its term is posted.
#[derive(Drop)]
pub struct Errands {
    keys: ArrayVec<Key, MAX_ERRANDS>,
}

impl Model for Errands {
    ghost use Rattle.std.specs.Prelude.{List, ℕ};

    ghost Value = { List (List ℕ) };

    ghost view = { λ e. e.keys.items };
}

impl Errands {
    /// No errands.
    pub fn new() -> Errands
        ensures { result ≡ [] }
    {
        Errands {
            keys: ArrayVec::new(),
        }
    }

    /// All of them, the newest last: at most `MAX_ERRANDS`.
    pub fn keys(&self) -> &[Key]
        ensures keys { result.now ≡ self.now }
        ensures few { length self.now ≤ 16 }
    {
        self.keys.as_slice()
    }

    /// The newest one.
    pub fn newest(&self) -> Option<&Key>
        ensures { option_copied result ≡ slice_get self.now (length self.now - 1) }
    {
        self.keys.as_slice().last()
    }

    /// Adds one, if there is room.
    pub fn add(&mut self, key: Key)
        ensures { self.new ≡ with_errand key self.old }
    {
        if self.keys.len() < MAX_ERRANDS {
            self.keys.push(key);
        }
    }

    /// Takes all off.
    pub fn clear(&mut self)
        ensures { self.new ≡ [] }
    {
        self.keys.clear();
    }

    /// Takes the newest one off.
    pub fn finish(&mut self)
        ensures { self.new ≡ take (length self.old - 1) self.old }
    {
        let _ = self.keys.pop();
    }
}
