//! The words of a text.
ghost use Rattle.std.specs.Prelude.{◌≡◌, []};
ghost use Rattle.tree_picture.specs.Adding.{Adds};

use arrayvec::ArrayVec;
use std::marker::Model;

/// How many bytes a text has at most.
pub const MAX_WORDS: usize = 160;

/// The bytes of a text. What has no room any more is left out.
#[derive(Drop)]
pub struct Words {
    bytes: ArrayVec<u8, MAX_WORDS>,
}

impl Model for Words {
    ghost use Rattle.std.specs.Prelude.{List, ℕ};

    ghost Value = { List ℕ };

    ghost view = { λ w. w.bytes.items };
}

impl Words {
    /// No words.
    pub fn new() -> Words
        ensures { result ≡ [] }
    {
        Words {
            bytes: ArrayVec::new(),
        }
    }

    /// The bytes.
    pub fn as_slice(&self) -> &[u8]
        ensures { result.now ≡ self.now }
    {
        self.bytes.as_slice()
    }

    /// Adds bytes behind the others, where all of them have room.
    pub fn add(&mut self, bytes: &[u8])
        ensures { Adds self.old self.new bytes.now }
    {
        // Bytes without room are refused as a whole, and the words stay as they were.
        let _ = self.bytes.try_extend_from_slice(bytes);
    }
}
