//! The pairs of keys and values that a cursor page shows.
ghost use Rattle.std.specs.Prelude.{◌≡◌, ◌+◌, ◌++◌, ◌∷◌, ◌<◌, ◌≤◌, [], length, take};
ghost use Rattle.bw_model.specs.declared.pairs.TheConstants.{MAX_PAIRS};

use crate::{Key, Value};
use arrayvec::ArrayVec;
use std::alloc::AllocError;
use std::marker::Model;

/// How many pairs a cursor page has at most: as many as a leaf has items.
pub const MAX_PAIRS: usize = 24;

/// At most 24 pairs of a key and its value.
#[derive(Debug, PartialEq, Eq, Drop)]
pub struct Pairs {
    pairs: ArrayVec<(Key, Value), MAX_PAIRS>,
}

impl Model for Pairs {
    ghost use Rattle.std.specs.Prelude.{ℕ, ◌≤◌, List, length};

    ghost Value = { List (List ℕ × List ℕ) };

    ghost view = { λ p. p.pairs.items };

    ghost inverse = { λ pairs. record { pairs = record { items = pairs } } };
}

impl Pairs {
    /// No pairs.
    pub fn new() -> Pairs
        ensures { result ≡ [] }
    {
        Pairs {
            pairs: ArrayVec::new(),
        }
    }

    /// Adds a pair at the end.
    pub fn push(&mut self, key: Key, value: Value)
        requires { length self.old < MAX_PAIRS }
        ensures { self.new ≡ self.old ++ (key, value) ∷ [] }
    {
        self.pairs.push((key, value));
    }

    /// The pairs in order.
    pub fn as_slice(&self) -> &[(Key, Value)]
        ensures pairs { result.now ≡ self.now }
        ensures few { length result.now ≤ MAX_PAIRS }
    {
        self.pairs.as_slice()
    }

    /// The pair at the place from now on; at the end it is added.
    pub fn put(&mut self, place: usize, key: Key, value: Value)
        requires place { place ≤ length self.old }
        requires room { place < MAX_PAIRS }
        ensures front { take (place + 1) self.new ≡ take place self.old ++ (key, value) ∷ [] }
        ensures there { place < length self.new }
    {
        if place < self.pairs.len() {
            self.pairs[place] = (key, value);
            return;
        }
        self.pairs.push((key, value));
    }

    /// Keeps the pairs before the place.
    pub fn truncate(&mut self, place: usize)
        ensures { self.new ≡ take place self.old }
    {
        self.pairs.truncate(place);
    }

    /// A copy of the pairs; it allocates nothing.
    pub fn copied(&self) -> Pairs
        ensures { result ≡ self.now }
    {
        let mut pairs = Pairs::new();
        for (key, value) in self.as_slice() {
            pairs.push(key.copied(), value.copied());
        }
        pairs
    }
}

impl Default for Pairs {
    ghost is_default = { λ pairs. pairs ≡ [] };

    /// No pairs.
    fn default() -> Self {
        Pairs::new()
    }
}

impl Clone for Pairs {
    ghost is_clone = { λ pairs other. other ≡ pairs };

    ghost is_infallible = { λ _. Unit {0} };

    fn clone(&self) -> Result<Self, AllocError> {
        Ok(self.copied())
    }
}
