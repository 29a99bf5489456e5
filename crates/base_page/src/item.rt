//! One item of a page.
ghost use Rattle.std.specs.Prelude.{◌≡◌};

use bw_model::{Key, Value};
use std::alloc::AllocError;

/// What a page has at a key: a leaf a value, an index page a child (a term), which may be held.
#[derive(PartialEq, Eq, Drop)]
pub enum Content {
    /// The value of the key.
    Value(Value),
    /// The PID of the child whose keys begin at the key; a held term's page is about to be removed.
    Child { page: u32, held: bool },
}

/// A key and what a page has there.
#[derive(PartialEq, Eq, Drop)]
pub struct Item {
    pub key: Key,
    pub content: Content,
}

impl Content {
    /// A copy of the content; it allocates nothing.
    pub fn copied(&self) -> Content
        ensures { result ≡ self.now }
    {
        match self {
            Content::Value(value) => Content::Value(value.copied()),
            Content::Child { page, held } => Content::Child {
                page: *page,
                held: *held,
            },
        }
    }
}

impl Default for Content {
    /// What stands where nothing was written yet.
    fn default() -> Self {
        Content::Child {
            page: 0,
            held: false,
        }
    }
}

impl Clone for Content {
    ghost is_clone = { λ content other. other ≡ content };

    ghost is_infallible = { λ _. Unit {0} };

    fn clone(&self) -> Result<Self, AllocError> {
        Ok(self.copied())
    }
}

impl Item {
    /// A copy of the item; it allocates nothing.
    pub fn copied(&self) -> Item
        ensures { result ≡ self.now }
    {
        Item {
            key: self.key.copied(),
            content: self.content.copied(),
        }
    }
}

impl Default for Item {
    /// What stands where nothing was written yet.
    fn default() -> Self {
        Item {
            key: Key::default(),
            content: Content::default(),
        }
    }
}

impl Clone for Item {
    ghost is_clone = { λ item other. other ≡ item };

    ghost is_infallible = { λ _. Unit {0} };

    fn clone(&self) -> Result<Self, AllocError> {
        Ok(self.copied())
    }
}
