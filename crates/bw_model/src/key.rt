//! Keys: short lists of bytes, in lexicographic order.
ghost use Rattle.std.specs.Prelude.{◌≡◌, ◌≤◌, ◌↔◌, List, ℕ, [], length, take, IsOk, IfOk};
ghost use Rattle.bw_model.specs.declared.short_bytes.TheConstants.{MAX_LENGTH};
ghost use Rattle.bw_model.specs.Bytes.{IsShort};
ghost use Rattle.bw_model.specs.NextKeys.{key_before};

use crate::short_bytes::{MAX_LENGTH, ShortBytes, TooLong};
use std::alloc::AllocError;
use std::marker::Model;

/// A key: at most 64 bytes, ordered as a list of unsigned bytes.
#[derive(Debug, PartialEq, Eq, PartialOrd, Ord, Drop)]
pub struct Key {
    bytes: ShortBytes<MAX_LENGTH>,
}

impl Model for Key {
    ghost use Rattle.std.specs.Prelude.{ℕ, List};
    ghost use Rattle.bw_model.specs.Bytes.{IsShort};

    ghost Value = { List ℕ };

    ghost view = { λ k. k.bytes };

    ghost invariant = { λ k. IsShort k.bytes };

    ghost inverse = { λ bytes. record { bytes = bytes } };
}

impl Key {
    /// The key of these bytes, refused exactly where there are more than 64.
    pub fn from_slice(bytes: &[u8]) -> Result<Key, TooLong>
        ensures fits { IsOk result ↔ (length bytes.now ≤ MAX_LENGTH) }
        ensures key { IfOk result (λ key. key ≡ bytes.now) }
    {
        Ok(Key {
            bytes: ShortBytes::from_slice(bytes)?,
        })
    }

    /// The first bytes of the array, so many.
    #[inline]
    pub fn first_of(bytes: &[u8; MAX_LENGTH], count: u8) -> Key
        requires { count ≤ MAX_LENGTH }
        ensures { result ≡ take count bytes.now }
    {
        Key {
            bytes: ShortBytes::first_of(bytes, count),
        }
    }

    /// The greatest key below this one, or none below the empty key: without the last byte, if that is 0; else with a last byte that is
    /// one less, and filled up with 255 to 64 bytes.
    pub fn before(&self) -> Option<Key>
        ensures { result ≡ key_before self.now }
    {
        let (last, front) = self.as_slice().split_last()?;
        let mut bytes = [255; MAX_LENGTH];
        bytes[..front.len()].copy_from_slice(front);
        if *last == 0 {
            return Some(Key::first_of(&bytes, front.len() as u8));
        }
        bytes[front.len()] = *last - 1;
        Some(Key::first_of(&bytes, MAX_LENGTH as u8))
    }

    /// A key is short, as its type keeps it; for proofs, to which a reference does not say so.
    #[inline]
    pub fn keeps_short(&self)
        ensures { IsShort self.now }
    {
        let _ = &self.bytes;
    }

    /// The bytes.
    pub fn as_slice(&self) -> &[u8]
        ensures bytes { result.now ≡ self.now }
        ensures fits { length result.now ≤ MAX_LENGTH }
    {
        self.bytes.as_slice()
    }

    /// A copy of the key; it allocates nothing.
    pub fn copied(&self) -> Key
        ensures { result ≡ self.now }
    {
        Key {
            bytes: self.bytes.copied(),
        }
    }
}

impl Default for Key {
    ghost is_default = { λ key. key ≡ [] };

    /// The empty key, which is the lowest one.
    fn default() -> Self {
        Key {
            bytes: ShortBytes::default(),
        }
    }
}

impl Clone for Key {
    ghost is_clone = { λ key other. other ≡ key };

    ghost is_infallible = { λ _. Unit {0} };

    fn clone(&self) -> Result<Self, AllocError> {
        Ok(self.copied())
    }
}
