//! Short lists of bytes, which keys and values are made of.
ghost use Rattle.std.specs.Prelude.{◌≡◌, ◌≤◌, ◌↔◌, [], length, take, Some, IsOk, IfOk, nat_eq, refl};
ghost use Rattle.std.specs.Ordering.{nat_cmp};
ghost use Rattle.std.specs.Cmp.{partial_equiv_from_equiv};
ghost use Rattle.std.specs.Cmp.Lexicographic.{pointwise, slice_cmp, nat_list_eq_equiv, nat_list_cmp_total, texts_po, texts_ties};

use std::cmp::Ordering;
use std::fmt;
use std::marker::Model;
use thiserror::Error;

/// A slice has more bytes than a key or a value may have.
#[derive(Clone, Copy, Debug, PartialEq, Eq, Error)]
#[error("more than {MAX_LENGTH} bytes")]
pub struct TooLong;

/// How many bytes a key or a value has at most.
pub const MAX_LENGTH: usize = 64;

/// At most so many bytes. Their count is a byte, so that large values made of keys and values are copied at one byte more than they
/// have at most; the bytes past the count are zeroes that nothing reads.
#[derive(Drop)]
pub(crate) struct ShortBytes<const LENGTH: usize> {
    bytes: [u8; LENGTH],
    count: u8,
}

impl<const LENGTH: usize> Model for ShortBytes<LENGTH> {
    ghost use Rattle.std.specs.Prelude.{◌≤◌, ℕ, List, take};

    ghost Value = { List ℕ };

    ghost view = { λ s. take s.count s.bytes };

    ghost invariant = { λ s. s.count ≤ LENGTH };
}

impl<const LENGTH: usize> ShortBytes<LENGTH> {
    /// These bytes, refused exactly where there are more. A count is a byte.
    pub(crate) fn from_slice(bytes: &[u8]) -> Result<ShortBytes<LENGTH>, TooLong>
        requires { LENGTH ≤ 255 }
        ensures fits { IsOk result ↔ (length bytes.now ≤ LENGTH) }
        ensures bytes { IfOk result (λ short. short ≡ bytes.now) }
    {
        if bytes.len() > LENGTH {
            return Err(TooLong);
        }
        let mut padded = [0; LENGTH];
        padded[..bytes.len()].copy_from_slice(bytes);
        Ok(ShortBytes {
            bytes: padded,
            count: bytes.len() as u8,
        })
    }

    /// The first ones of the array, so many.
    #[inline]
    pub(crate) fn first_of(bytes: &[u8; LENGTH], count: u8) -> ShortBytes<LENGTH>
        requires { count ≤ LENGTH }
        ensures { result ≡ take count bytes.now }
    {
        ShortBytes {
            bytes: *bytes,
            count,
        }
    }

    /// The bytes.
    #[inline]
    pub(crate) fn as_slice(&self) -> &[u8]
        ensures bytes { result.now ≡ self.now }
        ensures fits { length result.now ≤ LENGTH }
    {
        &self.bytes[..usize::from(self.count)]
    }

    /// A copy of the bytes; it allocates nothing.
    #[inline]
    pub(crate) fn copied(&self) -> ShortBytes<LENGTH>
        ensures { result ≡ self.now }
    {
        ShortBytes {
            bytes: self.bytes,
            count: self.count,
        }
    }
}

impl<const LENGTH: usize> Default for ShortBytes<LENGTH> {
    ghost is_default = { λ bytes. bytes ≡ [] };

    /// No bytes.
    fn default() -> Self {
        ShortBytes {
            bytes: [0; LENGTH],
            count: 0,
        }
    }
}

impl<const LENGTH: usize> PartialEq for ShortBytes<LENGTH> {
    ghost eq = { pointwise nat_eq };

    ghost laws = { partial_equiv_from_equiv nat_list_eq_equiv };

    fn eq(&self, other: &Self) -> bool {
        self.as_slice() == other.as_slice()
    }
}

impl<const LENGTH: usize> Eq for ShortBytes<LENGTH> {
    ghost laws = { nat_list_eq_equiv };
}

impl<const LENGTH: usize> PartialOrd for ShortBytes<LENGTH> {
    ghost partial_cmp = { λ a b. Some (slice_cmp nat_cmp a b) };

    ghost laws = { texts_po };

    fn partial_cmp(&self, other: &Self) -> Option<Ordering> {
        Some(self.cmp(other))
    }
}

impl<const LENGTH: usize> Ord for ShortBytes<LENGTH> {
    ghost cmp = { slice_cmp nat_cmp };

    ghost total = { nat_list_cmp_total };

    ghost matches_partial_cmp = { λ a b. refl };

    ghost matches_eq = { texts_ties };

    fn cmp(&self, other: &Self) -> Ordering {
        self.as_slice().cmp(&other.as_slice())
    }
}

impl<const LENGTH: usize> fmt::Debug for ShortBytes<LENGTH> {
    fn fmt<W: fmt::Write>(&self, f: &mut fmt::Formatter<W>) -> fmt::Result {
        f.debug_list().entries(self.as_slice()).finish()
    }
}
