//! Values: short lists of bytes.
ghost use Rattle.std.specs.Prelude.{◌≡◌, ◌≤◌, ◌↔◌, List, ℕ, [], length, take, true, IsOk, IfOk};
ghost use Rattle.bw_model.specs.declared.short_bytes.TheConstants.{MAX_LENGTH};
ghost use Rattle.bw_model.specs.Numbers.{added, is_number, number_bytes};
ghost use Rattle.std.specs.Int.{w64, from_be_bytes};

use crate::short_bytes::{MAX_LENGTH, ShortBytes, TooLong};
use std::alloc::AllocError;
use std::marker::Model;

/// How many bytes a value has that spells a number.
const NUMBER_BYTES: usize = 8;

/// A value: at most 64 bytes.
#[derive(Debug, PartialEq, Eq, PartialOrd, Ord, Drop)]
pub struct Value {
    bytes: ShortBytes<MAX_LENGTH>,
}

impl Model for Value {
    ghost use Rattle.std.specs.Prelude.{ℕ, List};
    ghost use Rattle.bw_model.specs.Bytes.{IsShort};

    ghost Value = { List ℕ };

    ghost view = { λ v. v.bytes };

    ghost invariant = { λ v. IsShort v.bytes };

    ghost inverse = { λ bytes. record { bytes = bytes } };
}

impl Value {
    /// The value of these bytes, refused exactly where there are more than 64.
    pub fn from_slice(bytes: &[u8]) -> Result<Value, TooLong>
        ensures fits { IsOk result ↔ (length bytes.now ≤ MAX_LENGTH) }
        ensures value { IfOk result (λ value. value ≡ bytes.now) }
    {
        Ok(Value {
            bytes: ShortBytes::from_slice(bytes)?,
        })
    }

    /// The first bytes of the array, so many.
    #[inline]
    pub fn first_of(bytes: &[u8; MAX_LENGTH], count: u8) -> Value
        requires { count ≤ MAX_LENGTH }
        ensures { result ≡ take count bytes.now }
    {
        Value {
            bytes: ShortBytes::first_of(bytes, count),
        }
    }

    /// The value that spells a number: eight bytes, the highest first.
    pub fn of_number(number: u64) -> Value
        ensures { result ≡ number_bytes number }
    {
        let mut bytes = [0; MAX_LENGTH];
        bytes[..NUMBER_BYTES].copy_from_slice(&number.to_be_bytes());
        Value::first_of(&bytes, NUMBER_BYTES as u8)
    }

    /// Whether the value spells a number: exactly those of eight bytes do.
    pub fn is_number(&self) -> bool
        ensures { result ≡ is_number self.now }
    {
        self.as_slice().len() == NUMBER_BYTES
    }

    /// The number that the value spells.
    pub fn number(&self) -> u64
        requires { is_number self.now ≡ true }
        ensures { result ≡ from_be_bytes w64 self.now }
    {
        let bytes = self.as_slice();
        u64::from_be_bytes([
            bytes[0], bytes[1], bytes[2], bytes[3], bytes[4], bytes[5], bytes[6], bytes[7],
        ])
    }

    /// The value of the sum, modulo 2^64, of the number that the value spells and another one.
    pub fn added(&self, number: u64) -> Value
        requires { is_number self.now ≡ true }
        ensures { result ≡ added self.now number }
    {
        Value::of_number(self.number().wrapping_add(number))
    }

    /// The bytes.
    pub fn as_slice(&self) -> &[u8]
        ensures bytes { result.now ≡ self.now }
        ensures fits { length result.now ≤ MAX_LENGTH }
    {
        self.bytes.as_slice()
    }

    /// A copy of the value; it allocates nothing.
    pub fn copied(&self) -> Value
        ensures { result ≡ self.now }
    {
        Value {
            bytes: self.bytes.copied(),
        }
    }
}

impl Default for Value {
    ghost is_default = { λ value. value ≡ [] };

    /// The empty value.
    fn default() -> Self {
        Value {
            bytes: ShortBytes::default(),
        }
    }
}

impl Clone for Value {
    ghost is_clone = { λ value other. other ≡ value };

    ghost is_infallible = { λ _. Unit {0} };

    fn clone(&self) -> Result<Self, AllocError> {
        Ok(self.copied())
    }
}
