//! Tokens, which stand for keys and values.

ghost use Rattle.std.specs.Prelude.{◌≡◌, ◌↔◌, ℕ, List, Some};
ghost use Rattle.std.specs.List.{list_all};
ghost use Rattle.std.specs.Option.{ok_or};
ghost use Rattle.std.specs.Result.{result_ok};
ghost use Rattle.hex.specs.Hex.{decode_of, IsBytes, is_hex_digit as is_hex_digit_lem};
ghost use Rattle.shell_lines.specs.Token.{Means, token_value, as_token, is_word as is_word_lem, is_word_byte as is_word_byte_lem};
ghost use Rattle.shell_lines.specs.Gives.{Gives};

use bw_model::{Key, MAX_LENGTH, Value};
use thiserror::Error;

/// Why a line asks for nothing.
#[derive(Clone, Copy, Debug, PartialEq, Eq, Error)]
pub enum LineError {
    #[error("the line is outside the grammar")]
    Malformed,
    #[error("a key or a value is too long")]
    TooLong,
}

// What a line has to have; one without it is outside the grammar.
pub(crate) fn needed<T: Drop>(part: Option<T>) -> Result<T, LineError>
    ensures { result ≡ ok_or part LineError.Malformed }
{
    part.ok_or(LineError::Malformed)
}

fn is_word_byte(b: u8) -> bool
    ensures { result ≡ is_word_byte_lem b }
{
    b >= 33 && b <= 126
}

fn is_hex_digit(b: u8) -> bool
    ensures { result ≡ is_hex_digit_lem b }
{
    b >= 65 && b <= 70 || b >= 97 && b <= 102 || b >= 48 && b <= 57
}

fn are_word_bytes(bytes: &[u8]) -> bool
    ensures { result ≡ list_all is_word_byte_lem bytes.now }
{
    bytes.iter().all(|b| is_word_byte(*b))
}

fn are_hex_digits(digits: &[u8]) -> bool
    ensures { result ≡ list_all is_hex_digit_lem digits.now }
{
    digits.iter().all(|b| is_hex_digit(*b))
}

/// Whether the bytes are printed as they are.
pub fn is_word(bytes: &[u8]) -> bool
    ensures { result ≡ is_word_lem bytes.now }
{
    !bytes.is_empty() && bytes[0] != b'=' && are_word_bytes(bytes)
}

// The bytes that pairs of digits spell.
#[tactic(auto, using(crate::proofs::Tokens::no_digits, crate::proofs::Tokens::long_digits))]
fn read_digits(digits: &[u8]) -> Result<Key, LineError>
    ensures { Gives result (result_ok (decode_of digits.now)) }
{
    if digits.len() % 2 == 1 {
        return Err(LineError::Malformed);
    }
    if !are_hex_digits(digits) {
        return Err(LineError::Malformed);
    }
    if digits.len() > 2 * MAX_LENGTH {
        return Err(LineError::TooLong);
    }
    let mut held = [0u8; MAX_LENGTH];
    let room = &mut held[..digits.len() / 2];
    match hex::decode_to_slice(digits, room) {
        Ok(()) => Key::from_slice(&held[..digits.len() / 2]).map_err(|_| LineError::TooLong),
        Err(_) => Err(LineError::Malformed),
    }
}

// The key that a token stands for.
pub fn key_of(token: &[u8]) -> Result<Key, LineError>
    ensures { Gives result (token_value token.now) }
{
    if !token.is_empty() && token[0] == b'=' {
        read_digits(&token[1..])
    } else if is_word(token) {
        Key::from_slice(token).map_err(|_| LineError::TooLong)
    } else {
        Err(LineError::Malformed)
    }
}

// The value that a token stands for.
pub fn value_of(token: &[u8]) -> Result<Value, LineError>
    ensures { Gives result (token_value token.now) }
{
    match key_of(token) {
        Ok(key) => Value::from_slice(key.as_slice()).map_err(|_| LineError::TooLong),
        Err(error) => Err(error),
    }
}

/// Each list of bytes has a token, each token stands for one list of bytes, and lines are read by the same (`token_value`).
pub fn tokens_are_exact()
    ensures printed { (bytes : List ℕ) → IsBytes bytes → Means (as_token bytes) bytes }
    ensures one { (token a b : List ℕ) → Means token a → Means token b → a ≡ b }
    ensures read { (token bytes : List ℕ) → (token_value token ≡ Some bytes) ↔ Means token bytes }
{}
