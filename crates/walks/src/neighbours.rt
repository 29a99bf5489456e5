//! The greatest key, and the least key above one.
ghost use Rattle.std.specs.Prelude.{◌≡◌};
ghost use Rattle.bw_model.specs.Bytes.{longest};
ghost use Rattle.bw_model.specs.NextKeys.{filled};
ghost use Rattle.walks.specs.Neighbours.{key_above};

use bw_model::{Key, MAX_LENGTH};

/// The greatest key: 64 times 255.
pub(crate) fn greatest() -> Key
    ensures { result ≡ filled longest }
{
    Key::first_of(&[255; MAX_LENGTH], MAX_LENGTH as u8)
}

/// The least key above this one, or none above the greatest key: with a 0 behind it, if it has fewer than 64 bytes; else up to its last byte
/// that isn't 255, which is one more.
pub(crate) fn above(key: &Key) -> Option<Key>
    ensures { result ≡ key_above key.now }
{
    let front = key.as_slice();
    let mut bytes = [0; MAX_LENGTH];
    bytes[..front.len()].copy_from_slice(front);
    if front.len() < MAX_LENGTH {
        return Some(Key::first_of(&bytes, front.len() as u8 + 1));
    }
    for place in (0..MAX_LENGTH).rev() {
        if bytes[place] < 255 {
            bytes[place] += 1;
            return Some(Key::first_of(&bytes, place as u8 + 1));
        }
    }
    None
}
