//! All bytes of an input.

ghost use Rattle.std.specs.Prelude.{◌≡◌, ℕ, List, false, IfOk, IfErr};
ghost use Rattle.std.specs.Io.KnownBytes.{Consumes, IsAtEnd};

use byte_streams::Input;
use std::alloc::{AllocError, Global};

/// How many bytes one read takes at most.
const PIECE: usize = 4096;

/// Reads to the end of the input, or as far as it goes.
pub fn read_all<I: Input>(alloc: Global, input: &mut I) -> Result<Vec<u8>, AllocError>
    requires sound { I.failed input.old ≡ false }
    ensures taken { (taken : List ℕ) × Consumes (I.remaining input.old) (I.remaining input.new) taken × IfOk result (λ bytes. bytes.items ≡ taken) }
    ensures ended { IfOk result (λ _. I.failed input.new ≡ false → IsAtEnd (I.remaining input.new)) }
    ensures unfailed { IfErr result (λ _. I.failed input.new ≡ false) }
{
    let mut bytes = Vec::new(alloc);
    let mut piece = [0u8; PIECE];
    'reads: loop {
        match input.read(&mut piece) {
            Err(_) => break,
            Ok(n) => {
                if n == 0 {
                    break;
                }
                if bytes.extend_from_slice(piece.split_at(n).0).is_err() {
                    return Err(AllocError);
                }
            }
        }
    }
    Ok(bytes)
}
