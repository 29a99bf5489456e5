//! A writer for what nobody is to see.
ghost use Rattle.std.specs.Prelude.{[], None, false};

use byte_streams::Output;

/// A writer that drops what it is shown.
#[derive(Drop)]
pub struct Discard;

impl Output for Discard {
    ghost state = { λ _. record { contents = None; held = []; failed = false } };

    fn has_failed(&self) -> bool {
        false
    }

    fn show(&mut self, bytes: &[u8]) {
        let _ = bytes;
    }

    fn finish(&mut self) {}
}
