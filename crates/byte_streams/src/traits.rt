//! Readers and writers whose failures can be told afterwards.

ghost use Rattle.std.specs.Prelude.{◌≡◌, ℕ, ◌+◌, ◌++◌, List, [], Bool, true, false, not, Option, OnOk, MatchResult};
ghost use Rattle.std.specs.Io.{ReadsAtMost};
ghost use Rattle.std.specs.Io.KnownBytes.{ReadConsumes};
ghost use Rattle.byte_streams.specs.Output.{Sink, Prints, Writes};

use thiserror::Error;

/// A read has failed.
#[derive(Clone, Copy, Debug, PartialEq, Eq, Error)]
#[error("a read failed")]
pub struct Failed;

/// A reader.
pub trait Input {
    /// The bytes that reads will give from here on, where they are known.
    ghost remaining: { Self → Option (List ℕ) };

    /// Whether a read has failed.
    ghost failed: { Self → Bool };

    /// How many more reads there are. After them each read fails.
    ghost reads_left: { Self → ℕ };

    /// Whether a read has failed.
    fn has_failed(&self) -> bool
        ensures { result ≡ failed self.now };

    /// Reads some bytes into the front of `buf`: none at the end alone.
    fn read(&mut self, buf: &mut [u8]) -> Result<usize, Failed>
        ensures bound { ReadsAtMost result buf.new }
        ensures bytes { ReadConsumes (remaining self.old) (remaining self.new) result buf.new }
        ensures fails { MatchResult result (λ _. failed self.new ≡ failed self.old) (λ _. failed self.new ≡ true) }
        ensures fewer { OnOk result (reads_left self.new + 1 ≡ reads_left self.old) };
}

/// A writer, which may hold bytes back. Once a write has failed, nothing more is written.
pub trait Output {
    /// What the writer has, what is held back, and whether a write has failed.
    ghost state: { Self → Sink };

    /// Whether a write has failed.
    fn has_failed(&self) -> bool
        ensures { result ≡ (state self.now).failed };

    /// Writes all bytes, now or later, unless a write has failed.
    fn show(&mut self, bytes: &[u8])
        ensures { Prints (state self.old) (state self.new) bytes.now };

    /// Writes what is held back, unless a write has failed.
    fn finish(&mut self)
        ensures shows { Prints (state self.old) (state self.new) [] }
        ensures ends { (state self.new).failed ≡ false → (state self.new).held ≡ [] };
}

/// Texts that are shown one behind another are one text, and a writer that ends with nothing held back has all of it.
pub fn outputs_add_up()
    ensures none { (a : Sink) → Prints a a [] }
    ensures both { (a b c : Sink) (t u : List ℕ) → Prints a b t → Prints b c u → Prints a c (t ++ u) }
    ensures whole { (a b : Sink) (t : List ℕ) → Prints a b t → a.failed ≡ false → a.held ≡ [] → (b.failed ≡ false → b.held ≡ [])
        → Writes a.contents b.contents t (not b.failed) }
{}
