//! The readers and writers of std, as inputs and outputs.

ghost use Rattle.std.specs.Prelude.{◌≡◌, ◌^◌, [], false};
ghost use Rattle.byte_streams.specs.Output.{Writes};

use crate::traits::{Failed, Input, Output};
use arrayvec::ArrayVec;
use std::io::{Read, Write};

/// How many reads a reader has.
pub const READS: u32 = 2_147_483_648;

/// How many bytes a writer holds back at most.
pub const HELD: usize = 4096;

/// Any reader, read at most 2^31 times.
#[derive(Drop)]
pub struct Reader<R> {
    pub inner: R,
    pub left: u32,
    pub failed: bool,
}

impl<R> Reader<R> {
    /// A reader with all its reads before it.
    pub fn new(inner: R) -> Reader<R>
        ensures inner { result.inner ≡ inner }
        ensures left { result.left ≡ 2 ^ 31 }
        ensures sound { result.failed ≡ false }
    {
        Reader {
            inner,
            left: READS,
            failed: false,
        }
    }
}

impl<R: Read> Input for Reader<R> {
    ghost remaining = { λ s. R.remaining s.inner };

    ghost failed = { λ s. s.failed };

    ghost reads_left = { λ s. s.left };

    fn has_failed(&self) -> bool {
        self.failed
    }

    fn read(&mut self, buf: &mut [u8]) -> Result<usize, Failed> {
        if self.left == 0 {
            self.failed = true;
            return Err(Failed);
        }
        self.left -= 1;
        match self.inner.read(buf) {
            Ok(n) => Ok(n),
            Err(_) => {
                self.failed = true;
                Err(Failed)
            }
        }
    }
}

/// Any writer. It is given few large pieces, and what is left of them by `finish`.
#[derive(Drop)]
pub struct Writer<W> {
    pub inner: W,
    pub held: ArrayVec<u8, HELD>,
    pub failed: bool,
}

impl<W> Writer<W> {
    /// A writer with nothing held back.
    pub fn new(inner: W) -> Writer<W>
        ensures inner { result.inner ≡ inner }
        ensures held { result.held.items ≡ [] }
        ensures sound { result.failed ≡ false }
    {
        Writer {
            inner,
            held: ArrayVec::new(),
            failed: false,
        }
    }
}

// Writes all bytes, and answers whether no write failed.
fn write_out<W: Write>(inner: &mut W, bytes: &[u8]) -> bool
    ensures { Writes (W.contents inner.old) (W.contents inner.new) bytes.now result }
{
    let mut rest = bytes;
    while !rest.is_empty() {
        match inner.write(rest) {
            Ok(0) => return false,
            Ok(n) => rest = rest.split_at(n).1,
            Err(_) => return false,
        }
    }
    true
}

impl<W: Write> Output for Writer<W> {
    ghost state = { λ s. record { contents = W.contents s.inner; held = s.held.items; failed = s.failed } };

    fn has_failed(&self) -> bool {
        self.failed
    }

    fn show(&mut self, bytes: &[u8]) {
        if self.failed {
            return;
        }
        if self.held.try_extend_from_slice(bytes).is_ok() {
            return;
        }
        if !write_out(&mut self.inner, self.held.as_slice()) {
            self.failed = true;
            return;
        }
        self.held.clear();
        if self.held.try_extend_from_slice(bytes).is_ok() {
            return;
        }
        if !write_out(&mut self.inner, bytes) {
            self.failed = true;
        }
    }

    fn finish(&mut self) {
        if self.failed {
            return;
        }
        if !write_out(&mut self.inner, self.held.as_slice()) {
            self.failed = true;
            return;
        }
        self.held.clear();
        if self.inner.flush().is_err() {
            self.failed = true;
        }
    }
}
