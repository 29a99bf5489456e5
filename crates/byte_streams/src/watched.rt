//! How far a long input has been read, for a person who waits.

ghost use Rattle.std.specs.Prelude.{◌≡◌};

use std::io;
use std::io::{Read, Write};

/// How many bytes a MiB has.
const MIB: u64 = 1 << 20;

/// Any reader. Each further MiB that is read of it is shown in one line of a terminal, if there is one; of a shorter input nothing is.
#[derive(Drop)]
pub struct Watched<R, W> {
    inner: R,
    terminal: Option<W>,
    bytes: u64,
}

impl<R, W> Watched<R, W> {
    /// A reader of which nothing has been read.
    pub fn new(inner: R, terminal: Option<W>) -> Watched<R, W>
        ensures inner { result.inner ≡ inner }
        ensures terminal { result.terminal ≡ terminal }
        ensures bytes { result.bytes ≡ 0 }
    {
        Watched {
            inner,
            terminal,
            bytes: 0,
        }
    }
}

impl<R, W: Write> Watched<R, W> {
    // Counts bytes that were read, none at the end or after a failure, where the line ends, too.
    fn count(&mut self, read: usize)
        ensures { self.new.inner ≡ self.old.inner }
    {
        let before = self.bytes / MIB;
        self.bytes = self.bytes.saturating_add(read as u64);
        let now = self.bytes / MIB;
        let Some(terminal) = &mut self.terminal else {
            return;
        };
        // What the terminal refuses is left out: the reader goes on without it.
        if now > before {
            let _ = write!(terminal, "\r{now} MiB read");
        }
        if read == 0 && now > 0 {
            let _ = terminal.write_all(b"\n");
        }
    }
}

impl<R: Read, W: Write> Read for Watched<R, W> {
    ghost remaining = { λ s. R.remaining s.inner };

    fn read(&mut self, buf: &mut [u8]) -> io::Result<usize> {
        let result = self.inner.read(buf);
        self.count(match &result {
            Ok(n) => *n,
            Err(_) => 0,
        });
        result
    }
}
