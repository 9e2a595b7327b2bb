//! An output that somebody may be looking at.

ghost use Rattle.std.specs.Prelude.{◌≡◌, false, OnOk};
ghost use Rattle.std.specs.Io.KnownBytes.{Keeps, WriteAppends};
ghost use Rattle.std.specs.Io.{WritesAtMost};

use std::io;
use std::io::{ErrorKind, Write};

/// An output that holds bytes back until it is flushed. Where somebody looks at it, it is flushed at each line feed. Where that fails, the
/// bytes were taken and the next call is refused.
#[derive(Drop)]
pub struct Paced<W: Write> {
    /// What takes the bytes.
    pub taker: W,
    /// Whether somebody looks at it.
    pub is_seen: bool,
    /// Whether bytes may be held back.
    pub is_held: bool,
    /// Whether the last byte that it took is no line feed.
    pub is_amid: bool,
    /// Whether it was not flushed at a line feed.
    pub has_failed: bool,
}

impl<W: Write> Paced<W> {
    /// An output over what takes the bytes.
    pub fn over(taker: W, is_seen: bool) -> Paced<W>
        ensures taker { result.taker ≡ taker }
        ensures seen { result.is_seen ≡ is_seen }
    {
        Paced {
            taker,
            is_seen,
            is_held: false,
            is_amid: false,
            has_failed: false,
        }
    }

    /// Notes bytes that were taken.
    fn note(&mut self, bytes: &[u8])
        ensures { self.new.taker ≡ self.old.taker }
    {
        let Some(last) = bytes.last() else {
            return;
        };
        self.is_held = true;
        self.is_amid = *last != b'\n';
    }

    /// Flushes at a line feed.
    fn flush_lines(&mut self, bytes: &[u8])
        ensures { Keeps (W.contents self.old.taker) (W.contents self.new.taker) }
    {
        if self.is_seen && bytes.contains(&b'\n') {
            match self.taker.flush() {
                Ok(()) => self.is_held = false,
                Err(_) => self.has_failed = true,
            }
        }
    }
}

impl<W: Write> Write for Paced<W> {
    ghost contents = { λ p. W.contents p.taker };

    fn write(&mut self, buf: &[u8]) -> io::Result<usize>
        ensures bound { WritesAtMost result buf.now }
        ensures bytes { WriteAppends (W.contents self.old.taker) (W.contents self.new.taker) result buf.now }
    {
        if self.has_failed {
            return Err(io::Error::from(ErrorKind::Other));
        }
        match self.taker.write(buf) {
            Ok(written) => {
                let bytes = &buf[..written];
                self.note(bytes);
                self.flush_lines(bytes);
                Ok(written)
            }
            Err(fault) => Err(fault),
        }
    }

    fn flush(&mut self) -> io::Result<()>
        ensures bytes { Keeps (W.contents self.old.taker) (W.contents self.new.taker) }
        ensures handed { OnOk result (self.new.is_held ≡ false) }
    {
        if self.has_failed {
            return Err(io::Error::from(ErrorKind::Other));
        }
        match self.taker.flush() {
            Ok(()) => {
                self.is_held = false;
                Ok(())
            }
            Err(fault) => Err(fault),
        }
    }
}
