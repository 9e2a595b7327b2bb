//! A writer in memory that can fail.

use std::io;
use std::io::{ErrorKind, Write};

/// Holds so many bytes and then fails. A signal may interrupt every other write, and what it holds may not be flushed.
#[derive(Drop)]
pub struct Held {
    pub bytes: Vec<u8>,
    pub space: usize,
    pub signals: bool,
    pub interrupted: bool,
    pub stuck: bool,
}

impl Held {
    /// A writer that never fails.
    pub fn ample(alloc: std::alloc::Global) -> Held {
        Held {
            bytes: Vec::new(alloc),
            space: usize::MAX,
            signals: false,
            interrupted: false,
            stuck: false,
        }
    }

    /// One that is interrupted at every other write.
    pub fn with_signals(alloc: std::alloc::Global) -> Held {
        Held {
            signals: true,
            ..Held::ample(alloc)
        }
    }

    /// One that holds all and cannot be flushed.
    pub fn stuck(alloc: std::alloc::Global) -> Held {
        Held {
            stuck: true,
            ..Held::ample(alloc)
        }
    }

    /// One that fails at this byte.
    pub fn failing_at(alloc: std::alloc::Global, space: usize) -> Held {
        Held {
            space,
            ..Held::ample(alloc)
        }
    }
}

impl Write for Held {
    fn write(&mut self, buf: &[u8]) -> io::Result<usize> {
        if self.signals && !self.interrupted {
            self.interrupted = true;
            return Err(io::Error::from(ErrorKind::Interrupted));
        }
        self.interrupted = false;
        let left = self.space.saturating_sub(self.bytes.len());
        let taken = buf.len().min(left);
        if taken == 0 && !buf.is_empty() {
            return Err(io::Error::from(ErrorKind::StorageFull));
        }
        self.bytes.extend_from_slice(&buf[..taken])?;
        Ok(taken)
    }

    fn flush(&mut self) -> io::Result<()> {
        if self.stuck {
            return Err(io::Error::from(ErrorKind::StorageFull));
        }
        Ok(())
    }
}
