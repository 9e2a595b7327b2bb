//! Which file of a pair is refused.

use std::io;

/// Which file of a pair is refused, and why. Where memory is refused the kind is `OutOfMemory`.
#[derive(Debug, Drop)]
pub enum Unopened {
    /// The old one. The new one was not touched.
    Old(io::Error),
    New(io::Error),
}
