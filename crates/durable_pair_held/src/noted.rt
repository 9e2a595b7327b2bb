//! What is noted of the calls on the two files.

/// A write or a sync of a file that was done.
#[derive(Clone, Copy)]
pub enum Step {
    /// A write: where it began, how many bytes it had, and how many the file had before it.
    Write(usize, usize, usize),
    Sync,
}

/// One of the new file or of the old one.
#[derive(Clone, Copy)]
pub enum Noted {
    New(Step),
    Old(Step),
}
