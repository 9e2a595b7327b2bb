use crate::cause::Cause;

/// A part that has no value: why, and its place in the text.
#[derive(Clone, Copy, Debug, PartialEq, Eq)]
pub struct Gap {
    pub cause: Cause,
    pub place: usize,
}
