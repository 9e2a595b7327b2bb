use ints::Op;

/// Why a part of a program has no value.
#[derive(Clone, Copy, Debug, PartialEq, Eq)]
pub enum Cause {
    /// A local is read before it is set (C99 6.2.4, 6.7.8).
    Unset,
    /// A global, by its number, has no cell of this index (C99 6.5.6).
    Past(usize, u32),
    /// The operator has no value for this word (C99 6.5).
    One(Op, u32),
    /// The operator has no value for these words (C99 6.5, 6.5.5, 6.5.7).
    Two(Op, u32, u32),
    /// The end of a function with a value is reached (C99 6.9.1).
    NoReturn,
    /// What no text stands for: a `break` behind no loop, a function or a value that is not there.
    Malformed,
}
