use crate::key::Key;

/// What a letter before a number stands for.
#[derive(Clone, Copy)]
pub enum Letter {
    /// `r`
    Register,
    /// `s`
    Slot,
    /// `g`
    Global,
    /// `f`
    Function,
    /// `v`
    Variable,
}

/// A word of a text.
#[derive(Clone, Copy)]
pub enum Word {
    /// A letter and a number, as `r7`.
    Lettered(Letter, u64),
    Number(u64),
    Named(Key),
}
