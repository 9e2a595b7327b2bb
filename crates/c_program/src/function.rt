use crate::action::Action;
use c_syntax::Name;
use lang_base::Row;

/// What the end of a function's body means (C99 5.1.2.2.3, 6.9.1).
#[derive(Clone, Copy, Debug, PartialEq, Eq)]
pub enum Ending {
    /// A function without value returns.
    Returns,
    /// `main` returns 0.
    ReturnsZero,
    /// Another function with a value goes wrong.
    GoesWrong,
}

/// A function with a body.
#[derive(Drop)]
pub struct Function {
    pub name: Name,
    /// How many parameters it has: its first locals.
    pub parameters: usize,
    /// How many locals it has, parameters among them.
    pub locals: usize,
    pub ending: Ending,
    pub body: Row<Action>,
}

/// A global variable or array: how many cells it has, and the words that the first of them begin with. The
/// others begin with 0.
#[derive(PartialEq, Eq, Drop)]
pub struct GlobalVariable {
    pub cells: usize,
    pub first_words: Row<u32>,
}
