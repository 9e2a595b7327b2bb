use crate::term::Term;
use ints::Op;
use lang_base::Row;

/// A call of a function with a body.
#[derive(Drop)]
pub struct Called {
    /// The function's number, in the order of the definitions.
    pub function: usize,
    pub arguments: Row<Term>,
}

/// What gives a value: a term, what a call returns, or the byte that `putchar` writes.
#[derive(Drop)]
pub enum Value {
    Term(Term),
    Call(Called),
    Put(Term),
}

/// Where a value goes.
#[derive(Clone, Copy, Debug, PartialEq, Eq)]
pub enum Target {
    /// It is dropped.
    Nowhere,
    /// A local or a parameter, by its number in the function.
    Local(usize),
    /// The only cell of a global variable, by its number.
    Global(usize),
    /// It is returned from the function.
    Caller,
}

/// A statement (C99 6.8) whose names are resolved.
#[derive(Drop)]
pub enum Action {
    Nothing,
    /// The declaration of a local is reached: it becomes indeterminate.
    Declare(usize),
    Sequence(Vec<Action>),
    Give(Target, Value),
    /// A cell of a global, by the global's number and the cell's, becomes a word.
    Store(usize, Term, Term),
    /// A cell of a global, by the global's number and the cell's, becomes what the operator gives of its word and
    /// another.
    Update(usize, Term, Op, Term),
    If(Term, Box<Action>, Box<Action>),
    /// The condition of each turn, its body, and what is done behind it, also after a `continue`. A `continue` that
    /// stands behind the body leaves the loop.
    Loop(Term, Box<Action>, Box<Action>),
    Break,
    Continue,
    /// `return` without a value.
    Leave,
}
