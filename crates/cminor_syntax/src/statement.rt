use crate::expression::Expression;
use lang_base::Row;

/// A statement. Variables, globals and functions go by their numbers.
#[derive(Drop)]
pub enum Statement {
    Skip,
    /// The variable becomes the value, which may be undefined.
    Assign(u16, Expression),
    /// A global's cell, by its index, becomes the word.
    Store(u16, Expression, Expression),
    /// The function, the variable that gets what it returns, and the arguments.
    Call(u8, Option<u16>, Row<Expression>),
    /// Prints the low eight bits of the word; the variable gets them.
    Put(Option<u16>, Expression),
    /// One after the other.
    Sequence(Vec<Statement>),
    /// The condition, what is done where it is not 0, and what is done where it is.
    If(Expression, Box<Statement>, Box<Statement>),
    /// Again and again, until something leaves it.
    Loop(Box<Statement>),
    /// What an exit leaves.
    Block(Box<Statement>),
    /// Leaves this many blocks and one more.
    Exit(u16),
    /// Ends the function, with a word where there is one.
    Return(Option<Expression>),
}
