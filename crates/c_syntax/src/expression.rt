use crate::identifier::Identifier;
use crate::{Constant, IntegerType};

/// What stands before one operand (C99 6.5.3.3).
#[derive(Clone, Copy, Debug, PartialEq, Eq)]
pub enum UnaryOperator {
    Minus,
    Plus,
    Complement,
    Not,
}

/// What stands between two operands (C99 6.5.5 to 6.5.14).
#[derive(Clone, Copy, Debug, PartialEq, Eq)]
pub enum BinaryOperator {
    LogicalOr,
    LogicalAnd,
    Or,
    Xor,
    And,
    Equal,
    NotEqual,
    Less,
    Greater,
    LessEqual,
    GreaterEqual,
    ShiftLeft,
    ShiftRight,
    Add,
    Subtract,
    Multiply,
    Divide,
    Remainder,
}

/// What stands between an lvalue and the value that changes it: the operator of a compound assignment
/// (C99 6.5.16.2).
#[derive(Clone, Copy, Debug, PartialEq, Eq)]
pub enum AssignOperator {
    Multiply,
    Divide,
    Remainder,
    Add,
    Subtract,
    ShiftLeft,
    ShiftRight,
    And,
    Xor,
    Or,
}

/// An expression without calls (C99 6.5).
#[derive(Drop)]
pub enum Expression {
    Constant(Constant),
    Variable(Identifier),
    /// An array's cell.
    Element(Identifier, Box<Expression>),
    /// An expression in parentheses.
    Parenthesis(Box<Expression>),
    Cast(IntegerType, Box<Expression>),
    Unary(UnaryOperator, Box<Expression>),
    Binary(BinaryOperator, Box<Expression>, Box<Expression>),
    /// The condition, and the value where it holds and where it does not.
    Conditional(Box<Expression>, Box<Expression>, Box<Expression>),
}
