use crate::IntegerType;
use crate::expression::{AssignOperator, Expression};
use crate::identifier::Identifier;
use lang_base::Row;

/// A call of a function (C99 6.5.2.2).
#[derive(Drop)]
pub struct Call {
    pub callee: Identifier,
    pub arguments: Row<Expression>,
}

/// The right side of an assignment to a name, of a local's initializer and of `return`.
#[derive(Drop)]
pub enum Value {
    Expression(Expression),
    Call(Call),
}

/// A name or a cell that is changed, or that a `for` sets.
#[derive(Drop)]
pub enum Lvalue {
    Variable(Identifier),
    Element(Identifier, Expression),
}

/// An lvalue is changed by an operator and a value (C99 6.5.16.2). `t++` and `++t` are `t += 1`, and `t--` and `--t`
/// are `t -= 1` (C99 6.5.2.4 and 6.5.3.1).
#[derive(Drop)]
pub struct Change {
    pub lvalue: Lvalue,
    pub operator: AssignOperator,
    pub value: Expression,
}

/// What a `for` begins with, and what it does behind each turn.
#[derive(Drop)]
pub enum Set {
    /// An lvalue becomes a value.
    Becomes(Lvalue, Expression),
    Changes(Change),
}

/// The declaration of a local.
#[derive(Drop)]
pub struct Local {
    pub kind: IntegerType,
    pub name: Identifier,
    pub value: Option<Value>,
}

/// How a `for` begins.
#[derive(Drop)]
pub enum ForStart {
    Nothing,
    Set(Set),
    /// A local of the loop, with its value.
    Local(IntegerType, Identifier, Expression),
}

/// What stands between the parentheses of a `for`: how it begins, its condition, and what is set behind each turn.
#[derive(Drop)]
pub struct ForHead {
    pub start: ForStart,
    pub condition: Option<Expression>,
    pub step: Option<Set>,
}

/// A statement (C99 6.8), or the declaration of a local, which stands in a block alone.
#[derive(Drop)]
pub enum Statement {
    Empty,
    Local(Local),
    Block(Vec<Statement>),
    Call(Call),
    /// A name becomes a value.
    Assign(Identifier, Value),
    /// An array's cell, named by its index, becomes a value.
    Store(Identifier, Expression, Expression),
    /// In a box, since it is larger than the parts of the others.
    Change(Box<Change>),
    If(Expression, Box<Statement>),
    IfElse(Expression, Box<Statement>, Box<Statement>),
    While(Expression, Box<Statement>),
    /// `do`: its body, and the condition behind it.
    Do(Box<Statement>, Expression),
    /// What stands between its parentheses, apart since it is far larger than the parts of the others, and its body.
    For(Box<ForHead>, Box<Statement>),
    /// The byte offset of the keyword.
    Break(usize),
    /// The byte offset of the keyword.
    Continue(usize),
    /// The byte offset of the keyword, and what is returned.
    Return(usize, Option<Value>),
}
