use crate::expression::Expression;
use crate::identifier::Identifier;
use crate::statement::Statement;
use crate::{Constant, IntegerType};
use lang_base::Row;

/// What a function gives back.
#[derive(Clone, Copy, Debug, PartialEq, Eq)]
pub enum ReturnType {
    Void,
    Value(IntegerType),
}

/// A parameter of a function with a body.
#[derive(Drop)]
pub struct Parameter {
    pub kind: IntegerType,
    pub name: Identifier,
    /// The byte offset of its type's first token.
    pub offset: usize,
}

/// A parameter of a prototype, which may have no name.
#[derive(Drop)]
pub struct OpenParameter {
    pub kind: IntegerType,
    pub name: Option<Identifier>,
    /// The byte offset of its type's first token.
    pub offset: usize,
}

/// An expression that a global begins with.
#[derive(Drop)]
pub struct Initial {
    pub value: Expression,
    /// The byte offset of its first token.
    pub offset: usize,
}

/// What a global begins with (C99 6.7.8).
#[derive(Drop)]
pub enum Initializer {
    Plain(Initial),
    Braced(Row<Initial>),
}

/// A global variable, or an array where it has a size.
#[derive(Drop)]
pub struct Global {
    pub kind: IntegerType,
    pub name: Identifier,
    pub size: Option<Constant>,
    pub initializer: Option<Initializer>,
}

/// A function with its body.
#[derive(Drop)]
pub struct Function {
    pub result: ReturnType,
    pub name: Identifier,
    pub parameters: Row<Parameter>,
    pub body: Row<Statement>,
}

/// A function's type, without its body.
#[derive(Drop)]
pub struct Prototype {
    pub result: ReturnType,
    pub name: Identifier,
    pub parameters: Row<OpenParameter>,
}

/// What stands at the outside of a text (C99 6.9).
#[derive(Drop)]
pub enum Declaration {
    Global(Global),
    Function(Function),
    Prototype(Prototype),
}
