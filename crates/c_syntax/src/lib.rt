//! What a C text is made of: tokens, which the lexer gives and the reader takes (C99 6.4), and trees, which the reader
//! gives and the checker takes. Its specs are the grammar (C99 6.5 to 6.9, cut to this project's profile): which tokens
//! spell which tree, and how high a tree is.
#![tactic(auto)]

mod constant;
mod declaration;
mod expression;
mod identifier;
mod keyword;
mod punctuator;
mod statement;
mod token;
mod unit;

pub use constant::{Constant, IntegerType};
pub use declaration::{
    Declaration, Function, Global, Initial, Initializer, OpenParameter, Parameter, Prototype,
    ReturnType,
};
pub use expression::{AssignOperator, BinaryOperator, Expression, UnaryOperator};
pub use identifier::Identifier;
pub use keyword::Keyword;
pub use lang_base::NoMemory;
pub use punctuator::Punctuator;
pub use statement::{Call, Change, ForHead, ForStart, Local, Lvalue, Set, Statement, Value};
pub use token::{Name, Token, TokenKind};
pub use unit::Unit;
