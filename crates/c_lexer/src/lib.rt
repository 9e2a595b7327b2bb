//! The lexer: from the bytes of a C text to its tokens (C99 6.4, cut to this project's profile). It reads the parts of the
//! text, each at the front of what is left of it: white space, comments and tokens, or a fault.
#![tactic(auto)]

mod characters;
mod comments;
mod errors;
mod found;
mod lexer;
mod parts;
mod punctuators;
mod words;

pub use errors::LexError;
pub use lexer::lex;
