use crate::constant::Constant;
use crate::keyword::Keyword;
use crate::punctuator::Punctuator;
use lang_base::Row;

/// The letters, digits and underscores of a name, in ASCII.
pub type Name = Row<u8>;

/// What a token is, apart from its place.
#[derive(PartialEq, Eq, Drop)]
pub enum TokenKind {
    Name(Name),
    Constant(Constant),
    Keyword(Keyword),
    Punctuator(Punctuator),
}

/// A token and its place in the text: it stands from the byte offset `start` to before `end`.
#[derive(PartialEq, Eq, Drop)]
pub struct Token {
    pub kind: TokenKind,
    pub start: usize,
    pub end: usize,
}
