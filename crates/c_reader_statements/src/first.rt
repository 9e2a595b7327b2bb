//! What the next tokens begin.

ghost use Rattle.std.specs.Prelude.{◌≡◌, Err};
ghost use Rattle.c_reader_statement_laws.specs.Reading.{first_word, first_of, too_high};
ghost use Rattle.c_reader_statements.specs.Heads.{is_whole};

use crate::parts::is_cell_next;
use c_reader_statement_laws::First;
use c_reader_tokens::{
    Fault, is_call_next, is_name_next, is_sign_next, is_step_next, is_type_next, is_word_next,
    misfit,
};
use c_syntax::{Keyword, Punctuator, Token};

/// What begins with a keyword, or with `++` or `--`.
fn first_word(tokens: &[Token]) -> First
    ensures { result ≡ first_word tokens.now }
{
    if is_word_next(Keyword::If, tokens) {
        First::If
    } else if is_word_next(Keyword::While, tokens) {
        First::While
    } else if is_word_next(Keyword::For, tokens) {
        First::For
    } else if is_word_next(Keyword::Break, tokens) {
        First::Break
    } else if is_word_next(Keyword::Continue, tokens) {
        First::Continue
    } else if is_word_next(Keyword::Return, tokens) {
        First::Return
    } else if is_word_next(Keyword::Do, tokens) {
        First::Do
    } else if is_step_next(tokens) {
        First::Step
    } else {
        First::Other
    }
}

/// What begins. A local begins in a block alone.
#[tactic(auto, unfolding(c_reader_statement_laws::specs::Reading::first_of))]
pub(crate) fn first_of(block: bool, tokens: &[Token]) -> First
    ensures { result ≡ first_of block tokens.now }
{
    if is_sign_next(Punctuator::Semicolon, tokens) {
        First::Empty
    } else if is_sign_next(Punctuator::LeftBrace, tokens) {
        First::Block
    } else if block && is_type_next(tokens) {
        First::Local
    } else if is_call_next(tokens) {
        First::Call
    } else if is_cell_next(tokens) {
        First::Store
    } else if is_name_next(tokens) {
        First::Assign
    } else {
        first_word(tokens)
    }
}

/// Whether what begins so has no statement inside.
pub(crate) fn is_whole(first: First) -> bool
    ensures { result ≡ is_whole first }
{
    match first {
        First::Block | First::If | First::While | First::Do | First::For => false,
        First::Empty
        | First::Local
        | First::Call
        | First::Assign
        | First::Store
        | First::Step
        | First::Break
        | First::Continue
        | First::Return
        | First::Other => true,
    }
}

/// Why nothing is read where no fuel is left.
pub(crate) fn too_high(first: First, tokens: &[Token]) -> Fault
    ensures { too_high first tokens.now ≡ Err result }
{
    match first {
        First::Other => misfit(tokens),
        First::Empty
        | First::Local
        | First::Block
        | First::Call
        | First::Assign
        | First::Store
        | First::Step
        | First::If
        | First::While
        | First::Do
        | First::For
        | First::Break
        | First::Continue
        | First::Return => Fault::TooDeep,
    }
}
