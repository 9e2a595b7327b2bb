//! What the next tokens are.

ghost use Rattle.std.specs.Prelude.{◌≡◌};
ghost use Rattle.c_reader_tokens.specs.Peeking.{is_sign, is_word, is_name, is_sign_next, is_word_next, is_name_next, is_type_next, is_call_next};

use c_syntax::{Keyword, Punctuator, Token, TokenKind};

/// Whether a token is this punctuator.
pub(crate) fn is_sign(sign: Punctuator, kind: &TokenKind) -> bool
    ensures { result ≡ is_sign sign kind.now }
{
    match kind {
        TokenKind::Punctuator(found) => *found == sign,
        _ => false,
    }
}

/// Whether a token is this keyword.
pub(crate) fn is_word(word: Keyword, kind: &TokenKind) -> bool
    ensures { result ≡ is_word word kind.now }
{
    match kind {
        TokenKind::Keyword(found) => *found == word,
        _ => false,
    }
}

fn is_name(kind: &TokenKind) -> bool
    ensures { result ≡ is_name kind.now }
{
    matches!(kind, TokenKind::Name(_))
}

/// Whether this punctuator is next.
pub fn is_sign_next(sign: Punctuator, tokens: &[Token]) -> bool
    ensures { result ≡ is_sign_next sign tokens.now }
{
    match tokens {
        [] => false,
        [token, _rest @ ..] => is_sign(sign, &token.kind),
    }
}

/// Whether this keyword is next.
pub fn is_word_next(word: Keyword, tokens: &[Token]) -> bool
    ensures { result ≡ is_word_next word tokens.now }
{
    match tokens {
        [] => false,
        [token, _rest @ ..] => is_word(word, &token.kind),
    }
}

/// Whether a name is next.
pub fn is_name_next(tokens: &[Token]) -> bool
    ensures { result ≡ is_name_next tokens.now }
{
    match tokens {
        [] => false,
        [token, _rest @ ..] => is_name(&token.kind),
    }
}

/// Whether a type is next.
pub fn is_type_next(tokens: &[Token]) -> bool
    ensures { result ≡ is_type_next tokens.now }
{
    is_word_next(Keyword::Int, tokens) || is_word_next(Keyword::Unsigned, tokens)
}

/// Whether a call is next: a name and `(`.
pub fn is_call_next(tokens: &[Token]) -> bool
    ensures { result ≡ is_call_next tokens.now }
{
    match tokens {
        [] => false,
        [token, rest @ ..] => {
            is_name(&token.kind) && is_sign_next(Punctuator::LeftParenthesis, rest)
        }
    }
}
