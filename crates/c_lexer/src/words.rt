//! Words: names, keywords and numbers.

ghost use Rattle.std.specs.Prelude.{◌≡◌, ◌<◌, ◌≤◌, ℕ, length, take, drop, slice_index, IsTrue, IsFalse, IfOk, MatchOption};
ghost use Rattle.c_lexer_lexemes.specs.Bytes.{is_word_byte};
ghost use Rattle.c_lexer_lexemes.specs.Faults.{IsRefused};
ghost use Rattle.c_lexer.specs.Found.{IsFound};
ghost use Rattle.c_lexer_lexemes.specs.Lexemes.{IsWord, Spells};

use crate::errors::LexError;
use crate::found::Found;
use c_lexer_lexemes::{constant, is_word_byte, keyword};
use c_syntax::TokenKind;
use lang_base::{NoMemory, Row};
use std::alloc::Global;

/// How many letters, digits and underscores stand at the front.
fn word_len(text: &[u8]) -> usize
    ensures in_range { result ≤ length text.now }
    ensures each { (k : ℕ) → k < result → IsTrue (is_word_byte (slice_index text.now k)) }
    ensures ends { result < length text.now → IsFalse (is_word_byte (slice_index text.now result)) }
{
    let mut n = 0;
    while n < text.len() && is_word_byte(text[n]) {
        n += 1;
    }
    n
}

/// The token that a word spells; none where it begins with a digit and is no constant.
fn kind_of(alloc: Global, word: &[u8]) -> Result<Option<TokenKind>, NoMemory>
    requires { IsWord word.now }
    ensures { IfOk result (λ kind. MatchOption kind (IsRefused word.now) (λ k. Spells k word.now)) }
{
    if word[0].is_ascii_digit() {
        return match constant(word) {
            Some(constant) => Ok(Some(TokenKind::Constant(constant))),
            None => Ok(None),
        };
    }
    match keyword(word) {
        Some(keyword) => Ok(Some(TokenKind::Keyword(keyword))),
        None => {
            let name = Row::from_vec(Vec::from_slice(alloc, word)?);
            Ok(Some(TokenKind::Name(name)))
        }
    }
}

/// The word at the front of a text.
pub fn word(alloc: Global, offset: usize, text: &[u8]) -> Result<Found, LexError>
    requires first { IsTrue (is_word_byte (slice_index text.now 0)) }
    requires some { 0 < length text.now }
    ensures { IsFound offset text.now result }
{
    let len = word_len(text);
    let kind = kind_of(alloc, &text[..len])?;
    match kind {
        Some(kind) => Ok(Found {
            kind: Some(kind),
            len,
        }),
        None => Err(LexError::LiteralRange(offset)),
    }
}
