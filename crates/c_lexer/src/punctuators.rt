//! The punctuator at the front of a text.

ghost use Rattle.std.specs.Prelude.{◌≡◌, ◌≢◌, ◌<◌, length, slice_index, IsFalse};
ghost use Rattle.c_lexer_lexemes.specs.Bytes.{is_white, is_word_byte};
ghost use Rattle.c_lexer.specs.Found.{IsFound};
ghost use Rattle.c_lexer_lexemes.specs.Parts.{BeginsComment};

use crate::errors::LexError;
use crate::found::Found;
use c_lexer_lexemes::{byte_at, longest_punctuator};
use c_syntax::TokenKind;

/// The punctuator at the front of a text that begins neither with white space, a word, a quote nor a
/// comment.
pub fn punctuator(offset: usize, text: &[u8]) -> Result<Found, LexError>
    requires some { 0 < length text.now }
    requires no_white { IsFalse (is_white (slice_index text.now 0)) }
    requires no_word { IsFalse (is_word_byte (slice_index text.now 0)) }
    requires no_quote { slice_index text.now 0 ≢ 39 }
    requires no_comment { BeginsComment text.now → ⊥ }
    ensures { IsFound offset text.now result }
{
    match longest_punctuator(byte_at(text, 0), byte_at(text, 1), byte_at(text, 2)) {
        Some((punctuator, len)) => Ok(Found {
            kind: Some(TokenKind::Punctuator(punctuator)),
            len,
        }),
        None => Err(LexError::BadByte(offset)),
    }
}
