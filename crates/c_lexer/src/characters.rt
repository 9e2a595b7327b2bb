//! The character constant at the front of a text.

ghost use Rattle.std.specs.Prelude.{◌≡◌, ◌<◌, length, slice_index};
ghost use Rattle.c_lexer.specs.Found.{IsFound};

use crate::errors::LexError;
use crate::found::Found;
use c_lexer_lexemes::{byte_at, character_value};
use c_syntax::{Constant, IntegerType, TokenKind};

/// The character constant at the front of a text that begins with a quote.
pub fn character(offset: usize, text: &[u8]) -> Result<Found, LexError>
    requires some { 0 < length text.now }
    requires quote { slice_index text.now 0 ≡ 39 }
    ensures { IsFound offset text.now result }
{
    match character_value(byte_at(text, 1), byte_at(text, 2), byte_at(text, 3)) {
        Some((value, len)) => {
            let constant = Constant {
                value: u32::from(value),
                kind: IntegerType::Int,
            };
            Ok(Found {
                kind: Some(TokenKind::Constant(constant)),
                len,
            })
        }
        None => Err(LexError::BadChar(offset)),
    }
}
