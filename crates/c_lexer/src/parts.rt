//! The parts of a text, each found by its first bytes.

ghost use Rattle.std.specs.Prelude.{◌≡◌, ◌<◌, length};
ghost use Rattle.c_lexer.specs.Found.{IsFound};

use crate::characters::character;
use crate::comments::{block_comment, line_comment};
use crate::errors::LexError;
use crate::found::Found;
use crate::punctuators::punctuator;
use crate::words::word;
use c_lexer_lexemes::{byte_at, is_white, is_word_byte};
use std::alloc::Global;

/// The part at the front of a text, which stands at an offset of the whole.
pub fn first_part(alloc: Global, offset: usize, text: &[u8]) -> Result<Found, LexError>
    requires { 0 < length text.now }
    ensures { IsFound offset text.now result }
{
    let first = text[0];
    if is_white(first) {
        return Ok(Found { kind: None, len: 1 });
    }
    if is_word_byte(first) {
        return word(alloc, offset, text);
    }
    if first == b'\'' {
        return character(offset, text);
    }
    let second = byte_at(text, 1);
    if first == b'/' && second == b'/' {
        return Ok(line_comment(text));
    }
    if first == b'/' && second == b'*' {
        return block_comment(offset, text);
    }
    punctuator(offset, text)
}
