//! The kinds of bytes.

ghost use Rattle.std.specs.Prelude.{◌≡◌, slice_index};
ghost use Rattle.c_lexer_lexemes.specs.Bytes.{is_white, is_word_byte};

/// White space: the bytes from 9 to 13, and the space.
pub fn is_white(b: u8) -> bool
    ensures { result ≡ is_white b }
{
    (9 <= b && b <= 13) || b == b' '
}

/// A letter, a digit or the underscore.
pub fn is_word_byte(b: u8) -> bool
    ensures { result ≡ is_word_byte b }
{
    b.is_ascii_alphanumeric() || b == b'_'
}

/// The byte at a place, or 0 behind the end.
pub fn byte_at(text: &[u8], at: usize) -> u8
    ensures { result ≡ slice_index text.now at }
{
    if at < text.len() { text[at] } else { 0 }
}
