//! Comments (C99 6.4.9).

ghost use Rattle.std.specs.Prelude.{◌≡◌, ◌≢◌, ◌<◌, ◌≤◌, ◌+◌, ℕ, length, drop, slice_index, MatchOption};
ghost use Rattle.c_lexer.specs.Closings.{NoClose, IsFirstClose};
ghost use Rattle.c_lexer.specs.Found.{IsFound};

use crate::errors::LexError;
use crate::found::Found;

/// How many bytes stand before the first newline, or before the end.
fn line_len(text: &[u8]) -> usize
    ensures in_range { result ≤ length text.now }
    ensures each { (k : ℕ) → k < result → slice_index text.now k ≢ 10 }
    ensures ends { result < length text.now → slice_index text.now result ≡ 10 }
{
    let mut n = 0;
    while n < text.len() && text[n] != b'\n' {
        n += 1;
    }
    n
}

/// Where the first `*/` stands.
fn close_of(text: &[u8]) -> Option<usize>
    ensures { MatchOption result (NoClose text.now (length text.now)) (λ n. IsFirstClose text.now n) }
{
    let mut n = 0;
    while n + 1 < text.len() {
        if text[n] == b'*' && text[n + 1] == b'/' {
            return Some(n);
        }
        n += 1;
    }
    None
}

/// The comment at the front of a text that begins with `//`.
pub fn line_comment(text: &[u8]) -> Found
    requires some { 1 < length text.now }
    requires first { slice_index text.now 0 ≡ 47 }
    requires second { slice_index text.now 1 ≡ 47 }
    ensures { IsFound 0 text.now (Ok result) }
{
    Found {
        kind: None,
        len: 2 + line_len(&text[2..]),
    }
}

/// The comment at the front of a text that begins with `/*`.
pub fn block_comment(offset: usize, text: &[u8]) -> Result<Found, LexError>
    requires some { 1 < length text.now }
    requires first { slice_index text.now 0 ≡ 47 }
    requires second { slice_index text.now 1 ≡ 42 }
    ensures { IsFound offset text.now result }
{
    match close_of(&text[2..]) {
        Some(n) => Ok(Found {
            kind: None,
            len: n + 4,
        }),
        None => Err(LexError::OpenComment(offset)),
    }
}
