//! The tokens of a text, one after the other, as far as hints need them.

ghost use Rattle.std.specs.Prelude.{◌≡◌, ◌⊎◌, []};
ghost use Rattle.c_hints_words.specs.Standing.{StandsAt};

use c_lexer_lexemes::is_word_byte;

/// What stands at a place of a text, and how many bytes it has.
#[derive(Clone, Copy, Debug)]
pub struct Part {
    /// White space or a comment is no token.
    pub is_token: bool,
    pub length: usize,
}

/// How many bytes of a name or a number the text begins with.
fn length_of_word(text: &[u8]) -> usize {
    match text.iter().position(|byte| !is_word_byte(*byte)) {
        Some(length) => length,
        None => text.len(),
    }
}

/// How many bytes the comment has with which the text begins.
fn length_of_comment(text: &[u8]) -> usize {
    if text.starts_with(b"//".as_slice()) {
        return match text.iter().position(|byte| *byte == b'\n') {
            Some(length) => length,
            None => text.len(),
        };
    }
    for at in 2..text.len() {
        if text[at..].starts_with(b"*/".as_slice()) {
            return at.saturating_add(2);
        }
    }
    text.len()
}

/// How many bytes the character constant has with which the text begins.
fn length_of_character(text: &[u8]) -> usize {
    if text.starts_with(b"'\\".as_slice()) {
        4
    } else {
        3
    }
}

/// How many bytes the punctuator has with which the text begins.
fn length_of_punctuator(text: &[u8]) -> usize {
    match text {
        [b'<', b'<', b'=', ..] | [b'>', b'>', b'=', ..] => 3,
        [b'+', b'+', ..] | [b'-', b'-', ..] | [b'<', b'<', ..] | [b'>', b'>', ..] => 2,
        [b'&', b'&', ..] | [b'|', b'|', ..] => 2,
        [first, b'=', ..] => {
            if b"=!<>+-*/%&|^".as_slice().contains(first) {
                2
            } else {
                1
            }
        }
        _ => 1,
    }
}

/// What the text begins with, which is not empty.
pub fn first_part(text: &[u8]) -> Part {
    let Some(first) = text.first() else {
        return Part {
            is_token: false,
            length: 1,
        };
    };
    if first.is_ascii_whitespace() || *first == 11 {
        return Part {
            is_token: false,
            length: 1,
        };
    }
    if text.starts_with(b"//".as_slice()) || text.starts_with(b"/*".as_slice()) {
        return Part {
            is_token: false,
            length: length_of_comment(text),
        };
    }
    let length = if is_word_byte(*first) {
        length_of_word(text)
    } else if *first == b'\'' {
        length_of_character(text)
    } else {
        length_of_punctuator(text)
    };
    Part {
        is_token: true,
        length,
    }
}

/// A token of a text, with the offsets where it begins and behind which it ends; empty at the end of the text.
#[derive(Clone, Copy, Debug)]
pub struct Token<'a> {
    pub word: &'a str,
    pub start: usize,
    pub end: usize,
}

/// Nothing, at the end of a text.
#[tactic(auto, using(crate::proofs::Standings::none_stands))]
fn end_of(text: &[u8]) -> Token<'_>
    ensures { StandsAt text.now result.start result.word.now }
{
    Token {
        word: "",
        start: text.len(),
        end: text.len(),
    }
}

/// The first token that begins at this offset or behind it, where none begins before. The time is linear in what it passes.
pub fn token_from(text: &[u8], from: usize) -> Token<'_>
    ensures { StandsAt text.now result.start result.word.now }
{
    let mut next = from;
    for _ in from..text.len() {
        let part = first_part(bytes_between(text, next, text.len()));
        let end = next.saturating_add(part.length);
        if part.is_token {
            return Token {
                word: word_between(text, next, end),
                start: next,
                end,
            };
        }
        next = end;
        if next >= text.len() {
            break;
        }
    }
    end_of(text)
}

/// The token that stands at this offset; nothing where none does.
#[tactic(auto, using(crate::proofs::Standings::none_stands))]
pub fn token_at(text: &[u8], at: usize) -> &str
    ensures { StandsAt text.now at result.now }
{
    let part = first_part(bytes_between(text, at, text.len()));
    if part.is_token {
        word_between(text, at, at.saturating_add(part.length))
    } else {
        ""
    }
}

/// The bytes of a text from one offset to before another, as far as it has them.
#[tactic(auto, using(crate::proofs::Standings::none_stands))]
pub fn bytes_between(text: &[u8], start: usize, end: usize) -> &[u8]
    ensures { StandsAt text.now start result.now }
{
    let end = end.min(text.len());
    if start < end { &text[start..end] } else { &[] }
}

/// The text of these bytes; nothing where they are none.
fn word_of(bytes: &[u8]) -> &str
    ensures { (result.now ≡ bytes.now) ⊎ (result.now ≡ []) }
{
    match str::from_utf8(bytes) {
        Ok(word) => word,
        Err(_) => "",
    }
}

/// The text of the bytes from one offset to before another; nothing where they are none.
pub fn word_between(text: &[u8], start: usize, end: usize) -> &str
    ensures { StandsAt text.now start result.now }
{
    word_of(bytes_between(text, start, end))
}
