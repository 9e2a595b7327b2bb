//! The kinds of words and tokens.

ghost use Rattle.std.specs.Prelude.{◌≡◌, slice_index};
ghost use Rattle.std.specs.Str.{str_eq_ignore_ascii_case};
ghost use Rattle.c_hints_words.specs.Words.{assigns_bits, assigns_more, begins_sum, begins_test, is_as, is_assignment, is_head, is_headed};
ghost use Rattle.c_hints_words.specs.Words.{is_keyword, is_operator, is_other, is_type, is_word, or_else, wants_value};

use c_lexer_lexemes::{byte_at, is_word_byte};

/// The byte of a token at a place, or 0 behind its end.
pub fn byte_of(token: &str, at: usize) -> u8
    ensures { result ≡ slice_index token.now at }
{
    byte_at(token.as_bytes(), at)
}

/// The first text, or the second where that is empty.
pub fn or_else<'a>(first: &'a str, second: &'a str) -> &'a str
    ensures { result.now ≡ or_else first.now second.now }
{
    if first.is_empty() { second } else { first }
}

/// Whether the token is a name, a keyword or a number.
pub fn is_word(token: &str) -> bool
    ensures { result ≡ is_word token.now }
{
    is_word_byte(byte_of(token, 0))
}

/// Whether the token is a type of the language.
pub fn is_type(token: &str) -> bool
    ensures { result ≡ is_type token.now }
{
    token == "int" || (token == "unsigned" || token == "void")
}

/// Whether it is a keyword that parentheses follow.
pub(crate) fn is_head(token: &str) -> bool
    ensures { result ≡ is_head token.now }
{
    token == "if" || (token == "while" || token == "for")
}

/// Whether it is another keyword of the language that is no type.
fn is_other(token: &str) -> bool
    ensures { result ≡ is_other token.now }
{
    token == "else"
        || (token == "do" || (token == "return" || (token == "break" || token == "continue")))
}

/// Whether it is a keyword of the language.
pub fn is_keyword(token: &str) -> bool
    ensures { result ≡ is_keyword token.now }
{
    is_type(token) || (is_head(token) || is_other(token))
}

/// Whether it is a word of C that parentheses follow.
pub fn is_headed(token: &str) -> bool
    ensures { result ≡ is_headed token.now }
{
    token == "if" || (token == "while" || (token == "for" || token == "switch"))
}

/// Whether it is the keyword, but for capitals.
pub fn is_as(token: &str, keyword: &str) -> bool
    ensures { result ≡ is_as token.now keyword.now }
{
    token != keyword && is_alike(token.as_bytes(), keyword.as_bytes())
}

fn is_alike(token: &[u8], keyword: &[u8]) -> bool
    ensures { result ≡ str_eq_ignore_ascii_case token.now keyword.now }
{
    token.eq_ignore_ascii_case(keyword)
}

fn assigns_more(found: &str) -> bool
    ensures { result ≡ assigns_more found.now }
{
    found == "+=" || (found == "-=" || (found == "*=" || (found == "/=" || found == "%=")))
}

fn assigns_bits(found: &str) -> bool
    ensures { result ≡ assigns_bits found.now }
{
    found == "<<=" || (found == ">>=" || (found == "&=" || (found == "^=" || found == "|=")))
}

/// Whether the operator assigns.
pub fn is_assignment(found: &str) -> bool
    ensures { result ≡ is_assignment found.now }
{
    found == "=" || (assigns_more(found) || assigns_bits(found))
}

fn begins_sum(b: u8) -> bool
    ensures { result ≡ begins_sum b }
{
    b == b'+' || (b == b'-' || (b == b'*' || (b == b'/' || b == b'%')))
}

fn begins_test(b: u8) -> bool
    ensures { result ≡ begins_test b }
{
    b == b'<'
        || (b == b'>'
            || (b == b'=' || (b == b'!' || (b == b'&' || (b == b'|' || (b == b'^' || b == b'?'))))))
}

/// Whether the token is an operator with a left operand.
pub fn is_operator(found: &str) -> bool
    ensures { result ≡ is_operator found.now }
{
    begins_sum(byte_of(found, 0)) || begins_test(byte_of(found, 0))
}

/// Whether a value stands behind the token.
pub fn wants_value(token: &str) -> bool
    ensures { result ≡ wants_value token.now }
{
    is_operator(token) || (byte_of(token, 0) == b':' || byte_of(token, 0) == b'~')
}
