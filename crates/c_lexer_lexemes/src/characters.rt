//! Character constants (C99 6.4.4.4).

ghost use Rattle.std.specs.Prelude.{◌≡◌};
ghost use Rattle.c_lexer_lexemes.specs.Characters.{is_plain, escape_of};
ghost use Rattle.c_lexer_lexemes.specs.Lookups.{character_of};

fn is_plain(c: u8) -> bool
    ensures { result ≡ is_plain c }
{
    32 <= c && c <= 126 && c != b'\'' && c != b'\\'
}

/// What a byte behind the backslash stands for.
fn escape_of(e: u8) -> Option<u8>
    ensures { result ≡ escape_of e }
{
    match e {
        b'n' => Some(10),
        b't' => Some(9),
        b'0' => Some(0),
        b'\\' => Some(b'\\'),
        b'\'' => Some(b'\''),
        b'"' => Some(b'"'),
        _ => None,
    }
}

/// The value of the character constant whose bytes behind the quote begin so, and its length.
pub fn character_value(a: u8, b: u8, c: u8) -> Option<(u8, usize)>
    ensures { result ≡ character_of a b c }
{
    if is_plain(a) && b == b'\'' {
        return Some((a, 3));
    }
    if a == b'\\' && c == b'\'' {
        let value = escape_of(b)?;
        return Some((value, 4));
    }
    None
}
