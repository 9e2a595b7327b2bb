//! Punctuators (C99 6.4.6), the longest first.

ghost use Rattle.std.specs.Prelude.{◌≡◌};
ghost use Rattle.c_lexer_lexemes.specs.Lookups.{row_of, alone, with_equals, doubled, pair, triple, longest_of};

use c_syntax::Punctuator;

fn alone(a: u8) -> Option<Punctuator>
    ensures { result ≡ row_of alone a }
{
    match a {
        b'(' => Some(Punctuator::LeftParenthesis),
        b')' => Some(Punctuator::RightParenthesis),
        b'{' => Some(Punctuator::LeftBrace),
        b'}' => Some(Punctuator::RightBrace),
        b'[' => Some(Punctuator::LeftBracket),
        b']' => Some(Punctuator::RightBracket),
        b';' => Some(Punctuator::Semicolon),
        b',' => Some(Punctuator::Comma),
        b'?' => Some(Punctuator::Question),
        b':' => Some(Punctuator::Colon),
        b'=' => Some(Punctuator::Assign),
        b'<' => Some(Punctuator::Less),
        b'>' => Some(Punctuator::Greater),
        b'+' => Some(Punctuator::Plus),
        b'-' => Some(Punctuator::Minus),
        b'*' => Some(Punctuator::Star),
        b'/' => Some(Punctuator::Slash),
        b'%' => Some(Punctuator::Percent),
        b'&' => Some(Punctuator::And),
        b'|' => Some(Punctuator::Or),
        b'^' => Some(Punctuator::Caret),
        b'~' => Some(Punctuator::Tilde),
        b'!' => Some(Punctuator::Exclamation),
        _ => None,
    }
}

fn with_equals(a: u8) -> Option<Punctuator>
    ensures { result ≡ row_of with_equals a }
{
    match a {
        b'=' => Some(Punctuator::Equal),
        b'!' => Some(Punctuator::NotEqual),
        b'<' => Some(Punctuator::LessEqual),
        b'>' => Some(Punctuator::GreaterEqual),
        b'+' => Some(Punctuator::PlusAssign),
        b'-' => Some(Punctuator::MinusAssign),
        b'*' => Some(Punctuator::StarAssign),
        b'/' => Some(Punctuator::SlashAssign),
        b'%' => Some(Punctuator::PercentAssign),
        b'&' => Some(Punctuator::AndAssign),
        b'|' => Some(Punctuator::OrAssign),
        b'^' => Some(Punctuator::CaretAssign),
        _ => None,
    }
}

fn doubled(a: u8) -> Option<Punctuator>
    ensures { result ≡ row_of doubled a }
{
    match a {
        b'<' => Some(Punctuator::ShiftLeft),
        b'>' => Some(Punctuator::ShiftRight),
        b'&' => Some(Punctuator::AndAnd),
        b'|' => Some(Punctuator::OrOr),
        b'+' => Some(Punctuator::Increment),
        b'-' => Some(Punctuator::Decrement),
        _ => None,
    }
}

fn pair(a: u8, b: u8) -> Option<Punctuator>
    ensures { result ≡ pair a b }
{
    if b == b'=' {
        with_equals(a)
    } else if b == a {
        doubled(a)
    } else {
        None
    }
}

fn triple(a: u8, b: u8, c: u8) -> Option<Punctuator>
    ensures { result ≡ triple a b c }
{
    if a == b'<' && b == b'<' && c == b'=' {
        Some(Punctuator::ShiftLeftAssign)
    } else if a == b'>' && b == b'>' && c == b'=' {
        Some(Punctuator::ShiftRightAssign)
    } else {
        None
    }
}

/// The longest punctuator that three bytes begin with, and its length.
pub fn longest_punctuator(a: u8, b: u8, c: u8) -> Option<(Punctuator, usize)>
    ensures { result ≡ longest_of a b c }
{
    if let Some(punctuator) = triple(a, b, c) {
        return Some((punctuator, 3));
    }
    if let Some(punctuator) = pair(a, b) {
        return Some((punctuator, 2));
    }
    let punctuator = alone(a)?;
    Some((punctuator, 1))
}
