//! Integer constants (C99 6.4.4.1).

ghost use Rattle.std.specs.Prelude.{◌≡◌, ◌<◌, ◌≤◌, length};
ghost use Rattle.c_lexer_lexemes.specs.Numbers.{digit_worth, number_of, is_hexadecimal, begins_with_zero, magnitude_of, is_suffixed, constant_of};

use c_syntax::{Constant, IntegerType};

/// The values of `int` are below it.
const INT_LIMIT: u32 = 0x8000_0000;

/// What a byte is worth as a digit; 16 where it is none.
fn digit_worth(b: u8) -> u8
    ensures value { result ≡ digit_worth b }
    ensures bound { result ≤ 16 }
{
    match b {
        b'0'..=b'9' => b - b'0',
        b'a'..=b'f' => b - b'a' + 10,
        b'A'..=b'F' => b - b'A' + 10,
        _ => 16,
    }
}

/// The number below 2^32 that one digit or more of a base stand for.
fn number(base: u8, digits: &[u8]) -> Option<u32>
    requires small { base ≤ 16 }
    requires positive { 0 < base }
    ensures { result ≡ number_of base digits.now }
{
    if digits.is_empty() {
        return None;
    }
    let mut sum = 0u64;
    for digit in digits {
        let worth = digit_worth(*digit);
        if worth >= base {
            return None;
        }
        sum = sum * u64::from(base) + u64::from(worth);
        if sum > u64::from(u32::MAX) {
            return None;
        }
    }
    Some(sum as u32)
}

/// The number that a word without its suffix stands for.
fn magnitude(word: &[u8]) -> Option<u32>
    ensures { result ≡ magnitude_of word.now }
{
    if is_hexadecimal(word) {
        number(16, &word[2..])
    } else if begins_with_zero(word) {
        number(8, word)
    } else {
        number(10, word)
    }
}

fn is_hexadecimal(word: &[u8]) -> bool
    ensures { result ≡ is_hexadecimal word.now }
{
    word.len() > 1 && word[0] == b'0' && (word[1] == b'x' || word[1] == b'X')
}

fn begins_with_zero(word: &[u8]) -> bool
    ensures { result ≡ begins_with_zero word.now }
{
    !word.is_empty() && word[0] == b'0'
}

fn is_suffixed(word: &[u8]) -> bool
    ensures { result ≡ is_suffixed word.now }
{
    match word {
        [.., last] => *last == b'u' || *last == b'U',
        [] => false,
    }
}

/// The constant that a word spells, if it spells one.
pub fn constant(word: &[u8]) -> Option<Constant>
    requires { 0 < length word.now }
    ensures { result ≡ constant_of word.now }
{
    if is_suffixed(word) {
        let value = magnitude(&word[..word.len() - 1])?;
        Some(Constant {
            value,
            kind: IntegerType::Unsigned,
        })
    } else {
        let value = magnitude(word)?;
        if value < INT_LIMIT {
            Some(Constant {
                value,
                kind: IntegerType::Int,
            })
        } else if begins_with_zero(word) {
            Some(Constant {
                value,
                kind: IntegerType::Unsigned,
            })
        } else {
            None
        }
    }
}
