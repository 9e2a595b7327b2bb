//! Hints at bytes that begin no token, at numbers, and at what there is too much of.

ghost use Rattle.std.specs.Prelude.{◌≡◌};
ghost use Rattle.std.specs.Char.{is_ascii_digit};
ghost use Rattle.std.specs.Cmp.Lexicographic.{slice_cmp};
ghost use Rattle.std.specs.List.{list_all};
ghost use Rattle.std.specs.Ordering.{nat_cmp};
ghost use Rattle.c_hints.specs.Limits.{limit_hint};
ghost use Rattle.c_hints.specs.Numbers.{byte_hint, is_binary, is_decimal, is_long, is_not_greater, is_word_sized, number_hint};

use c_hints_words::{Before, byte_of};
use std::cmp::Ordering;

/// What is said of a byte that begins no token, and of the word behind it.
pub(crate) fn byte_hint(found: &str, behind: &str) -> &'static str
    ensures { result.now ≡ byte_hint found.now behind.now }
{
    if found == "#" && behind == "define" {
        "there is no preprocessor: write a global in place of the constant, `int n = 8;`"
    } else if found == "#" {
        "there is no preprocessor: write the prototypes, `int putchar(int);`"
    } else if found == "\"" {
        "there are no strings: print each character, `putchar('h');`"
    } else if found == "." {
        "there are no floating constants, no members and no variable arguments"
    } else if found == "\\" {
        "there are no line splices"
    } else {
        ""
    }
}

fn is_binary(found: &str) -> bool
    ensures { result ≡ is_binary found.now }
{
    byte_of(found, 0) == b'0' && (byte_of(found, 1) == b'b' || byte_of(found, 1) == b'B')
}

fn is_long(found: &str) -> bool
    ensures { result ≡ is_long found.now }
{
    let last = byte_of(found, found.len().saturating_sub(1));
    last == b'l' || last == b'L'
}

fn is_digit(byte: u8) -> bool
    ensures { result ≡ is_ascii_digit byte }
{
    byte.is_ascii_digit()
}

fn has_digits(bytes: &[u8]) -> bool
    ensures { result ≡ list_all is_ascii_digit bytes.now }
{
    bytes.iter().all(|byte| is_digit(*byte))
}

fn is_decimal(found: &str) -> bool
    ensures { result ≡ is_decimal found.now }
{
    has_digits(found.as_bytes())
}

fn order_of<'a>(one: &'a str, other: &'a str) -> Ordering
    ensures { result ≡ slice_cmp nat_cmp one.now other.now }
{
    Ord::cmp(&one, &other)
}

fn is_not_greater(order: Ordering) -> bool
    ensures { result ≡ is_not_greater order }
{
    match order {
        Ordering::Less | Ordering::Equal => true,
        Ordering::Greater => false,
    }
}

/// Whether decimal digits without 0 in front say no more than the largest word.
fn is_word_sized(digits: &str) -> bool
    ensures { result ≡ is_word_sized digits.now }
{
    digits.len() < 10 || digits.len() == 10 && is_not_greater(order_of(digits, "4294967295"))
}

/// What is said of a number that fits no type, or has more behind it.
pub(crate) fn number_hint(found: &str) -> &'static str
    ensures { result.now ≡ number_hint found.now }
{
    if is_binary(found) {
        "there are no binary constants: write it in hexadecimal, `0x5`"
    } else if is_long(found) {
        "there is no `long`: leave out the `L`"
    } else if is_decimal(found) && byte_of(found, 0) == b'0' {
        "a number that begins with 0 is octal: leave out the 0"
    } else if is_decimal(found) && is_word_sized(found) {
        "more than an `int` holds: with a `u` behind it, it is `unsigned`"
    } else if is_decimal(found) {
        "more than a word holds, which is at most 4294967295u"
    } else {
        ""
    }
}

/// Which limit the name of a declaration passes, by the token behind it and those in front.
pub(crate) fn limit_hint(found: &str, behind: &str, before: &Before<'_>) -> &'static str
    ensures { result.now ≡ limit_hint found.now behind.now before.now }
{
    if found.len() > 255 {
        "a name has at most 255 letters"
    } else if behind == "[" {
        "an array has 1 to 65,536 cells, and all globals have at most 65,536, at most 1,024 of them"
    } else if before.parentheses > 0 {
        "a function has at most 16 parameters"
    } else if before.braces > 0 {
        "a function has at most 256 variables of its own, its parameters among them"
    } else if behind == "(" {
        "there are at most 64 functions with bodies"
    } else {
        "there are at most 1,024 globals, with at most 65,536 cells"
    }
}
