//! Parts of a line, and numbers in it.

ghost use Rattle.std.specs.Prelude.{◌≡◌, ◌<◌, ◌^◌, ℕ, ◌++◌, ◌∷◌, List, Some, IsNone, IfSome, MatchOption, codes};
ghost use Rattle.std.specs.List.{before_first};
ghost use Rattle.std.specs.Fmt.{decimal};
ghost use Rattle.cfarm_sim_lines.specs.Texts.{HasNoFront, is_byte};

use std::str;

/// What stands before the byte where it stands first, and what stands behind it there.
pub fn split_at_byte(bytes: &[u8], byte: u8) -> Option<(&[u8], &[u8])>
    ensures some { IfSome result (λ parts. bytes.now ≡ parts.0.now ++ byte ∷ parts.1.now) }
    ensures first { IfSome result (λ parts. parts.0.now ≡ before_first (is_byte byte) bytes.now) }
    ensures none { IsNone result → before_first (is_byte byte) bytes.now ≡ bytes.now }
{
    let mut length = 0;
    while length < bytes.len() && bytes[length] != byte {
        length += 1;
    }
    if length == bytes.len() {
        return None;
    }
    let (front, back) = bytes.split_at(length);
    Some((front, &back[1..]))
}

/// A number that these digits spell; where they spell none it may be any.
pub(crate) fn number_in(digits: &[u8]) -> Option<u64>
    ensures { (n : ℕ) → n < 2 ^ 64 → digits.now ≡ decimal n → result ≡ Some n }
{
    let Ok(text) = str::from_utf8(digits) else {
        return None;
    };
    text.parse().ok()
}

/// What stands behind the word with which the line begins, if it begins so.
pub(crate) fn behind<'a>(line: &'a [u8], word: &[u8]) -> Option<&'a [u8]>
    ensures { MatchOption result (HasNoFront line.now word.now) (λ rest. line.now ≡ word.now ++ rest.now) }
{
    line.strip_prefix(word)
}
