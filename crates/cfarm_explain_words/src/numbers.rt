//! Words as they are told.

ghost use Rattle.std.specs.Prelude.{◌≡◌, ◌-◌, ◌^◌, decimal};
ghost use Rattle.lang_base.specs.Texts.{Appends};
ghost use Rattle.cfarm_explain_words.specs.Operators.{both_text, is_negative, int_text, index_text};

use lang_base::NoMemory;
use text_keys::{push_bytes, push_number};

/// Whether a word is a negative `int`.
pub(crate) fn is_negative(word: u32) -> bool
    ensures { result ≡ is_negative word }
{
    0x8000_0000 <= word
}

/// How far below zero a negative `int` is.
fn push_below(out: &mut Vec<u8>, word: u32) -> Result<(), NoMemory>
    ensures { Appends result (decimal (2 ^ 32 - word)) out.old.items out.new.items }
{
    push_number(out, 0x1_0000_0000 - u64::from(word))
}

/// Writes an `int` with its sign.
pub(crate) fn push_int(out: &mut Vec<u8>, word: u32) -> Result<(), NoMemory>
    ensures { Appends result (int_text word) out.old.items out.new.items }
{
    if is_negative(word) {
        push_bytes(out, b"-")?;
        push_below(out, word)
    } else {
        push_number(out, u64::from(word))
    }
}

/// Writes a word as a negative `int` and as `unsigned`.
fn push_both(out: &mut Vec<u8>, word: u32) -> Result<(), NoMemory>
    ensures { Appends result (both_text word) out.old.items out.new.items }
{
    push_bytes(out, b"-")?;
    push_below(out, word)?;
    push_bytes(out, b" (unsigned ")?;
    push_number(out, u64::from(word))?;
    push_bytes(out, b")")
}

/// Writes a word that is `unsigned` or an `int`: one that is negative as an `int` as both.
pub fn push_index(out: &mut Vec<u8>, word: u32) -> Result<(), NoMemory>
    ensures { Appends result (index_text word) out.old.items out.new.items }
{
    if is_negative(word) {
        push_both(out, word)
    } else {
        push_number(out, u64::from(word))
    }
}
