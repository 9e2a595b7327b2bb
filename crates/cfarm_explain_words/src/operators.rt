//! Operators without a value, as they are told.

ghost use Rattle.std.specs.Prelude.{◌≡◌};
ghost use Rattle.lang_base.specs.Texts.{Appends};
ghost use Rattle.cfarm_explain_words.specs.Operators.{sign_of, is_shift, is_division, is_unsigned, is_int_left};
ghost use Rattle.cfarm_explain_words.specs.Operators.{first_text, division_text, shift_text, left_text, range_text, two_text, one_text};

use crate::numbers::{is_negative, push_index, push_int};
use ints::Op;
use lang_base::NoMemory;
use text_keys::{push_bytes, push_number};

/// The sign of an operator on two words, as it is written between them.
fn sign_of(op: Op) -> &'static [u8]
    ensures { result.now ≡ sign_of op }
{
    match op {
        Op::AddS => b" + ",
        Op::SubS => b" - ",
        Op::MulS => b" * ",
        Op::DivS | Op::DivU => b" / ",
        Op::ModS | Op::ModU => b" % ",
        Op::ShlS | Op::ShlU => b" << ",
        Op::ShrS | Op::ShrU => b" >> ",
        _ => b" with ",
    }
}

fn is_shift(op: Op) -> bool
    ensures { result ≡ is_shift op }
{
    match op {
        Op::ShlS | Op::ShlU | Op::ShrS | Op::ShrU => true,
        _ => false,
    }
}

fn is_division(op: Op) -> bool
    ensures { result ≡ is_division op }
{
    match op {
        Op::DivS | Op::DivU | Op::ModS | Op::ModU => true,
        _ => false,
    }
}

/// Whether an operator's first word is `unsigned`.
fn is_unsigned(op: Op) -> bool
    ensures { result ≡ is_unsigned op }
{
    match op {
        Op::DivU | Op::ModU | Op::ShlU | Op::ShrU => true,
        _ => false,
    }
}

fn is_int_left(op: Op) -> bool
    ensures { result ≡ is_int_left op }
{
    match op {
        Op::ShlS => true,
        _ => false,
    }
}

/// Writes the first word of an operator.
fn push_first(out: &mut Vec<u8>, op: Op, word: u32) -> Result<(), NoMemory>
    ensures { Appends result (first_text op word) out.old.items out.new.items }
{
    if is_unsigned(op) {
        push_number(out, u64::from(word))
    } else {
        push_int(out, word)
    }
}

fn push_division(out: &mut Vec<u8>, op: Op, word: u32) -> Result<(), NoMemory>
    ensures { Appends result (division_text op word) out.old.items out.new.items }
{
    push_first(out, op, word)?;
    push_bytes(out, sign_of(op))?;
    push_bytes(out, b"0 divides by zero")
}

fn push_shift(out: &mut Vec<u8>, op: Op, first: u32, second: u32) -> Result<(), NoMemory>
    ensures { Appends result (shift_text op first second) out.old.items out.new.items }
{
    push_first(out, op, first)?;
    push_bytes(out, sign_of(op))?;
    push_index(out, second)?;
    push_bytes(out, b" shifts by no number from 0 to 31")
}

fn push_left(out: &mut Vec<u8>, first: u32, second: u32) -> Result<(), NoMemory>
    ensures { Appends result (left_text first second) out.old.items out.new.items }
{
    push_int(out, first)?;
    push_bytes(out, b" << ")?;
    push_int(out, second)?;
    push_bytes(out, b" shifts a negative number to the left")
}

fn push_range(out: &mut Vec<u8>, op: Op, first: u32, second: u32) -> Result<(), NoMemory>
    ensures { Appends result (range_text op first second) out.old.items out.new.items }
{
    push_int(out, first)?;
    push_bytes(out, sign_of(op))?;
    push_int(out, second)?;
    push_bytes(out, b" is out of int's range")
}

/// Writes why an operator has no value for two words.
pub fn push_two(out: &mut Vec<u8>, op: Op, first: u32, second: u32) -> Result<(), NoMemory>
    ensures { Appends result (two_text op first second) out.old.items out.new.items }
{
    if is_shift(op) && 32 <= second {
        push_shift(out, op, first, second)
    } else if is_int_left(op) && is_negative(first) {
        push_left(out, first, second)
    } else if is_division(op) && second == 0 {
        push_division(out, op, first)
    } else {
        push_range(out, op, first, second)
    }
}

/// Writes why the operator has no value for one word.
pub fn push_one(out: &mut Vec<u8>, word: u32) -> Result<(), NoMemory>
    ensures { Appends result (one_text word) out.old.items out.new.items }
{
    push_bytes(out, b"-(")?;
    push_int(out, word)?;
    push_bytes(out, b") is out of int's range")
}
