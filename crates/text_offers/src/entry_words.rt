//! What certificates say at a node: facts, equations of RTL, and where registers of RTL lie.

ghost use Rattle.lang_base.specs.Texts.{Appends};
ghost use Rattle.text_keys.specs.Lines.{spaced};
ghost use Rattle.text_offers.specs.Entries.{constant_words, fact_words, right_words, equation_words, place_words};

use crate::writing::EntryWords;
use constprop_check_rules::Fact;
use cse_check_rules::RightSide;
use lang_base::NoMemory;
use text_common::word_of_location;
use text_keys::{Key, Word, push_key, push_word};
use text_rtl::{push_load, push_operate, word_of_register};

/// A constant, as what gives it.
fn push_constant(out: &mut Vec<u8>, word: u32) -> Result<(), NoMemory>
    ensures { Appends result (spaced (constant_words word)) out.old.items out.new.items }
{
    push_key(out, Key::Constant)?;
    push_word(out, Word::Number(u64::from(word)))
}

/// Pass 1: a register holds a word.
pub(crate) struct Constant;

impl EntryWords for Constant {
    type Entry = Fact;

    ghost words = { fact_words };

    fn push(out: &mut Vec<u8>, entry: &Fact) -> Result<(), NoMemory> {
        push_word(out, word_of_register(entry.register))?;
        push_key(out, Key::Is)?;
        push_constant(out, entry.word)
    }
}

/// What stands right of an equation.
fn push_right(out: &mut Vec<u8>, right: &RightSide) -> Result<(), NoMemory>
    ensures { Appends result (spaced (right_words right.now)) out.old.items out.new.items }
{
    match right {
        RightSide::Operation { op, arguments } => push_operate(out, *op, arguments),
        RightSide::Cell {
            global: number,
            index,
        } => push_load(out, *number, *index),
        RightSide::Copy { source } => {
            push_key(out, Key::Move)?;
            push_word(out, word_of_register(*source))
        }
    }
}

/// Pass 2: a register holds what the right side gives.
pub(crate) struct Equal;

impl EntryWords for Equal {
    type Entry = cse_check_rules::Equation;

    ghost words = { equation_words };

    fn push(out: &mut Vec<u8>, entry: &cse_check_rules::Equation) -> Result<(), NoMemory> {
        push_word(out, word_of_register(entry.register))?;
        push_key(out, Key::Is)?;
        push_right(out, &entry.right)
    }
}

/// Pass 3: a location holds a register's word.
pub(crate) struct Placed;

impl EntryWords for Placed {
    type Entry = alloc_check_rules::Equation;

    ghost words = { place_words };

    fn push(out: &mut Vec<u8>, entry: &alloc_check_rules::Equation) -> Result<(), NoMemory> {
        push_word(out, word_of_register(entry.register))?;
        push_key(out, Key::Is)?;
        push_word(out, word_of_location(entry.location))
    }
}
