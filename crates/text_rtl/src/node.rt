//! Nodes, a line each.

ghost use Rattle.std.specs.Prelude.{◌++◌, codes, decimal};
ghost use Rattle.lang_base.specs.Texts.{Appends};
ghost use Rattle.text_keys.specs.Lines.{spaced};
ghost use Rattle.text_rtl.specs.Shown.{left, right, behind, call_words, shown_node};

use crate::acts::{InRegister, push_act_right, push_target, push_test, push_value, target_of};
use lang_base::NoMemory;
use rtl_acts::Register;
use rtl_language::Instruction;
use text_keys::{
    Key, Letter, Word, WriteNumbered, end_line, push_bytes, push_count, push_each_word, push_key,
    push_number, push_word,
};

/// Where what a node gives goes, before what it does.
fn push_left(out: &mut Vec<u8>, instruction: &Instruction) -> Result<(), NoMemory>
    ensures { Appends result (spaced (left instruction.now)) out.old.items out.new.items }
{
    match instruction {
        Instruction::Do { act, .. } => push_target(out, target_of(act)),
        Instruction::Call { target, .. } => push_target(out, *target),
        Instruction::Branch { .. } => Ok(()),
        Instruction::Return { .. } => Ok(()),
    }
}

/// A call: the function's number, and the arguments.
fn push_call(out: &mut Vec<u8>, function: u8, arguments: &[Register]) -> Result<(), NoMemory>
    ensures { Appends result (spaced (call_words function arguments.now)) out.old.items out.new.items }
{
    push_key(out, Key::Call)?;
    push_word(out, Word::Lettered(Letter::Function, u64::from(function)))?;
    push_each_word::<InRegister>(out, arguments)
}

/// What a node does.
fn push_right(out: &mut Vec<u8>, instruction: &Instruction) -> Result<(), NoMemory>
    ensures { Appends result (spaced (right instruction.now)) out.old.items out.new.items }
{
    match instruction {
        Instruction::Do { act, .. } => push_act_right(out, act),
        Instruction::Call {
            function,
            arguments,
            ..
        } => push_call(out, *function, arguments.as_slice()),
        Instruction::Branch { test, .. } => {
            push_key(out, Key::If)?;
            push_test(out, test)
        }
        Instruction::Return { value } => {
            push_key(out, Key::Return)?;
            push_value(out, *value)
        }
    }
}

/// Where a node goes on.
fn push_behind(out: &mut Vec<u8>, instruction: &Instruction) -> Result<(), NoMemory>
    ensures { Appends result (spaced (behind instruction.now)) out.old.items out.new.items }
{
    match instruction {
        Instruction::Do { successor, .. } => push_count(out, Key::Then, *successor),
        Instruction::Call { successor, .. } => push_count(out, Key::Then, *successor),
        Instruction::Branch { taken, other, .. } => {
            push_key(out, Key::Then)?;
            push_word(out, Word::Number(u64::from(*taken)))?;
            push_word(out, Word::Number(u64::from(*other)))
        }
        Instruction::Return { .. } => Ok(()),
    }
}

/// The number that a line begins with.
fn push_place(out: &mut Vec<u8>, number: u64) -> Result<(), NoMemory>
    ensures { Appends result (codes "  " ++ decimal number) out.old.items out.new.items }
{
    push_bytes(out, b"  ")?;
    push_number(out, number)
}

/// The line of a node.
pub(crate) struct Line;

impl WriteNumbered for Line {
    type Item = Instruction;

    ghost text = { shown_node };

    fn push(out: &mut Vec<u8>, number: u64, item: &Instruction) -> Result<(), NoMemory> {
        push_place(out, number)?;
        push_left(out, item)?;
        push_right(out, item)?;
        push_behind(out, item)?;
        end_line(out)
    }
}
