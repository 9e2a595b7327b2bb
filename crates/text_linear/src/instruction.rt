//! Instructions, a line each.

ghost use Rattle.lang_base.specs.Texts.{Appends};
ghost use Rattle.text_keys.specs.Lines.{spaced};
ghost use Rattle.text_linear.specs.Shown.{left, right, behind, call_words, branch_words, return_words, shown_instruction};

use lang_base::NoMemory;
use lang_helpers::WriteOne;
use linear_language::Instruction;
use locations::{Location, Register};
use machine::Test;
use text_common::{
    Located, push_act_left, push_act_right, push_target, push_test, push_told, push_value,
    word_of_location,
};
use text_keys::{
    Key, Letter, Word, end_line, push_bytes, push_count, push_each_word, push_key, push_word,
};

/// Where what an instruction gives goes, before what it does.
fn push_left(out: &mut Vec<u8>, instruction: &Instruction) -> Result<(), NoMemory>
    ensures { Appends result (spaced (left instruction.now)) out.old.items out.new.items }
{
    match instruction {
        Instruction::Do { act } => push_act_left(out, act),
        Instruction::Copy { step } => push_target(out, Some(step.target)),
        Instruction::Call { target, .. } => push_target(out, *target),
        Instruction::Branch { .. }
        | Instruction::Return { .. }
        | Instruction::Label { .. }
        | Instruction::Goto { .. } => Ok(()),
    }
}

/// A call: the function's number, and where the arguments lie.
fn push_call(out: &mut Vec<u8>, function: u8, arguments: &[Location]) -> Result<(), NoMemory>
    ensures { Appends result (spaced (call_words function arguments.now)) out.old.items out.new.items }
{
    push_key(out, Key::Call)?;
    push_word(out, Word::Lettered(Letter::Function, u64::from(function)))?;
    push_each_word::<Located>(out, arguments)
}

/// What a branch asks.
fn push_branch(out: &mut Vec<u8>, test: &Test) -> Result<(), NoMemory>
    ensures { Appends result (spaced (branch_words test.now)) out.old.items out.new.items }
{
    push_key(out, Key::If)?;
    push_test(out, test)
}

/// A return, and what it gives.
fn push_return(out: &mut Vec<u8>, value: Option<Register>) -> Result<(), NoMemory>
    ensures { Appends result (spaced (return_words value)) out.old.items out.new.items }
{
    push_key(out, Key::Return)?;
    push_value(out, value)
}

/// What an instruction does.
fn push_right(out: &mut Vec<u8>, instruction: &Instruction) -> Result<(), NoMemory>
    ensures { Appends result (spaced (right instruction.now)) out.old.items out.new.items }
{
    match instruction {
        Instruction::Do { act } => push_act_right(out, act),
        Instruction::Copy { step } => push_told(out, Key::Move, word_of_location(step.source)),
        Instruction::Call {
            function,
            arguments,
            ..
        } => push_call(out, *function, arguments.as_slice()),
        Instruction::Branch { test, .. } => push_branch(out, test),
        Instruction::Return { value } => push_return(out, *value),
        Instruction::Label { label } => push_count(out, Key::Label, *label),
        Instruction::Goto { label } => push_count(out, Key::Goto, *label),
    }
}

/// Where a branch goes on.
fn push_behind(out: &mut Vec<u8>, instruction: &Instruction) -> Result<(), NoMemory>
    ensures { Appends result (spaced (behind instruction.now)) out.old.items out.new.items }
{
    match instruction {
        Instruction::Branch { label, .. } => push_count(out, Key::Goto, *label),
        _ => Ok(()),
    }
}

/// Writes the line of an instruction at the end of `out`; where memory runs out, a beginning of it is written.
pub fn push_instruction(out: &mut Vec<u8>, instruction: &Instruction) -> Result<(), NoMemory>
    ensures { Appends result (shown_instruction instruction.now) out.old.items out.new.items }
{
    push_bytes(out, b" ")?;
    push_left(out, instruction)?;
    push_right(out, instruction)?;
    push_behind(out, instruction)?;
    end_line(out)
}

/// The line of an instruction.
pub(crate) struct Line;

impl WriteOne for Line {
    type Item = Instruction;

    ghost text = { shown_instruction };

    fn push(out: &mut Vec<u8>, item: &Instruction) -> Result<(), NoMemory> {
        push_instruction(out, item)
    }
}
