//! Writers of the parts of a function: each appends the text.

ghost use Rattle.lang_base.specs.Texts.{Appends};
ghost use Rattle.linear_language.specs.Function.{HasShortList};
ghost use Rattle.linear_language.specs.Spelling.{instruction_text, spelling};

use crate::function::Function;
use crate::instruction::Instruction;
use lang_base::{NoMemory, push_byte, push_u16, push_u32};
use lang_helpers::{WriteOne, push_each};
use locations::{push_call, push_frame, push_move, push_value};
use machine::{push_act, push_test};

fn push_instruction(out: &mut Vec<u8>, instruction: &Instruction) -> Result<(), NoMemory>
    requires { HasShortList instruction.now }
    ensures { Appends result (instruction_text instruction.now) out.old.items out.new.items }
{
    match instruction {
        Instruction::Do { act } => push_act(out, act),
        Instruction::Copy { step } => {
            push_byte(out, 2)?;
            push_move(out, step)
        }
        Instruction::Call {
            function,
            arguments,
            target,
        } => {
            push_byte(out, 6)?;
            push_call(out, *function, arguments.as_slice(), target)
        }
        Instruction::Branch { test, label } => {
            push_byte(out, 8)?;
            push_test(out, test)?;
            push_u16(out, *label)
        }
        Instruction::Return { value } => {
            push_byte(out, 9)?;
            push_value(out, *value)
        }
        Instruction::Label { label } => {
            push_byte(out, 10)?;
            push_u16(out, *label)
        }
        Instruction::Goto { label } => {
            push_byte(out, 11)?;
            push_u16(out, *label)
        }
    }
}

impl WriteOne for Instruction {
    type Item = Instruction;

    ghost text = { instruction_text };

    ghost is_short = { HasShortList };

    fn push(out: &mut Vec<u8>, item: &Instruction) -> Result<(), NoMemory> {
        push_instruction(out, item)
    }
}

/// A function, its tag first.
pub fn push_function(out: &mut Vec<u8>, function: &Function) -> Result<(), NoMemory>
    ensures { Appends result (spelling function.now) out.old.items out.new.items }
{
    let code = function.code().as_slice();
    push_byte(out, 4)?;
    push_frame(out, function.parameters().as_slice(), function.slots())?;
    push_u32(out, code.len() as u32)?;
    push_each::<Instruction>(out, code)
}
