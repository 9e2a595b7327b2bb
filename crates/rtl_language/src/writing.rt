//! Writers of the parts of a function: each appends the text.

ghost use Rattle.std.specs.Prelude.{◌≤◌, length};
ghost use Rattle.lang_base.specs.Texts.{Appends};
ghost use Rattle.rtl_acts.specs.Fits.{argument_limit};
ghost use Rattle.rtl_language.specs.declared.instruction.Instruction.TheVariants.{Call, Branch};
ghost use Rattle.rtl_language.specs.Function.{HasShortList};
ghost use Rattle.rtl_language.specs.Spelling.{instruction_text, spelling};

use crate::function::Function;
use crate::instruction::Instruction;
use lang_base::{NoMemory, push_byte, push_u16};
use lang_helpers::{WriteOne, push_each};
use rtl_acts::{Register, Test, push_act, push_frame, push_registers, push_target, push_test};

/// A call: the function, the arguments, the target, and the successor.
fn push_call(
    out: &mut Vec<u8>,
    function: u8,
    arguments: &[Register],
    target: Option<Register>,
    successor: u16,
) -> Result<(), NoMemory>
    requires { length arguments.now ≤ argument_limit }
    ensures { Appends result (instruction_text (Call function arguments.now target successor)) out.old.items out.new.items }
{
    push_byte(out, 6)?;
    push_byte(out, function)?;
    push_registers(out, arguments)?;
    push_target(out, target)?;
    push_u16(out, successor)
}

/// A test, where to go on where it holds, and where else.
fn push_branch(out: &mut Vec<u8>, test: &Test, taken: u16, other: u16) -> Result<(), NoMemory>
    ensures { Appends result (instruction_text (Branch test.now taken other)) out.old.items out.new.items }
{
    push_byte(out, 8)?;
    push_test(out, test)?;
    push_u16(out, taken)?;
    push_u16(out, other)
}

fn push_instruction(out: &mut Vec<u8>, instruction: &Instruction) -> Result<(), NoMemory>
    requires { HasShortList instruction.now }
    ensures { Appends result (instruction_text instruction.now) out.old.items out.new.items }
{
    match instruction {
        Instruction::Do { act, successor } => {
            push_act(out, act)?;
            push_u16(out, *successor)
        }
        Instruction::Call {
            function,
            arguments,
            target,
            successor,
        } => {
            let arguments = arguments.as_slice();
            push_call(out, *function, arguments, *target, *successor)
        }
        Instruction::Branch { test, taken, other } => push_branch(out, test, *taken, *other),
        Instruction::Return { value } => {
            push_byte(out, 9)?;
            push_target(out, *value)
        }
    }
}

impl WriteOne for Instruction {
    type Item = Instruction;

    ghost text = { instruction_text };

    ghost is_short = { HasShortList };

    fn push(out: &mut Vec<u8>, item: &Instruction) -> Result<(), NoMemory> {
        push_instruction(out, item)
    }
}

/// A function, its tag first.
pub fn push_function(out: &mut Vec<u8>, function: &Function) -> Result<(), NoMemory>
    ensures { Appends result (spelling function.now) out.old.items out.new.items }
{
    let nodes = function.nodes().as_slice();
    push_byte(out, 2)?;
    push_frame(out, function.parameters().as_slice(), function.registers())?;
    push_u16(out, function.entry())?;
    push_u16(out, nodes.len() as u16)?;
    push_each::<Instruction>(out, nodes)
}
