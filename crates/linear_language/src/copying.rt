//! Copies of functions and their parts, equal to what they were made from.

ghost use Rattle.std.specs.Prelude.{◌≡◌, IfOk};

use crate::function::Function;
use crate::instruction::Instruction;
use lang_base::{NoMemory, Row};
use lang_helpers::{CopyOne, copy_each};
use std::alloc::Global;

/// An equal instruction.
fn copy_instruction(alloc: Global, instruction: &Instruction) -> Result<Instruction, NoMemory>
    ensures { IfOk result (λ copied. copied ≡ instruction.now) }
{
    match instruction {
        Instruction::Do { act } => Ok(Instruction::Do { act: *act }),
        Instruction::Copy { step } => Ok(Instruction::Copy { step: *step }),
        Instruction::Call {
            function,
            arguments,
            target,
        } => Ok(Instruction::Call {
            function: *function,
            arguments: arguments.copied(alloc)?,
            target: *target,
        }),
        Instruction::Branch { test, label } => Ok(Instruction::Branch {
            test: *test,
            label: *label,
        }),
        Instruction::Return { value } => Ok(Instruction::Return { value: *value }),
        Instruction::Label { label } => Ok(Instruction::Label { label: *label }),
        Instruction::Goto { label } => Ok(Instruction::Goto { label: *label }),
    }
}

impl CopyOne for Instruction {
    type Item = Instruction;

    fn copy_one(alloc: Global, item: &Instruction) -> Result<Instruction, NoMemory> {
        copy_instruction(alloc, item)
    }
}

/// An equal function.
pub fn copy_function(alloc: Global, function: &Function) -> Result<Function, NoMemory>
    ensures { IfOk result (λ copied. copied ≡ function.now) }
{
    let parameters = function.parameters().copied(alloc)?;
    let code = copy_each::<Instruction>(alloc, function.code().as_slice())?;
    Ok(Function::new(parameters, function.slots(), Row::from_vec(code)))
}
