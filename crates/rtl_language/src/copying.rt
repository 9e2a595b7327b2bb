//! Copies of functions and their parts, equal to what they were made from.

ghost use Rattle.std.specs.Prelude.{◌≡◌, IfOk};

use crate::function::Function;
use crate::instruction::Instruction;
use lang_base::{NoMemory, Row};
use lang_helpers::{CopyOne, copy_each};
use std::alloc::Global;

/// An equal instruction.
pub fn copy_instruction(alloc: Global, instruction: &Instruction) -> Result<Instruction, NoMemory>
    ensures { IfOk result (λ copied. copied ≡ instruction.now) }
{
    match instruction {
        Instruction::Do { act, successor } => Ok(Instruction::Do {
            act: *act,
            successor: *successor,
        }),
        Instruction::Call {
            function,
            arguments,
            target,
            successor,
        } => Ok(Instruction::Call {
            function: *function,
            arguments: arguments.copied(alloc)?,
            target: *target,
            successor: *successor,
        }),
        Instruction::Branch { test, taken, other } => Ok(Instruction::Branch {
            test: *test,
            taken: *taken,
            other: *other,
        }),
        Instruction::Return { value } => Ok(Instruction::Return { value: *value }),
    }
}

impl CopyOne for Instruction {
    type Item = Instruction;

    fn copy_one(alloc: Global, item: &Instruction) -> Result<Instruction, NoMemory> {
        copy_instruction(alloc, item)
    }
}

/// An equal function.
pub fn copy_function(alloc: Global, function: &Function) -> Result<Function, NoMemory>
    ensures { IfOk result (λ copied. copied ≡ function.now) }
{
    let parameters = function.parameters().copied(alloc)?;
    let nodes = copy_each::<Instruction>(alloc, function.nodes().as_slice())?;
    Ok(Function::new(
        parameters,
        function.registers(),
        function.entry(),
        Row::from_vec(nodes),
    ))
}
