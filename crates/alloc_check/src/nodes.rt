//! The block that does what an instruction does.

ghost use Rattle.std.specs.Prelude.{◌≡◌, map, IfOk};
ghost use Rattle.alloc_check.specs.Slots.{slot, before_in, body_in, block_in};

use crate::blocks::{
    act_after, act_before, act_in, arguments_before, arguments_in, fetch_one, none,
};
use lang_base::{NoMemory, Row};
use locations::{Location, Move};
use ltl::{Block, Body};
use rtl_acts::Register;
use rtl_language::Instruction;
use std::alloc::Global;

/// The slots of these registers.
pub(crate) fn slots_of(alloc: Global, registers: &[Register]) -> Result<Row<Location>, NoMemory>
    ensures { IfOk result (λ locations. locations ≡ map slot registers.now) }
{
    let mut locations = Vec::new(alloc);
    for register in registers {
        locations.push(Location::InSlot(*register))?;
    }
    Ok(Row::from_vec(locations))
}

fn before_in(alloc: Global, instruction: &Instruction) -> Result<Row<Move>, NoMemory>
    ensures { IfOk result (λ moves. moves ≡ before_in instruction.now) }
{
    match instruction {
        Instruction::Do { act, .. } => act_before(alloc, act),
        Instruction::Call { .. } | Instruction::Return { value: None } => Ok(none(alloc)),
        Instruction::Branch { test, .. } => arguments_before(alloc, &test.arguments),
        Instruction::Return { value: Some(value) } => fetch_one(alloc, *value),
    }
}

fn body_in(alloc: Global, instruction: &Instruction) -> Result<Body, NoMemory>
    ensures { IfOk result (λ body. body ≡ body_in instruction.now) }
{
    match instruction {
        Instruction::Do { act, successor } => {
            let after = act_after(alloc, act)?;
            Ok(Body::Go {
                act: act_in(act),
                after,
                successor: *successor,
            })
        }
        Instruction::Call {
            function,
            arguments,
            target,
            successor,
        } => {
            let arguments = slots_of(alloc, arguments.as_slice())?;
            Ok(Body::Call {
                function: *function,
                arguments,
                target: target.map(Location::InSlot),
                after: none(alloc),
                successor: *successor,
            })
        }
        Instruction::Branch { test, taken, other } => Ok(Body::Branch {
            test: machine::Test {
                condition: test.condition,
                arguments: arguments_in(&test.arguments),
            },
            taken: *taken,
            other: *other,
        }),
        Instruction::Return { value: None } => Ok(Body::Return { value: None }),
        Instruction::Return { value: Some(_) } => Ok(Body::Return { value: Some(0) }),
    }
}

pub(crate) fn block_in(alloc: Global, instruction: &Instruction) -> Result<Block, NoMemory>
    ensures { IfOk result (λ block. block ≡ block_in instruction.now) }
{
    let before = before_in(alloc, instruction)?;
    let body = body_in(alloc, instruction)?;
    Ok(Block { before, body })
}
