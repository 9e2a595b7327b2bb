//! What an instruction uses, what it defines and where it goes on.

ghost use Rattle.std.specs.Prelude.{◌≡◌, ◌++◌, slice_get, OnOk};
ghost use Rattle.alloc_check_rules.specs.Pairs.{successors_of};
ghost use Rattle.alloc_check_live.specs.Liveness.{named, used_by_act, used_by, defined_by_act, defined_by};
ghost use Rattle.alloc_check_live.specs.Walks.{defines};

use lang_base::NoMemory;
use rtl_acts::{Act, Arguments, Register};
use rtl_language::Instruction;

fn push_named(out: &mut Vec<Register>, arguments: &Arguments) -> Result<(), NoMemory>
    ensures { OnOk result (out.new.items ≡ out.old.items ++ named arguments.now) }
{
    match *arguments {
        Arguments::One(a) => out.push(a)?,
        Arguments::Two(a, b) => {
            out.push(a)?;
            out.push(b)?;
        }
    }
    Ok(())
}

fn push_used_by_act(out: &mut Vec<Register>, act: &Act) -> Result<(), NoMemory>
    ensures { OnOk result (out.new.items ≡ out.old.items ++ used_by_act act.now) }
{
    match act {
        Act::Nop | Act::Constant { .. } => {}
        Act::Move { source, .. } | Act::Put { source, .. } => out.push(*source)?,
        Act::Operate { arguments, .. } => push_named(out, arguments)?,
        Act::Load { index, .. } => out.push(*index)?,
        Act::Store { index, source, .. } => {
            out.push(*index)?;
            out.push(*source)?;
        }
    }
    Ok(())
}

/// Adds the registers that the instruction uses.
pub(crate) fn push_used(out: &mut Vec<Register>, instruction: &Instruction) -> Result<(), NoMemory>
    ensures { OnOk result (out.new.items ≡ out.old.items ++ used_by instruction.now) }
{
    match instruction {
        Instruction::Do { act, .. } => push_used_by_act(out, act)?,
        Instruction::Call { arguments, .. } => out.extend_from_slice(arguments.as_slice())?,
        Instruction::Branch { test, .. } => push_named(out, &test.arguments)?,
        Instruction::Return { value: Some(value) } => out.push(*value)?,
        Instruction::Return { value: None } => {}
    }
    Ok(())
}

/// Adds the nodes where the instruction can go on.
pub(crate) fn push_successors(out: &mut Vec<u16>, instruction: &Instruction) -> Result<(), NoMemory>
    ensures { OnOk result (out.new.items ≡ out.old.items ++ successors_of instruction.now) }
{
    match instruction {
        Instruction::Do { successor, .. } | Instruction::Call { successor, .. } => {
            out.push(*successor)?
        }
        Instruction::Branch { taken, other, .. } => {
            out.push(*taken)?;
            out.push(*other)?;
        }
        Instruction::Return { .. } => {}
    }
    Ok(())
}

fn defined_by_act(act: &Act) -> Option<Register>
    ensures { result ≡ defined_by_act act.now }
{
    match *act {
        Act::Nop | Act::Store { .. } => None,
        Act::Constant { target, .. }
        | Act::Move { target, .. }
        | Act::Operate { target, .. }
        | Act::Load { target, .. } => Some(target),
        Act::Put { target, .. } => target,
    }
}

fn defined_by(instruction: &Instruction) -> Option<Register>
    ensures { result ≡ defined_by instruction.now }
{
    match instruction {
        Instruction::Do { act, .. } => defined_by_act(act),
        Instruction::Call { target, .. } => *target,
        Instruction::Branch { .. } | Instruction::Return { .. } => None,
    }
}

/// Whether the node defines the register.
pub(crate) fn defines(nodes: &[Instruction], node: u16, register: Register) -> bool
    ensures { result ≡ defines (slice_get nodes.now node) register }
{
    let Some(instruction) = nodes.get(usize::from(node)) else {
        return false;
    };
    match defined_by(instruction) {
        Some(defined) => defined == register,
        None => false,
    }
}
