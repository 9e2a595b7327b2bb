//! The equations that a block needs for what its instruction uses.

ghost use Rattle.std.specs.Prelude.{◌≡◌, ◌++◌, map, slice_get, Some, OnOk};
ghost use Rattle.alloc_check_rules.specs.Equations.{back_equation};
ghost use Rattle.alloc_check_rules.specs.Pairs.{in_register, equations_of, arguments_used, act_uses, uses};

use crate::needed::push_before;
use alloc_check_blocks::TracedBlock;
use alloc_check_rules::{Act, Arguments, Body, Equation, Instruction, Register};
use lang_base::NoMemory;
use locations::{Location, Register as MachineRegister};

fn in_register(name: Register, machine_register: MachineRegister) -> Equation
    ensures { result ≡ in_register name machine_register }
{
    Equation {
        register: name,
        location: Location::InRegister(machine_register),
    }
}

/// The register and the location with this number in their lists.
pub fn pair_at(names: &[Register], locations: &[Location], k: usize) -> Option<Equation>
    ensures { result ≡ slice_get (equations_of names.now locations.now) k }
{
    if k >= names.len() {
        return None;
    }
    if k >= locations.len() {
        return None;
    }
    Some(Equation {
        register: names[k],
        location: locations[k],
    })
}

fn push_arguments(
    out: &mut Vec<Equation>,
    block: &TracedBlock,
    names: &Arguments,
    locations: &machine::Arguments,
) -> Result<(), NoMemory>
    ensures { OnOk result (out.new.items
        ≡ out.old.items ++ map (back_equation block.now.before) (arguments_used names.now locations.now)) }
{
    match *names {
        Arguments::One(a) => match *locations {
            machine::Arguments::One(k) => push_before(out, block, in_register(a, k))?,
            machine::Arguments::Two(_, _) => {}
        },
        Arguments::Two(a, b) => match *locations {
            machine::Arguments::One(_) => {}
            machine::Arguments::Two(k, m) => {
                push_before(out, block, in_register(a, k))?;
                push_before(out, block, in_register(b, m))?;
            }
        },
    }
    Ok(())
}

fn push_act(
    out: &mut Vec<Equation>,
    block: &TracedBlock,
    act: &Act,
    other: &machine::Act,
) -> Result<(), NoMemory>
    ensures { OnOk result (out.new.items
        ≡ out.old.items ++ map (back_equation block.now.before) (act_uses act.now (Some other.now))) }
{
    match act {
        Act::Nop | Act::Constant { .. } | Act::Move { .. } => {}
        Act::Operate { arguments, .. } => {
            if let machine::Act::Operate {
                arguments: locations,
                ..
            } = other
            {
                push_arguments(out, block, arguments, locations)?;
            }
        }
        Act::Load { index, .. } => {
            if let machine::Act::Load {
                index: machine_register,
                ..
            } = other
            {
                push_before(out, block, in_register(*index, *machine_register))?;
            }
        }
        Act::Store { index, source, .. } => {
            if let machine::Act::Store {
                index: machine_register,
                source: from,
                ..
            } = other
            {
                push_before(out, block, in_register(*index, *machine_register))?;
                push_before(out, block, in_register(*source, *from))?;
            }
        }
        Act::Put { source, .. } => {
            if let machine::Act::Put {
                source: machine_register,
                ..
            } = other
            {
                push_before(out, block, in_register(*source, *machine_register))?;
            }
        }
    }
    Ok(())
}

fn push_each(
    out: &mut Vec<Equation>,
    block: &TracedBlock,
    names: &[Register],
    locations: &[Location],
) -> Result<(), NoMemory>
    ensures { OnOk result (out.new.items
        ≡ out.old.items ++ map (back_equation block.now.before) (equations_of names.now locations.now)) }
{
    for k in 0..names.len() {
        let Some(equation) = pair_at(names, locations, k) else {
            return Ok(());
        };
        push_before(out, block, equation)?;
    }
    Ok(())
}

/// Adds for each word that is used the equation before the block by which it lies where the block looks
/// for it.
pub(crate) fn push_uses(
    out: &mut Vec<Equation>,
    block: &TracedBlock,
    instruction: &Instruction,
    body: &Body,
) -> Result<(), NoMemory>
    ensures { OnOk result (out.new.items
        ≡ out.old.items ++ map (back_equation block.now.before) (uses instruction.now body.now)) }
{
    match instruction {
        Instruction::Do { act, .. } => {
            if let Body::Go {
                act: Some(other),
                ..
            } = body
            {
                push_act(out, block, act, other)?;
            }
        }
        Instruction::Call { arguments, .. } => {
            if let Body::Call {
                arguments: locations,
                ..
            } = body
            {
                push_each(out, block, arguments.as_slice(), locations.as_slice())?;
            }
        }
        Instruction::Branch { test, .. } => {
            if let Body::Branch { test: other, .. } = body {
                push_arguments(out, block, &test.arguments, &other.arguments)?;
            }
        }
        Instruction::Return { value: Some(name) } => {
            if let Body::Return {
                value: Some(machine_register),
            } = body
            {
                push_before(out, block, in_register(*name, *machine_register))?;
            }
        }
        Instruction::Return { value: None } => {}
    }
    Ok(())
}
