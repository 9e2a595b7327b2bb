//! What an instruction defines and uses, and where it goes on.

use crate::register_set::RegisterSet;
use oracle_graphs::Edges;
use rtl_acts::{Act, Arguments, Register};
use rtl_language::Instruction;

/// Where an instruction can go on.
pub fn edges_of(instruction: &Instruction) -> Edges {
    match instruction {
        Instruction::Do { successor, .. } | Instruction::Call { successor, .. } => Edges {
            first: Some(*successor),
            second: None,
        },
        Instruction::Branch { taken, other, .. } => Edges {
            first: Some(*taken),
            second: Some(*other),
        },
        Instruction::Return { .. } => Edges {
            first: None,
            second: None,
        },
    }
}

fn target_of(act: &Act) -> Option<Register> {
    match act {
        Act::Nop | Act::Store { .. } => None,
        Act::Constant { target, .. }
        | Act::Move { target, .. }
        | Act::Operate { target, .. }
        | Act::Load { target, .. } => Some(*target),
        Act::Put { target, .. } => *target,
    }
}

/// The register that the instruction defines, if it defines one.
pub fn defined_by(instruction: &Instruction) -> Option<Register> {
    match instruction {
        Instruction::Do { act, .. } => target_of(act),
        Instruction::Call { target, .. } => *target,
        Instruction::Branch { .. } | Instruction::Return { .. } => None,
    }
}

/// The register that the instruction copies, if it is a move.
pub fn copied_by(instruction: &Instruction) -> Option<Register> {
    match instruction {
        Instruction::Do {
            act: Act::Move { source, .. },
            ..
        } => Some(*source),
        _ => None,
    }
}

fn add_arguments(set: &mut RegisterSet, arguments: &Arguments) {
    match arguments {
        Arguments::One(first) => set.add(*first),
        Arguments::Two(first, second) => {
            set.add(*first);
            set.add(*second);
        }
    }
}

fn add_uses_of_act(set: &mut RegisterSet, act: &Act) {
    match act {
        Act::Nop | Act::Constant { .. } => {}
        Act::Move { source, .. } | Act::Put { source, .. } => set.add(*source),
        Act::Operate { arguments, .. } => add_arguments(set, arguments),
        Act::Load { index, .. } => set.add(*index),
        Act::Store { index, source, .. } => {
            set.add(*index);
            set.add(*source);
        }
    }
}

/// Adds the registers that the instruction uses.
pub(crate) fn add_uses(set: &mut RegisterSet, instruction: &Instruction) {
    match instruction {
        Instruction::Do { act, .. } => add_uses_of_act(set, act),
        Instruction::Call { arguments, .. } => {
            for argument in arguments.as_slice() {
                set.add(*argument);
            }
        }
        Instruction::Branch { test, .. } => add_arguments(set, &test.arguments),
        Instruction::Return { value } => {
            if let Some(register) = value {
                set.add(*register);
            }
        }
    }
}
