//! Which instructions can be left out, since what they define is not used.

use crate::register_set::RegisterSet;
use lang_base::NoMemory;
use rand_core::utils::NextWord;
use rand_pcg::Pcg32;
use rtl_acts::{Act, Register};
use rtl_language::Instruction;
use std::alloc::Global;

fn is_live(live: &[RegisterSet], node: u16, register: Register) -> bool {
    match live.get(usize::from(node)) {
        Some(set) => set.has(register),
        None => false,
    }
}

/// Whether nothing is to be done for the instruction: its result is not used behind it, and it is a
/// move, or else the next word is odd.
fn is_needless(live: &[RegisterSet], instruction: &Instruction, draws: &mut Pcg32) -> bool {
    let Instruction::Do { act, successor } = instruction else {
        return false;
    };
    match act {
        Act::Move { target, .. } => !is_live(live, *successor, *target),
        Act::Constant { target, .. } | Act::Operate { target, .. } | Act::Load { target, .. } => {
            !is_live(live, *successor, *target) && draws.next_word() % 2 == 1
        }
        Act::Nop | Act::Store { .. } | Act::Put { .. } => false,
    }
}

/// For each node whether nothing is to be done there, with these registers live before each.
pub(crate) fn needless(
    alloc: Global,
    nodes: &[Instruction],
    live: &[RegisterSet],
    draws: &mut Pcg32,
) -> Result<Vec<bool>, NoMemory> {
    let mut told = Vec::new(alloc);
    for instruction in nodes {
        told.push(is_needless(live, instruction, draws))?;
    }
    Ok(told)
}
