//! Which location each class gets: those that are named most for each node where they are live come first, and take a
//! register of the machine that is free all along; the others have slots.

use crate::classes::Classes;
use crate::lists::Lists;
use lang_base::NoMemory;
use locations::{Location, REGISTER_COUNT, Register as MachineRegister};
use oracle_graphs::Assignment;
use std::alloc::Global;

/// All registers of the machine, by their bits.
pub(crate) const ALL: u8 = 0b1111_1111;

/// Those that don't bring words from slots and there.
pub(crate) const BESIDE_SLOTS: u8 = 0b1111_1100;

/// Those that a call doesn't lose.
const KEPT: u8 = 0b1111_0000;

/// Which registers of the machine are taken before each node, and those that may be.
#[derive(Drop)]
pub(crate) struct Placing {
    taken: Vec<u8>,
    open: u8,
    heuristic: u8,
}

/// The classes that lie somewhere, the first to be placed last, each as a number whose low half it is.
fn ranked(alloc: Global, classes: &Classes, count: u16) -> Result<Vec<u64>, NoMemory> {
    let mut ranks = Vec::new(alloc);
    for class in 0..count {
        let size = u64::from(classes.lives.size(class));
        if size > 0 {
            let weight = classes.weight(class).min(u64::from(u32::MAX)) << 12;
            ranks.push(((weight / size) << 16) | u64::from(class))?;
        }
    }
    ranks.as_mut_slice().sort_unstable();
    Ok(ranks)
}

fn bit_of(register: MachineRegister) -> u8 {
    1u8.checked_shl(u32::from(register)).unwrap_or(0)
}

/// The first of the registers of the machine whose bits are set, from this one on and round.
fn first_from(bits: u8, from: u8) -> Option<MachineRegister> {
    for step in 0..REGISTER_COUNT {
        let register = from.wrapping_add(step) % REGISTER_COUNT;
        if bits & bit_of(register) != 0 {
            return Some(register);
        }
    }
    None
}

impl Placing {
    /// Nothing is taken of the registers that are open; the heuristic tells which of those that are free is taken first.
    fn new(alloc: Global, nodes: usize, open: u8, heuristic: u8) -> Result<Placing, NoMemory> {
        Ok(Placing {
            taken: vec![in alloc; 0; nodes]?,
            open,
            heuristic,
        })
    }

    /// The registers that are free all along a list.
    fn free_along(&self, lives: &Lists, class: u16) -> u8 {
        let mut free = self.open;
        let mut next = lives.first(class);
        for _ in 0..u64::MAX {
            let Some(at) = next else {
                break;
            };
            let (node, behind) = lives.at(at);
            next = behind;
            free &= !self.taken.get(usize::from(node)).copied().unwrap_or(0);
        }
        free
    }

    fn take_along(&mut self, lives: &Lists, class: u16, register: MachineRegister) {
        let mut next = lives.first(class);
        for _ in 0..u64::MAX {
            let Some(at) = next else {
                break;
            };
            let (node, behind) = lives.at(at);
            next = behind;
            if let Some(taken) = self.taken.get_mut(usize::from(node)) {
                *taken |= bit_of(register);
            }
        }
    }

    /// A register for a class: one that calls lose, where it may be and one is free.
    fn chosen(&self, classes: &Classes, class: u16) -> Option<MachineRegister> {
        let free = self.free_along(&classes.lives, class);
        if classes.is_kept(class) {
            return first_from(free & KEPT, self.heuristic);
        }
        match first_from(free & !KEPT, self.heuristic) {
            Some(register) => Some(register),
            None => first_from(free, self.heuristic),
        }
    }
}

/// Registers of the machine for the classes, and those that got none.
pub(crate) fn in_registers(
    alloc: Global,
    classes: &Classes,
    count: u16,
    nodes: usize,
    open: u8,
    heuristic: u8,
) -> Result<(Assignment, Vec<u16>), NoMemory> {
    let mut assignment = Assignment::none(alloc, count)?;
    let mut left = Vec::new(alloc);
    let mut placing = Placing::new(alloc, nodes, open, heuristic)?;
    let ranks = ranked(alloc, classes, count)?;
    for key in ranks.iter().rev() {
        let class = (*key & 0xffff) as u16;
        match placing.chosen(classes, class) {
            Some(register) => {
                placing.take_along(&classes.lives, class, register);
                assignment.give(class, Location::InRegister(register));
            }
            None => left.push(class)?,
        }
    }
    Ok((assignment, left))
}
