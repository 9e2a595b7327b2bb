//! Which location each register gets: a register of the machine that none of those has which interfere
//! with it, or a slot of its own.

ghost use Rattle.std.specs.Prelude.{◌<◌, IfSome};

use crate::interference::Interference;
use crate::register_set::RegisterSet;
use lang_base::NoMemory;
use locations::{Location, REGISTER_COUNT, Register as MachineRegister};
use oracle_graphs::Assignment;
use rand_core::utils::NextWord;
use rand_pcg::Pcg32;
use rtl_acts::Register;
use std::alloc::Global;

/// The registers of the machine that words may lie in, by their bits: r2 to r7, since r0 and r1 hold
/// what comes from slots and goes there.
const FREE: u32 = 0b1111_1100;

/// Those that a call doesn't lose.
const KEPT: u32 = 0b1111_0000;

/// One register of so many is given a slot though it could have a register of the machine.
const SLOT_EVERY: u32 = 32;

/// A register of the machine: which registers lie there, and which may not since they interfere with
/// one of those.
#[derive(Drop)]
struct Holder {
    lying: RegisterSet,
    barred: RegisterSet,
}

/// A location for each register, which the words choose; none where there are too few slots.
pub(crate) fn assignment_for(
    alloc: Global,
    registers: u16,
    interference: &Interference,
    draws: &mut Pcg32,
) -> Result<Option<Assignment>, NoMemory> {
    let mut assignment = Assignment::none(alloc, registers)?;
    let mut holders = holders_of(alloc, registers)?;
    for register in 0..registers {
        let free = free_for(&holders, interference, register);
        match chosen(free, draws.next_word()) {
            Some(machine_register) => {
                hold(&mut holders, interference, register, machine_register);
                assignment.give(register, Location::InRegister(machine_register));
            }
            None => {
                if !assignment.give_slot(register) {
                    return Ok(None);
                }
            }
        }
    }
    Ok(Some(assignment))
}

fn holders_of(alloc: Global, registers: u16) -> Result<Vec<Holder>, NoMemory> {
    let mut holders = Vec::new(alloc);
    for _ in 0..REGISTER_COUNT {
        holders.push(Holder {
            lying: RegisterSet::none(alloc, registers)?,
            barred: RegisterSet::none(alloc, registers)?,
        })?;
    }
    Ok(holders)
}

/// The bits of the registers of the machine where the register may lie.
fn free_for(holders: &[Holder], interference: &Interference, register: Register) -> u32 {
    let mut free = if interference.is_kept(register) {
        KEPT
    } else {
        FREE
    };
    for machine_register in 0..REGISTER_COUNT {
        if let Some(holder) = holders.get(usize::from(machine_register))
            && holder.is_closed_to(interference, register)
        {
            free &= !(1 << machine_register);
        }
    }
    free
}

/// Lets the register lie in the register of the machine.
fn hold(
    holders: &mut [Holder],
    interference: &Interference,
    register: Register,
    machine_register: MachineRegister,
) {
    if let Some(holder) = holders.get_mut(usize::from(machine_register)) {
        holder.lying.add(register);
        if let Some(others) = interference.others(register) {
            let _is_new = holder.barred.join(others);
        }
    }
}

/// One of these registers of the machine, which the word chooses, or none.
fn chosen(free: u32, word: u32) -> Option<MachineRegister>
    ensures { IfSome result (λ r. r < 8) }
{
    let count = free.count_ones();
    if count == 0 || word % SLOT_EVERY == 0 {
        return None;
    }
    nth_of(free, word / SLOT_EVERY % count)
}

/// The register of the machine with this number, from 0, among those whose bits are set.
fn nth_of(bits: u32, nth: u32) -> Option<MachineRegister>
    ensures { IfSome result (λ r. r < 8) }
{
    let mut left = nth;
    for register in 0..REGISTER_COUNT {
        if bits & (1 << register) != 0 {
            if left == 0 {
                return Some(register);
            }
            left -= 1;
        }
    }
    None
}

impl Holder {
    /// Whether one that lies there interferes with the register.
    fn is_closed_to(&self, interference: &Interference, register: Register) -> bool {
        if self.barred.has(register) {
            return true;
        }
        match interference.others(register) {
            Some(others) => others.meets(&self.lying),
            None => false,
        }
    }
}
