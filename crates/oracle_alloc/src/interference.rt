//! Which registers may not lie in one location, and which not in those that a call loses (Chaitin 1982).

use crate::liveness::set_live_behind;
use crate::parts::{copied_by, defined_by};
use crate::register_set::RegisterSet;
use lang_base::NoMemory;
use rtl_acts::Register;
use rtl_language::{Function, Instruction};
use std::alloc::Global;

/// For each register those that are live where it is defined, and the registers that are live over a
/// call.
#[derive(Drop)]
pub(crate) struct Interference {
    others: Vec<RegisterSet>,
    kept: RegisterSet,
}

/// The interference of a function with what is live before each of its nodes.
pub(crate) fn interference_of(
    alloc: Global,
    input: &Function,
    live: &[RegisterSet],
) -> Result<Interference, NoMemory> {
    let registers = input.registers();
    let mut found = Interference::none(alloc, registers)?;
    let mut behind = RegisterSet::none(alloc, registers)?;
    for instruction in input.nodes().as_slice() {
        set_live_behind(&mut behind, live, instruction);
        found.note(instruction, &mut behind);
    }
    found.note_entry(alloc, input, live)?;
    Ok(found)
}

impl Interference {
    fn none(alloc: Global, registers: u16) -> Result<Interference, NoMemory> {
        let mut others = Vec::new(alloc);
        for _ in 0..registers {
            others.push(RegisterSet::none(alloc, registers)?)?;
        }
        Ok(Interference {
            others,
            kept: RegisterSet::none(alloc, registers)?,
        })
    }

    /// Whether the register is live over a call.
    pub fn is_kept(&self, register: Register) -> bool {
        self.kept.has(register)
    }

    /// The registers that may not lie where this one does. Of two that interfere one has the other among
    /// these, and not always each the other.
    pub fn others(&self, register: Register) -> Option<&RegisterSet> {
        self.others.get(usize::from(register))
    }

    /// What is live behind an instruction is not where that puts its result; but for a move what it
    /// copies may be.
    fn note(&mut self, instruction: &Instruction, behind: &mut RegisterSet) {
        if let Some(register) = defined_by(instruction) {
            behind.remove(register);
        }
        if let Instruction::Call { .. } = instruction {
            let _is_new = self.kept.join(behind);
        }
        if let Some(source) = copied_by(instruction) {
            behind.remove(source);
        }
        if let Some(register) = defined_by(instruction) {
            self.part(register, behind);
        }
    }

    /// The register may not lie where these do.
    fn part(&mut self, register: Register, others: &RegisterSet) {
        if let Some(row) = self.others.get_mut(usize::from(register)) {
            let _is_new = row.join(others);
            row.remove(register);
        }
    }

    /// Each parameter lies where no other does, nor what is live at the entry.
    fn note_entry(
        &mut self,
        alloc: Global,
        input: &Function,
        live: &[RegisterSet],
    ) -> Result<(), NoMemory> {
        let mut given = RegisterSet::none(alloc, input.registers())?;
        if let Some(set) = live.get(usize::from(input.entry())) {
            let _is_new = given.join(set);
        }
        for parameter in input.parameters().as_slice() {
            given.add(*parameter);
        }
        for parameter in input.parameters().as_slice() {
            self.part(*parameter, &given);
        }
        Ok(())
    }
}
