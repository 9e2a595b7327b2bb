use oracle_alloc::{RegisterSet, copied_by, edges_of};
use oracle_facts::Chooses;
use rtl_acts::Register;
use rtl_language::Instruction;

/// The registers that are live before each node, by which changes are chosen.
#[derive(Drop)]
pub(crate) struct Worthwhile {
    pub live: Vec<RegisterSet>,
}

impl Worthwhile {
    /// Whether the register is used behind the instruction in any case.
    fn is_used_behind(&self, instruction: &Instruction, register: Register) -> bool {
        match edges_of(instruction).first {
            None => false,
            Some(behind) => match self.live.get(usize::from(behind)) {
                None => false,
                Some(live) => live.has(register),
            },
        }
    }
}

impl Chooses for Worthwhile {
    /// A move from a register that is used behind it in any case keeps none for itself alone.
    fn is_taken(&mut self, instruction: &Instruction, simpler: &Instruction) -> bool {
        match copied_by(simpler) {
            None => true,
            Some(source) => self.is_used_behind(instruction, source),
        }
    }
}
