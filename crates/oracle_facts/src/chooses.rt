use rand_core::utils::NextWord;
use rand_pcg::Pcg32;
use rtl_language::Instruction;

/// Who says which of the changes are made that facts allow. It is asked of each, by rising nodes.
pub trait Chooses {
    /// Whether the instruction is made the simpler one.
    fn is_taken(&mut self, instruction: &Instruction, simpler: &Instruction) -> bool;
}

/// A generator draws: those are made where its next word is odd.
impl Chooses for Pcg32 {
    fn is_taken(&mut self, _instruction: &Instruction, _simpler: &Instruction) -> bool {
        self.next_word() % 2 == 1
    }
}

/// All are made.
#[derive(Clone, Copy, Debug)]
pub struct Each;

impl Chooses for Each {
    fn is_taken(&mut self, _instruction: &Instruction, _simpler: &Instruction) -> bool {
        true
    }
}
