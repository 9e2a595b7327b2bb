use constprop_check::{ConstProp, Fact, fold, value, written};
use oracle_facts::Follows;
use rtl_language::Instruction;

/// Words that registers have: they are known behind what writes them, past branches that they decide.
#[derive(Clone, Copy)]
pub(crate) struct Constants;

impl Follows for Constants {
    type Of = ConstProp;

    fn is_kept(instruction: &Instruction, fact: &Fact) -> bool {
        written(instruction) != Some(fact.register)
    }

    fn made(&self, instruction: &Instruction, facts: &[Fact]) -> Option<Fact> {
        match (written(instruction), value(instruction, facts)) {
            (Some(register), Some(word)) => Some(Fact { register, word }),
            _ => None,
        }
    }

    fn allowed(_registers: u16, instruction: &Instruction, facts: &[Fact]) -> Option<Instruction> {
        fold(instruction, facts)
    }
}
