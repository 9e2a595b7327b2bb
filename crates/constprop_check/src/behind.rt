//! What an instruction does to facts, and what the facts allow it to be made.

ghost use Rattle.std.specs.Prelude.{◌≡◌, ◌↔◌, IsTrue};
ghost use Rattle.rtl_passes_facts.specs.Edges.{nodes_of};
ghost use Rattle.constprop_check_rules.specs.Known.{names, decided, edges_of};
ghost use Rattle.constprop_check_rules.specs.Known.{arms as arms_of};
ghost use Rattle.constprop_check_rules.specs.Rules.{FactFits, IsFolded};
ghost use Rattle.constprop_check.specs.Behind.{change_of, makes, keeps};

use constprop_check_rules::{Fact, Register, Test, decision, fold, value, written};
use rtl_passes_facts::{Edges, Instruction, is_same};

/// The register that an instruction writes, if it writes one, and the word if it is known.
#[derive(Clone, Copy)]
pub struct Written {
    pub register: Option<Register>,
    pub word: Option<u32>,
}

pub(crate) fn change_by(instruction: &Instruction, facts: &[Fact]) -> Written
    ensures { result ≡ change_of instruction.now facts.now }
{
    Written {
        register: written(instruction),
        word: value(instruction, facts),
    }
}

/// Whether the fact speaks of one of so many registers.
pub(crate) fn fits(registers: u16, fact: Fact) -> bool
    ensures { IsTrue result ↔ FactFits registers fact }
{
    fact.register < registers
}

/// Whether the fact speaks of the register.
fn is_named(register: Option<Register>, fact: &Fact) -> bool
    ensures { result ≡ names register fact.now.register }
{
    match register {
        None => false,
        Some(target) => target == fact.register,
    }
}

/// The fact of the register that is written, if its word is known.
pub(crate) fn made(change: Written) -> Option<Fact>
    ensures { result ≡ makes change }
{
    match (change.register, change.word) {
        (Some(register), Some(word)) => Some(Fact { register, word }),
        _ => None,
    }
}

pub(crate) fn is_kept(change: Written, fact: &Fact) -> bool
    ensures { result ≡ keeps change fact.now }
{
    !is_named(change.register, fact)
}

fn arms(test: &Test, facts: &[Fact], taken: u16, other: u16) -> Edges
    ensures { nodes_of result ≡ arms_of taken other (decided test.now facts.now) }
{
    match decision(test, facts) {
        None => Edges::TwoNodes(taken, other),
        Some(true) => Edges::OneNode(taken),
        Some(false) => Edges::OneNode(other),
    }
}

/// Where the instruction can go on.
pub(crate) fn edges(instruction: &Instruction, facts: &[Fact]) -> Edges
    ensures { nodes_of result ≡ edges_of instruction.now facts.now }
{
    match instruction {
        Instruction::Do { successor, .. } | Instruction::Call { successor, .. } => {
            Edges::OneNode(*successor)
        }
        Instruction::Branch { test, taken, other } => arms(test, facts, *taken, *other),
        Instruction::Return { .. } => Edges::NoNode,
    }
}

/// Whether the output is what the facts allow the input to be made.
pub(crate) fn is_folded(facts: &[Fact], input: &Instruction, output: &Instruction) -> bool
    ensures { IsTrue result ↔ IsFolded facts.now input.now output.now }
{
    match fold(input, facts) {
        Some(folded) => is_same(&folded, output),
        None => false,
    }
}
