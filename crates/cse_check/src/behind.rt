//! Where an instruction can go on, and which equations can be there.

ghost use Rattle.std.specs.Prelude.{◌≡◌, ◌↔◌, ◌<◌, IsTrue};
ghost use Rattle.rtl_passes_facts.specs.Fits.{ArgumentsFit};
ghost use Rattle.rtl_passes_facts.specs.Edges.{nodes_of};
ghost use Rattle.cse_check_rules.specs.Equations.{successors_of};
ghost use Rattle.cse_check_rules.specs.Rules.{RightFits, EquationFits};

use cse_check_rules::{Equation, RightSide};
use rtl_passes_facts::{Arguments, Edges, Instruction};

/// Where the instruction can go on.
pub(crate) fn edges(instruction: &Instruction) -> Edges
    ensures { nodes_of result ≡ successors_of instruction.now }
{
    match instruction {
        Instruction::Do { successor, .. } | Instruction::Call { successor, .. } => {
            Edges::OneNode(*successor)
        }
        Instruction::Branch { taken, other, .. } => Edges::TwoNodes(*taken, *other),
        Instruction::Return { .. } => Edges::NoNode,
    }
}

/// Whether the equation names what can be there, among so many registers.
pub(crate) fn fits(registers: u16, equation: &Equation) -> bool
    ensures { IsTrue result ↔ EquationFits registers equation.now }
{
    equation.register < registers && right_fits(registers, &equation.right)
}

fn right_fits(registers: u16, right: &RightSide) -> bool
    ensures { IsTrue result ↔ RightFits registers right.now }
{
    match right {
        RightSide::Operation { op, arguments } => {
            arguments_fit(registers, op.argument_count(), arguments)
        }
        RightSide::Cell { global, index } => *global < 1024 && *index < registers,
        RightSide::Copy { source } => *source < registers,
    }
}

fn arguments_fit(registers: u16, count: usize, arguments: &Arguments) -> bool
    ensures { IsTrue result ↔ ArgumentsFit registers count arguments.now }
{
    match *arguments {
        Arguments::One(first) => count == 1 && first < registers,
        Arguments::Two(first, second) => count == 2 && first < registers && second < registers,
    }
}
