ghost use Rattle.oracle_facts.specs.Ranges.{MayBecome};

use crate::numbering::Numbering;
use cse_check::{Cse, Equation, RightSide, kills, made, share};
use oracle_facts::Follows;
use rtl_acts::Register;
use rtl_language::Instruction;

impl Follows for Numbering {
    type Of = Cse;

    fn is_kept(instruction: &Instruction, equation: &Equation) -> bool {
        !kills(instruction, equation)
    }

    fn made(&self, instruction: &Instruction, _equations: &[Equation]) -> Option<Equation> {
        match made(instruction) {
            Some(new) if self.is_worth(new) => Some(new),
            _ => None,
        }
    }

    fn allowed(
        registers: u16,
        instruction: &Instruction,
        equations: &[Equation],
    ) -> Option<Instruction> {
        allowed(registers, instruction, equations)
    }
}

/// The move that the first of the equations allows which allows one.
fn allowed(registers: u16, instruction: &Instruction, equations: &[Equation]) -> Option<Instruction>
    ensures { MayBecome registers instruction.now result }
{
    for equation in equations {
        let moved = allowed_by(registers, instruction, *equation);
        if moved.is_some() {
            return moved;
        }
    }
    None
}

/// The register that holds what is looked for, where the equation tells it: for a copy the source.
fn holder(equation: Equation) -> Register {
    match equation.right {
        RightSide::Copy { source } => source,
        _ => equation.register,
    }
}

fn allowed_by(registers: u16, instruction: &Instruction, equation: Equation) -> Option<Instruction>
    ensures { MayBecome registers instruction.now result }
{
    let source = holder(equation);
    if source >= registers {
        return None;
    }
    match share(instruction, source) {
        Some((wanted, moved)) if wanted == equation => Some(moved),
        _ => None,
    }
}
