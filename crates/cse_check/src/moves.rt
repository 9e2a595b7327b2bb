//! Whether the output is a move that the equations allow.

ghost use Rattle.std.specs.Prelude.{◌≡◌, ◌↔◌, IsTrue, Contains};
ghost use Rattle.cse_check_rules.specs.Rules.{IsShared};
ghost use Rattle.cse_check.specs.Sources.{act_source_of, source_of, IsSharedFrom};

use cse_check_rules::{Equation, share};
use rtl_passes_facts::{Act, Instruction, Register, is_same};

fn act_source(act: &Act) -> Option<Register>
    ensures { result ≡ act_source_of act.now }
{
    match act {
        Act::Move { source, .. } => Some(*source),
        _ => None,
    }
}

/// The register that is moved from, where the instruction is a move.
fn moved_from(instruction: &Instruction) -> Option<Register>
    ensures { result ≡ source_of instruction.now }
{
    match instruction {
        Instruction::Do { act, .. } => act_source(act),
        _ => None,
    }
}

/// Whether the equation is among these.
fn is_among(equations: &[Equation], equation: Equation) -> bool
    ensures { IsTrue result ↔ Contains equations.now equation }
{
    for other in equations {
        if cse_check_rules::is_same(*other, equation) {
            return true;
        }
    }
    false
}

/// Whether the output is the move from this register, and one of the equations allows it.
fn is_shared_from(
    equations: &[Equation],
    input: &Instruction,
    output: &Instruction,
    source: Register,
) -> bool
    ensures { IsTrue result ↔ IsSharedFrom equations.now input.now output.now source }
{
    match share(input, source) {
        Some((equation, other)) => is_same(&other, output) && is_among(equations, equation),
        None => false,
    }
}

/// Whether the output is a move that one of the equations allows.
pub(crate) fn is_shared(equations: &[Equation], input: &Instruction, output: &Instruction) -> bool
    ensures { IsTrue result ↔ IsShared equations.now input.now output.now }
{
    match moved_from(output) {
        Some(source) => is_shared_from(equations, input, output, source),
        None => false,
    }
}
