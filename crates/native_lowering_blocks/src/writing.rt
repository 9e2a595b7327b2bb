//! The block of an instruction.

ghost use Rattle.std.specs.Prelude.{◌≡◌};
ghost use Rattle.linear_language.specs.Function.{InstructionFits};
ghost use Rattle.native_lowering_definition.specs.Blocks.{block};
ghost use Rattle.native_lowering_definition.specs.Lowering.{known_at};
ghost use Rattle.native_lowering_code.specs.Adding.{Adds};

use crate::acting::add_act;
use crate::around::Around;
use crate::calling::add_call;
use crate::leaving::add_return;
use crate::testing::{add_branch, jump};
use lang_base::NoMemory;
use linear_language::Instruction as Linear;
use native_lowering_code::{Facts, add};
use native_lowering_frames::add_move;
use x86_syntax::Instruction;

/// What is known at an instruction, where this is known behind what stands above it: nothing at a label that is named.
pub fn known_at(around: &Around<'_>, facts: &Facts, instruction: &Linear) -> Facts
    ensures { result ≡ known_at around.now.code facts.now instruction.now }
{
    match instruction {
        Linear::Label { label } => {
            if around.is_named(*label) {
                Facts::none()
            } else {
                facts.again()
            }
        }
        Linear::Do { .. } => facts.again(),
        Linear::Copy { .. } => facts.again(),
        Linear::Call { .. } => facts.again(),
        Linear::Branch { .. } => facts.again(),
        Linear::Return { .. } => facts.again(),
        Linear::Goto { .. } => facts.again(),
    }
}

/// The block of an instruction before which this is known.
pub fn add_block(
    out: &mut Vec<Instruction>,
    around: &Around<'_>,
    facts: &Facts,
    instruction: &Linear,
) -> Result<(), NoMemory>
    requires { InstructionFits around.now.frame.slots instruction.now }
    ensures { Adds result (block around.now facts.now instruction.now) out.old.items out.new.items }
{
    let frame = around.frame();
    match instruction {
        Linear::Do { act } => add_act(out, around, facts, *act),
        Linear::Copy { step } => add_move(out, frame, step.target, step.source),
        Linear::Call {
            function,
            arguments,
            target,
        } => {
            let arity = around.arity_of(*function);
            add_call(out, frame, *function, arguments.as_slice(), *target, arity)
        }
        Linear::Branch { test, label } => add_branch(out, around, facts, *test, *label),
        Linear::Return { value } => add_return(out, frame, *value),
        Linear::Label { label } => add(out, &[Instruction::Label { label: *label }]),
        Linear::Goto { label } => add(out, &[jump(around, *label)]),
    }
}
