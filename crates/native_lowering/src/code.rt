//! The code of a function: its opening, a block for each instruction, and a stop.

ghost use Rattle.std.specs.Prelude.{◌≡◌, IfOk, length};
ghost use Rattle.std.specs.List.{AllByRecursion};
ghost use Rattle.linear_language.specs.Function.{InstructionFits};
ghost use Rattle.native_lowering_definition.specs.Facts.{no_facts};
ghost use Rattle.native_lowering_definition.specs.Lowering.{joined, blocks, code_of, function_of};
ghost use Rattle.native_lowering_code.specs.Adding.{Adds};

use lang_base::{NoMemory, Program, Row};
use linear_language::{Function as Linear, Instruction as LinearInstruction};
use native_lowering_blocks::{Around, add_block, add_opening, known_at};
use native_lowering_code::{Facts, after};
use std::alloc::Global;
use x86_syntax::{Function, Instruction};

/// The blocks of a code, one behind the other.
fn add_blocks(
    out: &mut Vec<Instruction>,
    around: &Around<'_>,
    code: &[LinearInstruction],
) -> Result<(), NoMemory>
    requires { AllByRecursion (InstructionFits around.now.frame.slots) code.now }
    ensures { Adds result (joined (blocks around.now no_facts code.now)) out.old.items out.new.items }
{
    let mut facts = Facts::none();
    for instruction in code {
        let known = known_at(around, &facts, instruction);
        add_block(out, around, &known, instruction)?;
        facts = after(instruction, &known);
    }
    Ok(())
}

/// The code of a function.
fn lower_code(
    alloc: Global,
    program: &Program<Linear>,
    function: &Linear,
) -> Result<Vec<Instruction>, NoMemory>
    ensures { IfOk result (λ code. code.items ≡ code_of program.now function.now) }
{
    let code = function.code().as_slice();
    let around = Around::of(alloc, program, function)?;
    let mut out = Vec::new(alloc);
    add_opening(&mut out, around.frame(), function.parameters().as_slice())?;
    add_blocks(&mut out, &around, code)?;
    out.push(Instruction::Stop)?;
    Ok(out)
}

/// How many parameters it has.
fn count_parameters(function: &Linear) -> u8
    ensures { result ≡ length function.now.parameters }
{
    let _in_range = function.code();
    function.parameters().len() as u8
}

/// A function of native code.
pub(crate) fn lower_function(
    alloc: Global,
    program: &Program<Linear>,
    function: &Linear,
) -> Result<Function, NoMemory>
    ensures { IfOk result (λ lowered. lowered ≡ function_of program.now function.now) }
{
    let code = lower_code(alloc, program, function)?;
    Ok(Function {
        parameters: count_parameters(function),
        code: Row::from_vec(code),
    })
}
