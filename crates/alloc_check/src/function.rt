//! The function whose registers lie in slots of their own.

ghost use Rattle.std.specs.Prelude.{◌≡◌, ◌≤◌, map, IfOk};
ghost use Rattle.alloc_check_rules.specs.Rules.{baseline_limit};
ghost use Rattle.alloc_check.specs.Slots.{block_in, function_in};

use crate::nodes::{block_in, slots_of};
use lang_base::{NoMemory, Row};
use ltl::Block;
use rtl_language::Instruction;
use std::alloc::Global;

fn blocks_in(alloc: Global, nodes: &[Instruction]) -> Result<Vec<Block>, NoMemory>
    ensures { IfOk result (λ blocks. blocks.items ≡ map block_in nodes.now) }
{
    let mut blocks = Vec::new(alloc);
    for instruction in nodes {
        let block = block_in(alloc, instruction)?;
        blocks.push(block)?;
    }
    Ok(blocks)
}

/// The output, for an input with few registers.
pub(crate) fn function_in(
    alloc: Global,
    input: &rtl_language::Function,
) -> Result<ltl::Function, NoMemory>
    requires { input.now.registers ≤ baseline_limit }
    ensures { IfOk result (λ output. output ≡ function_in input.now) }
{
    let blocks = blocks_in(alloc, input.nodes().as_slice())?;
    let parameters = slots_of(alloc, input.parameters().as_slice())?;
    Ok(ltl::Function::new(
        parameters,
        input.registers(),
        input.entry(),
        Row::from_vec(blocks),
    ))
}
