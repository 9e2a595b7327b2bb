ghost use Rattle.std.specs.Prelude.{◌≡◌, All, length, IfOk};
ghost use Rattle.rtl_language.specs.Function.{InstructionFits};

use lang_base::{NoMemory, Row};
use rtl_language::{Function, Instruction};
use std::alloc::Global;

/// The function with these instructions, which are in range and as many as its own.
pub fn with_nodes(
    alloc: Global,
    input: &Function,
    nodes: Vec<Instruction>,
) -> Result<Function, NoMemory>
    requires count { length nodes.items ≡ length input.now.nodes }
    requires fit { All (InstructionFits input.now.registers (length input.now.nodes)) nodes.items }
    ensures { IfOk result (λ made. made ≡ record input.now { nodes = nodes.items }) }
{
    let _nodes = input.nodes();
    let parameters = input.parameters().copied(alloc)?;
    Ok(Function::new(
        parameters,
        input.registers(),
        input.entry(),
        Row::from_vec(nodes),
    ))
}
