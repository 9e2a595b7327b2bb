ghost use Rattle.std.specs.Prelude.{◌≡◌, IfOk};
ghost use Rattle.linearize_check_layout.specs.Reach.{IsRising};
ghost use Rattle.linearize_check_proof.specs.Rules.{IsLaidOut};

use crate::order::Order;
use lang_base::NoMemory;
use linearize_check_layout::{lay_out_function, rising};
use std::alloc::Global;

/// The function laid out by the nodes that are reached, the entry first and the others rising.
pub fn baseline(
    alloc: Global,
    input: &ltl::Function,
) -> Result<(linear_language::Function, Order), NoMemory>
    ensures laid_out { IfOk result (λ made. IsLaidOut input.now made.0 made.1) }
    ensures rising { IfOk result (λ made. IsRising input.now made.1) }
{
    let nodes = rising(alloc, input)?;
    let output = lay_out_function(alloc, input, nodes.as_slice())?;
    Ok((output, Order::from_vec(nodes)))
}
