//! Whether an output is laid out by an order, and where it is not.

ghost use Rattle.std.specs.Prelude.{◌≡◌, ◌↔◌, IsTrue, IfOk};
ghost use Rattle.linearize_check_proof.specs.Rules.{HasFrame, IsLaidOut};
ghost use Rattle.linearize_check.specs.Faults.{TellsFault};

use crate::faults::{lesser, lowest_disordered};
use crate::order::Order;
use crate::proposals::lists_nodes;
use crate::walk::walk_along;
use lang_base::{Fault, NoMemory};
use linearize_check_layout::Location;
use std::alloc::Global;

/// What is wrong with the output and the order, if anything is. `Shape`: the order does not begin with the entry, is
/// too long or names what is no node, the parameters or slots differ, or code stands behind the last stretch. `Node`: it
/// is listed twice, has a successor that is not listed, or its stretch is not what the output has in its place.
pub fn why(
    alloc: Global,
    input: &ltl::Function,
    output: &linear_language::Function,
    order: &Order,
) -> Result<Option<Fault>, NoMemory>
    ensures { IfOk result (TellsFault input.now output.now order.now) }
{
    let blocks = input.blocks().as_slice();
    let nodes = order.as_slice();
    if !lists_nodes(input, nodes) || !has_frame(input, output) {
        return Ok(Some(Fault::Shape));
    }
    let walk = walk_along(alloc, blocks, nodes, output.code().as_slice())?;
    if walk.is_longer {
        return Ok(Some(Fault::Shape));
    }
    let disordered = lowest_disordered(alloc, blocks, nodes)?;
    Ok(lesser(disordered, walk.misplaced).map(Fault::Node))
}

/// Whether the output is laid out by the order.
pub fn check(
    alloc: Global,
    input: &ltl::Function,
    output: &linear_language::Function,
    order: &Order,
) -> Result<bool, NoMemory>
    ensures { IfOk result (λ yes. IsTrue yes ↔ IsLaidOut input.now output.now order.now) }
{
    Ok(why(alloc, input, output, order)?.is_none())
}

/// Whether the parameters and the slots are the same.
fn has_frame(input: &ltl::Function, output: &linear_language::Function) -> bool
    ensures { IsTrue result ↔ HasFrame input.now output.now }
{
    are_same(
        output.parameters().as_slice(),
        input.parameters().as_slice(),
    ) && output.slots() == input.slots()
}

fn are_same(parameters: &[Location], others: &[Location]) -> bool
    ensures { IsTrue result ↔ (parameters.now ≡ others.now) }
{
    parameters == others
}
