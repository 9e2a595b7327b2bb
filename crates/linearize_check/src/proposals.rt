//! Orders that anybody proposes, and the functions that are laid out by them.

ghost use Rattle.std.specs.Prelude.{◌≡◌, ◌↔◌, ◌<◌, All, length, Some, slice_get, IsTrue, IfOk, IsSome, IfSome};
ghost use Rattle.linearize_check_proof.specs.Rules.{IsLaidOut};
ghost use Rattle.linearize_check_proof.specs.Orders.{ListsNodes, IsOrder};

use crate::faults::lowest_disordered;
use crate::order::Order;
use lang_base::NoMemory;
use linearize_check_layout::lay_out_function;
use std::alloc::Global;

/// The function laid out by the order that is proposed, with the order as its certificate, where
/// the order is allowed.
pub fn arrange(
    alloc: Global,
    input: &ltl::Function,
    nodes: Vec<u16>,
) -> Result<Option<(linear_language::Function, Order)>, NoMemory>
    ensures allowed { IfOk result (λ made. IsSome made ↔ IsOrder input.now nodes.items) }
    ensures laid_out { IfOk result (λ made. IfSome made (λ pair. IsLaidOut input.now pair.0 pair.1)) }
    ensures order { IfOk result (λ made. IfSome made (λ pair. pair.1 ≡ nodes.items)) }
{
    if !is_order(alloc, input, nodes.as_slice())? {
        return Ok(None);
    }
    let output = lay_out_function(alloc, input, nodes.as_slice())?;
    Ok(Some((output, Order::from_vec(nodes))))
}

/// Whether the function can be laid out by the order.
fn is_order(alloc: Global, input: &ltl::Function, nodes: &[u16]) -> Result<bool, NoMemory>
    ensures { IfOk result (λ yes. IsTrue yes ↔ IsOrder input.now nodes.now) }
{
    if !lists_nodes(input, nodes) {
        return Ok(false);
    }
    let disordered = lowest_disordered(alloc, input.blocks().as_slice(), nodes)?;
    Ok(disordered.is_none())
}

/// Whether the numbers are not too many, each a node, and the entry first.
pub(crate) fn lists_nodes(input: &ltl::Function, nodes: &[u16]) -> bool
    ensures { IsTrue result ↔ ListsNodes input.now nodes.now }
{
    nodes.len() <= usize::from(u16::MAX)
        && is_first(nodes, input.entry())
        && are_below(nodes, input.blocks().len())
}

fn is_first(nodes: &[u16], entry: u16) -> bool
    ensures { IsTrue result ↔ (slice_get nodes.now 0 ≡ Some entry) }
{
    match nodes {
        [first, _rest @ ..] => *first == entry,
        [] => false,
    }
}

fn are_below(nodes: &[u16], count: usize) -> bool
    ensures { IsTrue result ↔ All (λ n. n < count) nodes.now }
{
    nodes.iter().all(|node| usize::from(*node) < count)
}
