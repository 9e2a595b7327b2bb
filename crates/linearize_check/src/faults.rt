//! What is wrong with an order that anybody proposes.

ghost use Rattle.std.specs.Prelude.{◌≡◌, ◌+◌, ◌<◌, ◌≤◌, ◌^◌, ◌↔◌, false, Some, slice_get, All, length, drop, IsTrue, IfOk};
ghost use Rattle.linearize_check_proof.specs.Layout.{order_code, successors_of};
ghost use Rattle.linearize_check_layout.specs.Marks.{IsMarked, AreMarked};
ghost use Rattle.linearize_check.specs.Faults.{IsFreshAt, IsClosedAt, IsOrderedAt, TellsLowest, lesser};

use lang_base::NoMemory;
use linearize_check_layout::block_at;
use ltl::{Block, Body};
use std::alloc::Global;

/// The lower of two nodes, where there are any.
pub(crate) fn lesser(a: Option<u16>, b: Option<u16>) -> Option<u16>
    ensures { result ≡ lesser a b }
{
    match (a, b) {
        (Some(a), Some(b)) => Some(a.min(b)),
        (None, other) | (other, None) => other,
    }
}

/// Finds the lowest node that is listed twice or has a successor that is not listed.
pub(crate) fn lowest_disordered(
    alloc: Global,
    blocks: &[Block],
    order: &[u16],
) -> Result<Option<u16>, NoMemory>
    requires { All (λ n. n < length blocks.now) order.now }
    ensures { IfOk result (TellsLowest (IsOrderedAt blocks.now order.now) order.now (length order.now)) }
{
    let mut listed = vec![in alloc; false; blocks.len()]?;
    let repeated = lowest_repeated(order, &mut listed);
    let open = lowest_open(blocks, order, &listed);
    Ok(lesser(repeated, open))
}

/// Marks the listed nodes, and finds the lowest that is listed twice.
fn lowest_repeated(order: &[u16], listed: &mut [bool]) -> Option<u16>
    requires nodes { All (λ n. n < length listed.old) order.now }
    requires clear { All (λ mark. mark ≡ false) listed.old }
    ensures found { TellsLowest (IsFreshAt order.now) order.now (length order.now) result }
    ensures marked { AreMarked listed.new order.now }
{
    let mut found = None;
    for node in order {
        if listed[usize::from(*node)] {
            found = lesser(found, Some(*node));
        }
        listed[usize::from(*node)] = true;
    }
    found
}

/// Finds the lowest listed node with a successor that is not listed.
fn lowest_open(blocks: &[Block], order: &[u16], listed: &[bool]) -> Option<u16>
    requires { AreMarked listed.now order.now }
    ensures { TellsLowest (IsClosedAt blocks.now order.now) order.now (length order.now) result }
{
    let mut found = None;
    for node in order {
        if !goes_to_marked(blocks, *node, listed) {
            found = lesser(found, Some(*node));
        }
    }
    found
}

/// Whether all successors of the node are marked.
pub(crate) fn goes_to_marked(blocks: &[Block], node: u16, marked: &[bool]) -> bool
    ensures { IsTrue result ↔ All (IsMarked marked.now) (successors_of (slice_get blocks.now node)) }
{
    let Some(block) = block_at(blocks, node) else {
        return true;
    };
    match &block.body {
        Body::Go { successor, .. } | Body::Call { successor, .. } => is_marked(marked, *successor),
        Body::Branch { taken, other, .. } => is_marked(marked, *taken) && is_marked(marked, *other),
        Body::Return { .. } => true,
    }
}

fn is_marked(marked: &[bool], node: u16) -> bool
    ensures { IsTrue result ↔ IsMarked marked.now node }
{
    matches!(marked.get(usize::from(node)), Some(true))
}
