//! Which nodes are reached from the entry, by a stack on the heap.

ghost use Rattle.std.specs.Prelude.{◌≡◌, ℕ, ◌<◌, ◌↔◌, ◌++◌, length, IfOk, OnOk};
ghost use Rattle.linearize_check_proof.specs.Layout.{successors};
ghost use Rattle.linearize_check_layout.specs.Marks.{IsMarked};
ghost use Rattle.linearize_check_layout.specs.Reach.{IsReached};
ghost use Rattle.linearize_check_layout.specs.Visits.{LeavesMarked, MarksNew};

use lang_base::NoMemory;
use ltl::{Block, Body, Function};
use std::alloc::Global;

/// A mark for each node: whether it is reached from the entry.
pub fn reachable(alloc: Global, function: &Function) -> Result<Vec<bool>, NoMemory>
    ensures length { IfOk result (λ marks. length marks.items ≡ length function.now.blocks) }
    ensures reached { IfOk result (λ marks. (n : ℕ) → IsMarked marks.items n ↔ IsReached function.now n) }
{
    let blocks = function.blocks().as_slice();
    let mut marks = vec![in alloc; false; blocks.len()]?;
    let mut pending = Vec::new(alloc);
    pending.push(function.entry())?;
    while let Some(node) = pending.pop() {
        visit(&mut marks, &mut pending, blocks, node)?;
    }
    Ok(marks)
}

/// Marks the node, and where it had no mark, puts its successors on the stack.
fn visit(
    marks: &mut Vec<bool>,
    pending: &mut Vec<u16>,
    blocks: &[Block],
    node: u16,
) -> Result<(), NoMemory>
    requires node { node < length blocks.now }
    requires marks { length marks.old.items ≡ length blocks.now }
    ensures seen { LeavesMarked node marks.old.items pending.old.items marks.new.items pending.new.items result }
    ensures first { MarksNew blocks.now node marks.old.items pending.old.items marks.new.items pending.new.items result }
{
    let place = usize::from(node);
    if !marks[place] {
        marks[place] = true;
        push_successors(pending, &blocks[place].body)?;
    }
    Ok(())
}

fn push_successors(pending: &mut Vec<u16>, body: &Body) -> Result<(), NoMemory>
    ensures { OnOk result (pending.new.items ≡ pending.old.items ++ successors body.now) }
{
    match body {
        Body::Go { successor, .. } | Body::Call { successor, .. } => pending.push(*successor)?,
        Body::Branch { taken, other, .. } => {
            pending.push(*taken)?;
            pending.push(*other)?;
        }
        Body::Return { .. } => {}
    }
    Ok(())
}
