//! A walk backwards from the uses of each register.

ghost use Rattle.std.specs.Prelude.{◌≡◌, ◌+◌, ◌<◌, ◌^◌, ◌++◌, length, IfOk, OnOk};
ghost use Rattle.alloc_check_live.specs.Liveness.{used_of, onward_of};
ghost use Rattle.alloc_check_live.specs.Lists.{AreLive, AreLiveBelow};
ghost use Rattle.alloc_check_live.specs.Tables.{IsIndex, AreThose};
ghost use Rattle.alloc_check_live.specs.Walks.{kept, LeavesEntered, EntersNew};

use crate::index::{add, empty_lists, leading, users};
use crate::numbers::{Numbers, ends_with, numbers_at};
use crate::uses::defines;
use lang_base::NoMemory;
use rtl_acts::Register;
use rtl_language::{Function, Instruction};
use std::alloc::Global;

/// Puts the nodes that do not define the register on the stack.
fn push_kept(
    pending: &mut Vec<u16>,
    nodes: &[Instruction],
    before: &[u16],
    register: Register,
) -> Result<(), NoMemory>
    ensures { OnOk result (pending.new.items ≡ pending.old.items ++ kept nodes.now register before.now) }
{
    for node in before {
        if !defines(nodes, *node, register) {
            pending.push(*node)?;
        }
    }
    Ok(())
}

/// Enters the register at the node; registers are entered one after the other, so where it was entered before, it comes last.
fn reach(
    found: &mut Vec<Numbers>,
    pending: &mut Vec<u16>,
    nodes: &[Instruction],
    leading: &[Numbers],
    node: u16,
    register: Register,
) -> Result<(), NoMemory>
    ensures seen { LeavesEntered node register found.old.items pending.old.items found.new.items pending.new.items result }
    ensures first { EntersNew nodes.now leading.now node register found.old.items pending.old.items
        found.new.items pending.new.items result }
{
    if ends_with(numbers_at(found.as_slice(), node), register) {
        return Ok(());
    }
    add(found, node, register)?;
    push_kept(pending, nodes, numbers_at(leading, node), register)?;
    Ok(())
}

/// Enters the register at each node where it is live, by a stack on the heap.
fn follow(
    alloc: Global,
    found: &mut Vec<Numbers>,
    nodes: &[Instruction],
    users: &[u16],
    leading: &[Numbers],
    register: Register,
) -> Result<(), NoMemory>
    requires users { AreThose used_of nodes.now register users.now }
    requires leading { IsIndex onward_of nodes.now (length nodes.now) leading.now }
    requires found { AreLiveBelow nodes.now register found.old.items }
    ensures { OnOk result (AreLiveBelow nodes.now (register + 1) found.new.items) }
{
    let mut pending = Vec::from_slice(alloc, users)?;
    while let Some(node) = pending.pop() {
        reach(found, &mut pending, nodes, leading, node, register)?;
    }
    Ok(())
}

/// At each node those of so many registers that are live there.
fn live_below(
    alloc: Global,
    registers: u16,
    nodes: &[Instruction],
) -> Result<Vec<Numbers>, NoMemory>
    requires { length nodes.now < 2 ^ 16 }
    ensures { IfOk result (λ lists. AreLiveBelow nodes.now registers lists.items) }
{
    let users = users(alloc, registers, nodes)?;
    let leading = leading(alloc, nodes)?;
    let mut found = empty_lists(alloc, nodes.len())?;
    for register in 0..registers {
        let used_at = numbers_at(users.as_slice(), register);
        follow(
            alloc,
            &mut found,
            nodes,
            used_at,
            leading.as_slice(),
            register,
        )?;
    }
    Ok(found)
}

/// At each node the registers that are live there, rising.
pub fn live_registers(alloc: Global, input: &Function) -> Result<Vec<Numbers>, NoMemory>
    ensures { IfOk result (λ lists. AreLive input.now.nodes lists.items) }
{
    let found = live_below(alloc, input.registers(), input.nodes().as_slice())?;
    Ok(found)
}
