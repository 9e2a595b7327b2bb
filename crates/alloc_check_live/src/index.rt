//! For each register the nodes that use it, and for each node those that lead to it.

ghost use Rattle.std.specs.Prelude.{◌≡◌, ◌<◌, ◌^◌, [], length, replicate, IfOk, OnOk};
ghost use Rattle.alloc_check_live.specs.Liveness.{used_of, onward_of};
ghost use Rattle.alloc_check_live.specs.Tables.{added, added_to_each, IsIndex};

use crate::numbers::Numbers;
use crate::uses::{push_successors, push_used};
use lang_base::NoMemory;
use rtl_language::Instruction;
use std::alloc::Global;

/// So many lists of no numbers.
pub(crate) fn empty_lists(alloc: Global, count: usize) -> Result<Vec<Numbers>, NoMemory>
    ensures { IfOk result (λ lists. lists.items ≡ replicate count []) }
{
    let mut lists = Vec::new(alloc);
    for _ in 0..count {
        lists.push(Numbers::new(alloc))?;
    }
    Ok(lists)
}

/// Adds the number at the end of the list at a place, if the place is there.
pub(crate) fn add(lists: &mut Vec<Numbers>, place: u16, number: u16) -> Result<(), NoMemory>
    ensures { OnOk result (lists.new.items ≡ added lists.old.items place number) }
{
    let place = usize::from(place);
    if place < lists.len() {
        lists[place].push(number)?;
    }
    Ok(())
}

fn add_to_each(lists: &mut Vec<Numbers>, places: &[u16], number: u16) -> Result<(), NoMemory>
    ensures { OnOk result (lists.new.items ≡ added_to_each number places.now lists.old.items) }
{
    for place in places {
        add(lists, *place, number)?;
    }
    Ok(())
}

/// For each register the nodes that use it.
pub(crate) fn users(
    alloc: Global,
    registers: u16,
    nodes: &[Instruction],
) -> Result<Vec<Numbers>, NoMemory>
    requires { length nodes.now < 2 ^ 16 }
    ensures { IfOk result (λ lists. IsIndex used_of nodes.now registers lists.items) }
{
    let mut lists = empty_lists(alloc, usize::from(registers))?;
    let mut used = Vec::new(alloc);
    for (n, instruction) in nodes.iter().enumerate() {
        used.clear();
        push_used(&mut used, instruction)?;
        add_to_each(&mut lists, used.as_slice(), n as u16)?;
    }
    Ok(lists)
}

/// For each node those that lead to it.
pub(crate) fn leading(alloc: Global, nodes: &[Instruction]) -> Result<Vec<Numbers>, NoMemory>
    requires { length nodes.now < 2 ^ 16 }
    ensures { IfOk result (λ lists. IsIndex onward_of nodes.now (length nodes.now) lists.items) }
{
    let mut lists = empty_lists(alloc, nodes.len())?;
    let mut successors = Vec::new(alloc);
    for (n, instruction) in nodes.iter().enumerate() {
        successors.clear();
        push_successors(&mut successors, instruction)?;
        add_to_each(&mut lists, successors.as_slice(), n as u16)?;
    }
    Ok(lists)
}
