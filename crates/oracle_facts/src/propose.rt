ghost use Rattle.std.specs.Prelude.{◌≡◌, All, length, IfOk};
ghost use Rattle.rtl_language.specs.Function.{InstructionFits};
ghost use Rattle.oracle_facts.specs.Ranges.{StaysInRange};

use crate::analysis::Analysis;
use crate::chooses::Chooses;
use crate::follows::{FactOf, Follows};
use crate::unreached::give_each;
use lang_base::{NoMemory, Row};
use rtl_language::{Function, Instruction, copy_instruction};
use rtl_passes_facts::list_at;
use rtl_passes_marks::{NodeRow, with_nodes};
use std::alloc::Global;

/// The function with those changes that are chosen among those that the facts allow, and the facts at marked nodes.
pub fn proposed<F: Follows, C: Chooses>(
    alloc: Global,
    follows: F,
    input: &Function,
    chooser: &mut C,
) -> Result<(Function, Row<NodeRow<FactOf<F>>>), NoMemory> {
    let (lists, feeders) = followed(alloc, follows, input)?;
    let nodes = changed::<F, C>(alloc, input, &lists, chooser)?;
    let output = with_nodes(alloc, input, nodes)?;
    let rows = rows_of(alloc, &feeders, lists)?;
    Ok((output, Row::from_vec(rows)))
}

/// The lists of marked nodes that are not empty.
fn rows_of<T: Drop>(
    alloc: Global,
    feeders: &[Option<u16>],
    lists: Vec<Row<T>>,
) -> Result<Vec<NodeRow<T>>, NoMemory> {
    let mut rows = Vec::new(alloc);
    let mut node: u16 = 0;
    for entries in lists {
        if !entries.is_empty() && matches!(feeders.get(usize::from(node)), Some(None)) {
            rows.push(NodeRow { node, entries })?;
        }
        node = node.saturating_add(1);
    }
    Ok(rows)
}

/// The facts that hold at each node, and what feeds it.
fn followed<F: Follows>(
    alloc: Global,
    follows: F,
    input: &Function,
) -> Result<(Vec<Row<FactOf<F>>>, Vec<Option<u16>>), NoMemory> {
    let nodes = input.nodes().as_slice();
    let mut analysis = Analysis::new(alloc, follows, input)?;
    analysis.reach(alloc, input.entry(), &[])?;
    analysis.settle(alloc, nodes)?;
    give_each(alloc, &mut analysis, nodes, nodes.len() as u16)?;
    analysis.settle(alloc, nodes)?;
    let Analysis { feeders, known, .. } = analysis;
    let lists = lists_of(alloc, known)?;
    Ok((lists, feeders))
}

/// What is known at each node, which is nothing where it is not reached.
fn lists_of<T: Drop>(alloc: Global, known: Vec<Option<Vec<T>>>) -> Result<Vec<Row<T>>, NoMemory> {
    let mut lists = Vec::new(alloc);
    for known in known {
        lists.push(list_of(alloc, known))?;
    }
    Ok(lists)
}

fn list_of<T: Drop>(alloc: Global, known: Option<Vec<T>>) -> Row<T> {
    match known {
        Some(facts) => Row::from_vec(facts),
        None => Row::from_vec(Vec::new(alloc)),
    }
}

/// The instructions of the input, with the changes that are chosen.
fn changed<F: Follows, C: Chooses>(
    alloc: Global,
    input: &Function,
    lists: &[Row<FactOf<F>>],
    chooser: &mut C,
) -> Result<Vec<Instruction>, NoMemory>
    ensures count { IfOk result (λ made. length made.items ≡ length input.now.nodes) }
    ensures fit { IfOk result (λ made. All (InstructionFits input.now.registers (length input.now.nodes)) made.items) }
{
    let mut made = Vec::new(alloc);
    let registers = input.registers();
    for (n, instruction) in input.nodes().as_slice().iter().enumerate() {
        let facts = list_at(lists, n);
        made.push(chosen::<F, C>(alloc, registers, instruction, facts, chooser)?)?;
    }
    Ok(made)
}

/// The instruction, or where that is chosen what the facts allow it to be made.
fn chosen<F: Follows, C: Chooses>(
    alloc: Global,
    registers: u16,
    instruction: &Instruction,
    facts: &[FactOf<F>],
    chooser: &mut C,
) -> Result<Instruction, NoMemory>
    ensures { StaysInRange registers instruction.now result }
{
    match F::allowed(registers, instruction, facts) {
        Some(simpler) if chooser.is_taken(instruction, &simpler) => Ok(simpler),
        _ => copy_instruction(alloc, instruction),
    }
}
