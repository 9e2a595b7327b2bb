//! Marked nodes that are not reached: their edges are tested too, so they take over what is known where
//! they lead, as far as they can. Those that are not marked are reached with them.

use crate::analysis::Analysis;
use crate::follows::{FactOf, Follows};
use crate::lattice::surviving;
use lang_base::NoMemory;
use rtl_language::Instruction;
use rtl_passes_facts::{Edges, Rules};
use std::alloc::Global;

/// What is known where the instruction leads, but for what does not hold on behind it.
fn wanted<F: Follows>(
    alloc: Global,
    analysis: &Analysis<F>,
    instruction: &Instruction,
) -> Result<Option<Vec<FactOf<F>>>, NoMemory> {
    match led_to(analysis, <F::Of as Rules>::edges(instruction, &[])) {
        None => Ok(None),
        Some(facts) => Ok(Some(surviving::<F>(alloc, facts, instruction)?)),
    }
}

/// What is known at the first of the nodes, or else at the second.
fn led_to<F: Follows>(analysis: &Analysis<F>, edges: Edges) -> Option<&[FactOf<F>]> {
    match edges {
        Edges::NoNode => None,
        Edges::OneNode(first) => analysis.facts(first),
        Edges::TwoNodes(first, second) => match analysis.facts(first) {
            None => analysis.facts(second),
            known => known,
        },
    }
}

/// Gives an unreached node the facts that are known where it leads, if that is reached.
fn take_over<F: Follows>(
    alloc: Global,
    analysis: &mut Analysis<F>,
    nodes: &[Instruction],
    node: u16,
) -> Result<(), NoMemory> {
    if analysis.facts(node).is_some() || !analysis.is_marked(node) {
        return Ok(());
    }
    let Some(instruction) = nodes.get(usize::from(node)) else {
        return Ok(());
    };
    match wanted(alloc, analysis, instruction)? {
        None => Ok(()),
        Some(facts) => analysis.learn(node, facts),
    }
}

/// Gives every marked node a list: most lead to nodes of higher numbers, so they are gone through downward,
/// once more upward, and what is left then begins with nothing.
pub(crate) fn give_each<F: Follows>(
    alloc: Global,
    analysis: &mut Analysis<F>,
    nodes: &[Instruction],
    count: u16,
) -> Result<(), NoMemory> {
    for node in (0..count).rev() {
        take_over(alloc, analysis, nodes, node)?;
    }
    for node in 0..count {
        take_over(alloc, analysis, nodes, node)?;
    }
    for node in 0..count {
        if analysis.facts(node).is_none() && analysis.is_marked(node) {
            analysis.learn(node, Vec::new(alloc))?;
        }
    }
    Ok(())
}
