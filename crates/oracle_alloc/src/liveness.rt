//! The registers that are live before each node: those that are used before they are defined, on some
//! way from there (Leroy 2009, section 3.2), by sweeps backward until one finds nothing new.

use crate::order::order_of;
use crate::parts::{add_uses, defined_by, edges_of};
use crate::register_set::RegisterSet;
use lang_base::NoMemory;
use oracle_graphs::Edges;
use rtl_language::Instruction;
use std::alloc::Global;

/// What is live before each node so far, when that last grew, and when each node was last gone back
/// through. The time is how often nodes were gone back through.
#[derive(Drop)]
struct Analysis {
    live: Vec<RegisterSet>,
    grown: Vec<u64>,
    seen: Vec<u64>,
    now: u64,
}

/// Makes the set what is live where the instruction goes on.
pub(crate) fn set_live_behind(
    behind: &mut RegisterSet,
    live: &[RegisterSet],
    instruction: &Instruction,
) {
    behind.clear();
    let to = edges_of(instruction);
    join_node(behind, live, to.first);
    join_node(behind, live, to.second);
}

fn join_node(behind: &mut RegisterSet, live: &[RegisterSet], node: Option<u16>) {
    if let Some(node) = node
        && let Some(set) = live.get(usize::from(node))
    {
        let _is_new = behind.join(set);
    }
}

/// What is live before each of these nodes.
pub fn live_before(
    alloc: Global,
    registers: u16,
    nodes: &[Instruction],
) -> Result<Vec<RegisterSet>, NoMemory> {
    let mut analysis = Analysis::new(alloc, registers, nodes.len())?;
    let mut before = RegisterSet::none(alloc, registers)?;
    let order = order_of(alloc, nodes)?;
    for _ in 0..u64::MAX {
        if !analysis.sweep(nodes, &order, &mut before) {
            break;
        }
    }
    Ok(analysis.into_live())
}

impl Analysis {
    fn new(alloc: Global, registers: u16, nodes: usize) -> Result<Analysis, NoMemory> {
        let mut live = Vec::new(alloc);
        for _ in 0..nodes {
            live.push(RegisterSet::none(alloc, registers)?)?;
        }
        Ok(Analysis {
            live,
            grown: vec![in alloc; 0; nodes]?,
            seen: vec![in alloc; 0; nodes]?,
            now: 0,
        })
    }

    fn into_live(self) -> Vec<RegisterSet> {
        self.live
    }

    /// Goes back through each node behind which something may be new, and says whether there is one. The
    /// set is for its use.
    fn sweep(&mut self, nodes: &[Instruction], order: &[u16], before: &mut RegisterSet) -> bool {
        let start = self.now;
        for node in order {
            if let Some(instruction) = nodes.get(usize::from(*node))
                && self.is_due(*node, edges_of(instruction))
            {
                self.step(*node, instruction, before);
            }
        }
        start < self.now
    }

    /// Whether the node was not gone back through yet, or more is live behind it since.
    fn is_due(&self, node: u16, to: Edges) -> bool {
        let seen = time_of(&self.seen, Some(node));
        seen == 0 || seen < time_of(&self.grown, to.first) || seen < time_of(&self.grown, to.second)
    }

    /// Goes back through a node.
    fn step(&mut self, node: u16, instruction: &Instruction, before: &mut RegisterSet) {
        self.now = self.now.saturating_add(1);
        if let Some(seen) = self.seen.get_mut(usize::from(node)) {
            *seen = self.now;
        }
        set_live_behind(before, &self.live, instruction);
        if let Some(register) = defined_by(instruction) {
            before.remove(register);
        }
        add_uses(before, instruction);
        if self.learn(node, before)
            && let Some(grown) = self.grown.get_mut(usize::from(node))
        {
            *grown = self.now;
        }
    }

    /// These are live before the node; says whether one is new.
    fn learn(&mut self, node: u16, before: &RegisterSet) -> bool {
        match self.live.get_mut(usize::from(node)) {
            Some(live) => live.join(before),
            None => false,
        }
    }
}

/// The time noted for the node, 0 for none.
fn time_of(times: &[u64], node: Option<u16>) -> u64 {
    match node {
        Some(node) => times.get(usize::from(node)).copied().unwrap_or(0),
        None => 0,
    }
}
