//! An order of nodes in which each stands behind those that it leads to, but for loops.

use crate::parts::edges_of;
use lang_base::NoMemory;
use rtl_language::Instruction;
use std::alloc::Global;

/// What is to be done at a node of the walk.
#[derive(Clone, Copy)]
enum Step {
    Enter(u16),
    Leave(u16),
}

/// A walk along the edges: the nodes that it left, those that it met, and the steps ahead, the next
/// last.
#[derive(Drop)]
struct Walk {
    left: Vec<u16>,
    is_met: Vec<bool>,
    steps: Vec<Step>,
}

/// The nodes as a walk from each of them leaves them (a postorder).
pub(crate) fn order_of(alloc: Global, nodes: &[Instruction]) -> Result<Vec<u16>, NoMemory> {
    let mut walk = Walk::new(alloc, nodes.len())?;
    for (n, _instruction) in nodes.iter().enumerate() {
        if let Ok(node) = u16::try_from(n) {
            walk.steps.push(Step::Enter(node))?;
            walk.finish(nodes)?;
        }
    }
    Ok(walk.left)
}

impl Walk {
    fn new(alloc: Global, nodes: usize) -> Result<Walk, NoMemory> {
        let mut is_met = Vec::new(alloc);
        for _ in 0..nodes {
            is_met.push(false)?;
        }
        Ok(Walk {
            left: Vec::new(alloc),
            is_met,
            steps: Vec::new(alloc),
        })
    }

    /// Does the steps ahead, until none is.
    fn finish(&mut self, nodes: &[Instruction]) -> Result<(), NoMemory> {
        for _ in 0..u64::MAX {
            match self.steps.pop() {
                None => break,
                Some(Step::Enter(node)) => self.enter(nodes, node)?,
                Some(Step::Leave(node)) => self.left.push(node)?,
            }
        }
        Ok(())
    }

    fn enter(&mut self, nodes: &[Instruction], node: u16) -> Result<(), NoMemory> {
        if !self.meet(node) {
            return Ok(());
        }
        let Some(instruction) = nodes.get(usize::from(node)) else {
            return Ok(());
        };
        self.steps.push(Step::Leave(node))?;
        let to = edges_of(instruction);
        self.go_to(to.first)?;
        self.go_to(to.second)
    }

    /// Whether the node is met for the first time.
    fn meet(&mut self, node: u16) -> bool {
        match self.is_met.get_mut(usize::from(node)) {
            Some(is_met) if !*is_met => {
                *is_met = true;
                true
            }
            _ => false,
        }
    }

    fn go_to(&mut self, node: Option<u16>) -> Result<(), NoMemory> {
        if let Some(node) = node {
            self.steps.push(Step::Enter(node))?;
        }
        Ok(())
    }
}
