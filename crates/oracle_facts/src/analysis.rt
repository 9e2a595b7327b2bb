//! Facts at the nodes of a function, followed along the edges that can be taken (Wegman and Zadeck 1991). A node that is
//! not reached has no list yet; once it has one, facts only go away. An edge to a node that is not marked counts also where
//! it cannot be taken, as it does where facts are filled in.

use crate::follows::{FactOf, Follows};
use crate::lattice::{behind, meet};
use lang_base::NoMemory;
use rtl_language::{Function, Instruction};
use rtl_passes_facts::{Edges, Rules};
use rtl_passes_marks::feeders_of;
use std::alloc::Global;

/// What is known at each node so far, and the nodes of which that is still to be said to the next.
#[derive(Drop)]
pub(crate) struct Analysis<F: Follows> {
    pub follows: F,
    pub feeders: Vec<Option<u16>>,
    pub known: Vec<Option<Vec<FactOf<F>>>>,
    pub waiting: Vec<u16>,
}

impl<F: Follows> Analysis<F> {
    /// None of the function's nodes is reached.
    pub fn new(alloc: Global, follows: F, input: &Function) -> Result<Analysis<F>, NoMemory> {
        let feeders = feeders_of(alloc, input)?;
        let mut known = Vec::new(alloc);
        for _ in 0..input.nodes().len() {
            known.push(None)?;
        }
        Ok(Analysis {
            follows,
            feeders,
            known,
            waiting: Vec::new(alloc),
        })
    }

    /// What is known at a node, if it is reached.
    pub fn facts(&self, node: u16) -> Option<&[FactOf<F>]> {
        match self.known.get(usize::from(node)) {
            Some(Some(facts)) => Some(facts.as_slice()),
            _ => None,
        }
    }

    /// Whether the node is marked.
    pub fn is_marked(&self, node: u16) -> bool {
        matches!(self.feeders.get(usize::from(node)), Some(None))
    }

    /// A node is reached with these facts: what it knew besides goes away.
    pub fn reach(&mut self, alloc: Global, node: u16, facts: &[FactOf<F>]) -> Result<(), NoMemory> {
        let met = match self.facts(node) {
            None => Vec::from_slice(alloc, facts)?,
            Some(before) => {
                let both = meet::<F::Of>(alloc, before, facts)?;
                if both.len() == before.len() {
                    return Ok(());
                }
                both
            }
        };
        self.learn(node, met)
    }

    /// This is known at the node now, and is to be said to the next.
    pub fn learn(&mut self, node: u16, facts: Vec<FactOf<F>>) -> Result<(), NoMemory> {
        if let Some(known) = self.known.get_mut(usize::from(node)) {
            *known = Some(facts);
            self.waiting.push(node)?;
        }
        Ok(())
    }

    /// Says what is known at the waiting nodes to those behind them, until none waits.
    pub fn settle(&mut self, alloc: Global, nodes: &[Instruction]) -> Result<(), NoMemory> {
        for _ in 0..u64::MAX {
            let Some(node) = self.waiting.pop() else {
                break;
            };
            self.step(alloc, nodes, node)?;
        }
        Ok(())
    }

    /// Where a node that is reached goes on, all its edges, and what is known behind it.
    fn onward(
        &self,
        alloc: Global,
        nodes: &[Instruction],
        node: u16,
    ) -> Result<Option<(Edges, Edges, Vec<FactOf<F>>)>, NoMemory> {
        let Some(instruction) = nodes.get(usize::from(node)) else {
            return Ok(None);
        };
        let Some(facts) = self.facts(node) else {
            return Ok(None);
        };
        let edges = <F::Of as Rules>::edges(instruction, facts);
        let after = behind::<F>(alloc, &self.follows, facts, instruction)?;
        let all = <F::Of as Rules>::edges(instruction, &[]);
        Ok(Some((edges, all, after)))
    }

    fn step(&mut self, alloc: Global, nodes: &[Instruction], node: u16) -> Result<(), NoMemory> {
        match self.onward(alloc, nodes, node)? {
            None => Ok(()),
            Some((edges, all, after)) => {
                self.reach_each(alloc, edges, &after)?;
                self.reach_fed(alloc, all, &after)
            }
        }
    }

    fn reach_fed(
        &mut self,
        alloc: Global,
        edges: Edges,
        facts: &[FactOf<F>],
    ) -> Result<(), NoMemory> {
        match edges {
            Edges::NoNode => Ok(()),
            Edges::OneNode(first) => self.reach_if_fed(alloc, first, facts),
            Edges::TwoNodes(first, second) => {
                self.reach_if_fed(alloc, first, facts)?;
                self.reach_if_fed(alloc, second, facts)
            }
        }
    }

    fn reach_if_fed(
        &mut self,
        alloc: Global,
        node: u16,
        facts: &[FactOf<F>],
    ) -> Result<(), NoMemory> {
        if self.is_marked(node) {
            return Ok(());
        }
        self.reach(alloc, node, facts)
    }

    fn reach_each(
        &mut self,
        alloc: Global,
        edges: Edges,
        facts: &[FactOf<F>],
    ) -> Result<(), NoMemory> {
        match edges {
            Edges::NoNode => Ok(()),
            Edges::OneNode(first) => self.reach(alloc, first, facts),
            Edges::TwoNodes(first, second) => {
                self.reach(alloc, first, facts)?;
                self.reach(alloc, second, facts)
            }
        }
    }
}
