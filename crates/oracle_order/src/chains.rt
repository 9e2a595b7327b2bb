//! Nodes in chains, each of which falls through to the next: the edges that are thought to be run most are taken first
//! (Pettis and Hansen 1990), so a loop has its test behind its body.

use lang_base::NoMemory;
use ltl::{Block, Body};
use oracle_graphs::{Edges, Joined, depths_of, weight_at};
use std::alloc::Global;

/// What follows each node in its chain, which nodes follow one, and which are in one chain.
#[derive(Drop)]
struct Chains {
    next: Vec<Option<u16>>,
    is_next: Vec<bool>,
    joined: Joined,
}

fn edges_of(block: &Block) -> Edges {
    match &block.body {
        Body::Go { successor, .. } | Body::Call { successor, .. } => Edges {
            first: Some(*successor),
            second: None,
        },
        Body::Branch { taken, other, .. } => Edges {
            first: Some(*taken),
            second: Some(*other),
        },
        Body::Return { .. } => Edges {
            first: None,
            second: None,
        },
    }
}

/// Where the block goes on without a jump, if that stands behind it.
fn below(block: &Block) -> Option<u16> {
    match &block.body {
        Body::Go { successor, .. } | Body::Call { successor, .. } => Some(*successor),
        Body::Branch { other, .. } => Some(*other),
        Body::Return { .. } => None,
    }
}

fn depths(alloc: Global, blocks: &[Block]) -> Result<Vec<u8>, NoMemory> {
    let mut edges = Vec::with_capacity(alloc, blocks.len())?;
    for block in blocks {
        edges.push(edges_of(block))?;
    }
    depths_of(alloc, &edges)
}

/// The edges that need no jump, those that are run most first: each a number, whose low parts are its two nodes.
fn ranked(alloc: Global, blocks: &[Block], nodes: &[u16]) -> Result<Vec<u64>, NoMemory> {
    let depths = depths(alloc, blocks)?;
    let mut ranks = Vec::new(alloc);
    for node in nodes {
        if let Some(block) = blocks.get(usize::from(*node))
            && let Some(to) = below(block)
        {
            let weight = weight_at(&depths, *node).min(weight_at(&depths, to));
            let rank = 0x000f_ffffu64.saturating_sub(weight);
            ranks.push((rank << 32) | (u64::from(*node) << 16) | u64::from(to))?;
        }
    }
    ranks.as_mut_slice().sort_unstable();
    Ok(ranks)
}

impl Chains {
    fn alone(alloc: Global, nodes: usize) -> Result<Chains, NoMemory> {
        Ok(Chains {
            next: vec![in alloc; None; nodes]?,
            is_next: vec![in alloc; false; nodes]?,
            joined: Joined::alone(alloc, u32::try_from(nodes).unwrap_or(0))?,
        })
    }

    fn next_of(&self, node: u16) -> Option<u16> {
        self.next.get(usize::from(node)).copied().unwrap_or(None)
    }

    fn follows_one(&self, node: u16) -> bool {
        self.is_next.get(usize::from(node)).copied().unwrap_or(true)
    }

    /// Puts a chain behind another, where the first node is the last of its chain and the second the first of another.
    fn try_edge(&mut self, node: u16, to: u16) {
        if self.next_of(node).is_some() || self.follows_one(to) {
            return;
        }
        let (one, other) = (u32::from(node), u32::from(to));
        if self.joined.root(one) == self.joined.root(other) {
            return;
        }
        self.joined.join(one, other);
        if let Some(next) = self.next.get_mut(usize::from(node)) {
            *next = Some(to);
        }
        if let Some(is_next) = self.is_next.get_mut(usize::from(to)) {
            *is_next = true;
        }
    }

    /// Lists the chain that begins with a node.
    fn list(&self, first: u16, order: &mut Vec<u16>) -> Result<(), NoMemory> {
        let mut at = Some(first);
        for _ in 0..=u16::MAX {
            let Some(node) = at else {
                break;
            };
            order.push(node)?;
            at = self.next_of(node);
        }
        Ok(())
    }
}

/// The nodes, of which the first is the entry, chain by chain; the entry's is first.
pub(crate) fn chained(
    alloc: Global,
    blocks: &[Block],
    nodes: &[u16],
) -> Result<Vec<u16>, NoMemory> {
    let mut order = Vec::with_capacity(alloc, nodes.len())?;
    let Some((entry, others)) = nodes.split_first() else {
        return Ok(order);
    };
    let mut chains = Chains::alone(alloc, blocks.len())?;
    for key in &ranked(alloc, blocks, nodes)? {
        let to = (*key & 0xffff) as u16;
        if to != *entry {
            chains.try_edge((*key >> 16 & 0xffff) as u16, to);
        }
    }
    chains.list(*entry, &mut order)?;
    for node in others.iter().rev() {
        if !chains.follows_one(*node) {
            chains.list(*node, &mut order)?;
        }
    }
    Ok(order)
}
