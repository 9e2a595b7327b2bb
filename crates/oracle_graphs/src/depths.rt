//! How deep nodes lie in loops, by their numbers: the translation numbers a loop's nodes one behind another.

use lang_base::NoMemory;
use std::alloc::Global;

/// A node counts no deeper than in so many loops.
const DEEPEST: u8 = 6;

/// Where a node can go on: nowhere, to one node, or to two.
#[derive(Clone, Copy)]
pub struct Edges {
    pub first: Option<u16>,
    pub second: Option<u16>,
}

/// How many edges lead to a higher number, and how many to a lower one or back to where they begin.
#[derive(Clone, Copy)]
struct Counts {
    rising: u32,
    falling: u32,
}

/// At how many loops that begin and end there the depth changes, before each number.
#[derive(Drop)]
struct Changes {
    begun: Vec<u32>,
    ended: Vec<u32>,
}

fn counted(counts: Counts, node: u16, to: Option<u16>) -> Counts {
    match to {
        None => counts,
        Some(to) if to > node => Counts {
            rising: counts.rising.saturating_add(1),
            falling: counts.falling,
        },
        Some(_) => Counts {
            rising: counts.rising,
            falling: counts.falling.saturating_add(1),
        },
    }
}

/// Whether most edges lead to lower numbers, so that those to higher ones close loops.
fn most_fall(edges: &[Edges]) -> bool {
    let mut counts = Counts {
        rising: 0,
        falling: 0,
    };
    for (node, to) in (0..=u16::MAX).zip(edges.iter()) {
        counts = counted(counts, node, to.first);
        counts = counted(counts, node, to.second);
    }
    counts.falling > counts.rising
}

fn add_at(counts: &mut [u32], at: u16) {
    if let Some(count) = counts.get_mut(usize::from(at)) {
        *count = count.saturating_add(1);
    }
}

impl Changes {
    fn none(alloc: Global, nodes: usize) -> Result<Changes, NoMemory> {
        Ok(Changes {
            begun: vec![in alloc; 0; nodes]?,
            ended: vec![in alloc; 0; nodes]?,
        })
    }

    /// A loop has the nodes from the lowest to the highest.
    fn note(&mut self, lowest: u16, highest: u16) {
        add_at(&mut self.begun, lowest);
        add_at(&mut self.ended, highest);
    }

    /// Notes a loop where the edge closes one.
    fn note_edge(&mut self, falls: bool, node: u16, to: Option<u16>) {
        match to {
            Some(to) if falls && to >= node => self.note(node, to),
            Some(to) if !falls && to <= node => self.note(to, node),
            _ => {}
        }
    }

    fn depths(&self, alloc: Global) -> Result<Vec<u8>, NoMemory> {
        let mut depths = Vec::with_capacity(alloc, self.begun.len())?;
        let mut open: u32 = 0;
        for (begun, ended) in self.begun.iter().zip(self.ended.iter()) {
            open = open.saturating_add(*begun);
            depths.push(u8::try_from(open).unwrap_or(DEEPEST).min(DEEPEST))?;
            open = open.saturating_sub(*ended);
        }
        Ok(depths)
    }
}

/// In how many loops each node lies.
pub fn depths_of(alloc: Global, edges: &[Edges]) -> Result<Vec<u8>, NoMemory> {
    let falls = most_fall(edges);
    let mut changes = Changes::none(alloc, edges.len())?;
    for (node, to) in (0..=u16::MAX).zip(edges.iter()) {
        changes.note_edge(falls, node, to.first);
        changes.note_edge(falls, node, to.second);
    }
    changes.depths(alloc)
}

/// How often a node of the depth is thought to be run: eight times as often as one in a loop less.
pub fn weight_at(depths: &[u8], node: u16) -> u64 {
    let depth = depths.get(usize::from(node)).copied().unwrap_or(0);
    1u64 << (3 * u32::from(depth.min(DEEPEST)))
}
