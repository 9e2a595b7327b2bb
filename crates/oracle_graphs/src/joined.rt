use lang_base::NoMemory;
use std::alloc::Global;

/// Numbers that are joined, two by two: those that are joined by steps have one root (Tarjan 1975).
#[derive(Drop)]
pub struct Joined {
    above: Vec<u32>,
}

impl Joined {
    /// The numbers below this one, each alone.
    pub fn alone(alloc: Global, count: u32) -> Result<Joined, NoMemory> {
        let mut above = Vec::with_capacity(alloc, count as usize)?;
        for number in 0..count {
            above.push(number)?;
        }
        Ok(Joined { above })
    }

    fn above(&self, number: u32) -> u32 {
        self.above.get(number as usize).copied().unwrap_or(number)
    }

    fn put_below(&mut self, number: u32, other: u32) {
        if let Some(above) = self.above.get_mut(number as usize) {
            *above = other;
        }
    }

    /// The root of the numbers that this one is joined with.
    pub fn root(&mut self, number: u32) -> u32 {
        let mut at = number;
        for _ in 0..u64::MAX {
            let above = self.above(at);
            if above == at {
                break;
            }
            let next = self.above(above);
            self.put_below(at, next);
            at = next;
        }
        at
    }

    /// Joins two numbers, and all that they are joined with, below the root of the first.
    pub fn join(&mut self, first: u32, second: u32) {
        let root = self.root(first);
        let other = self.root(second);
        self.put_below(other, root);
    }
}
