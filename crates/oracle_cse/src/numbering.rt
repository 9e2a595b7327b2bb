//! Which equations are worth to be kept: those whose right side, or for a copy whose register, is
//! looked for at some other node.

use cse_check::{Equation, RightSide, rank};
use lang_base::NoMemory;
use rtl_acts::{Act, Register};
use rtl_language::Instruction;
use std::alloc::Global;
use std::collections::BTreeMap;

/// How often each right side stands in a function, and how often each register is moved from.
#[derive(Drop)]
pub(crate) struct Numbering {
    sides: BTreeMap<u64, u32>,
    moved: BTreeMap<Register, u32>,
}

/// The number of a right side: no two that fit share one.
fn number_of(right: RightSide) -> u64 {
    rank(&Equation { register: 0, right })
}

/// The right side that is looked for where the act stands, if it is an operator or a load.
fn side_of(act: &Act) -> Option<RightSide> {
    match *act {
        Act::Operate { op, arguments, .. } => Some(RightSide::Operation { op, arguments }),
        Act::Load { global, index, .. } => Some(RightSide::Cell { global, index }),
        _ => None,
    }
}

impl Numbering {
    /// Those of these nodes.
    pub fn of(alloc: Global, nodes: &[Instruction]) -> Result<Numbering, NoMemory> {
        let mut numbering = Numbering {
            sides: BTreeMap::new(alloc),
            moved: BTreeMap::new(alloc),
        };
        for node in nodes {
            if let Instruction::Do { act, .. } = node {
                numbering.count(act)?;
            }
        }
        Ok(numbering)
    }

    fn count(&mut self, act: &Act) -> Result<(), NoMemory> {
        if let Act::Move { source, .. } = act {
            let times = self.moved.get(source).copied().unwrap_or(0);
            self.moved.insert(*source, times.saturating_add(1))?;
        }
        if let Some(right) = side_of(act) {
            let number = number_of(right);
            let times = self.sides.get(&number).copied().unwrap_or(0);
            self.sides.insert(number, times.saturating_add(1))?;
        }
        Ok(())
    }

    /// Whether the equation may let another node become a move.
    pub fn is_worth(&self, equation: Equation) -> bool {
        match equation.right {
            RightSide::Copy { .. } => self.moved.get(&equation.register).is_some(),
            right => match self.sides.get(&number_of(right)) {
                Some(times) => *times > 1,
                None => false,
            },
        }
    }
}
