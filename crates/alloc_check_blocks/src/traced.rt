//! A block whose moves need not be walked again.

ghost use Rattle.std.specs.Prelude.{◌≡◌, IfOk};
ghost use Rattle.alloc_check_rules.specs.Function.{after_of as moves_behind};
ghost use Rattle.alloc_check_rules.specs.Equations.{back, demand as demand_of};

use crate::demands::through_body;
use crate::origins::Origins;
use alloc_check_rules::{Block, Body, Change, Demand, Equation};
use lang_base::NoMemory;
use locations::{Location, Move};
use std::alloc::Global;
use std::marker::Model;

/// A block, with where the words come from that its moves carry.
#[derive(Drop)]
pub struct TracedBlock<'a> {
    block: &'a Block,
    before: Origins<'a>,
    after: Origins<'a>,
}

impl<'a> Model for TracedBlock<'a> {
    ghost use Rattle.std.specs.Prelude.{◌≡◌};
    ghost use Rattle.alloc_check_rules.specs.Block.{Block};
    ghost use Rattle.alloc_check_rules.specs.Function.{after_of};

    ghost Value = { Block };

    ghost view = { λ t. t.block.now };

    ghost invariant = { λ t. (t.before ≡ t.block.now.before) × (t.after ≡ after_of t.block.now.body) };
}

fn after_of(body: &Body) -> &[Move]
    ensures { result.now ≡ moves_behind body.now }
{
    match body {
        Body::Go { after, .. } | Body::Call { after, .. } => after.as_slice(),
        _ => &[],
    }
}

impl<'a> TracedBlock<'a> {
    /// The block, each of its moves looked at once.
    pub fn of(alloc: Global, block: &'a Block) -> Result<TracedBlock<'a>, NoMemory>
        ensures { IfOk result (λ traced. traced ≡ block.now) }
    {
        let before = Origins::of(alloc, block.before.as_slice())?;
        let after = Origins::of(alloc, after_of(&block.body))?;
        Ok(TracedBlock {
            block,
            before,
            after,
        })
    }

    pub fn body(&self) -> &Body
        ensures { result.now ≡ self.now.body }
    {
        &self.block.body
    }

    /// Where the word that the location holds behind the block's first moves lay before them.
    pub fn origin_of(&self, location: Location) -> Location
        ensures { result ≡ back self.now.before location }
    {
        self.before.origin_of(location)
    }

    /// What an equation behind the block demands behind the block's first moves.
    pub fn demand(&self, change: Change, equation: &Equation) -> Demand
        ensures { result ≡ demand_of self.now.body change equation.now }
    {
        let before = Equation {
            register: equation.register,
            location: self.after.origin_of(equation.location),
        };
        through_body(&self.block.body, change, before)
    }
}
