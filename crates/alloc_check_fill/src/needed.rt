//! What a block needs before it.

ghost use Rattle.std.specs.Prelude.{◌≡◌, [], ◌∷◌, ◌++◌, map, not, OnOk, IfOk};
ghost use Rattle.alloc_check_rules.specs.Equations.{back_equation, demand};
ghost use Rattle.alloc_check_fill.specs.Fill.{is_refused, needs_of};
ghost use Rattle.alloc_check_fill.specs.Needed.{IsNeeded, IsNeededAs};

use crate::uses::push_uses;
use alloc_check_blocks::{TracedBlock, change_of};
use alloc_check_rules::{Block, Change, Demand, Equation, Instruction};
use lang_base::NoMemory;
use std::alloc::Global;

/// Adds the equation before the block by which this one holds behind its first moves.
#[inline(always)]
pub(crate) fn push_before(
    out: &mut Vec<Equation>,
    block: &TracedBlock,
    equation: Equation,
) -> Result<(), NoMemory>
    ensures { OnOk result (out.new.items ≡ out.old.items ++ (back_equation block.now.before equation ∷ [])) }
{
    out.push(Equation {
        register: equation.register,
        location: block.origin_of(equation.location),
    })?;
    Ok(())
}

/// Adds what the equation behind the block demands before it; says whether it can hold.
fn push_demanded(
    out: &mut Vec<Equation>,
    block: &TracedBlock,
    change: Change,
    equation: &Equation,
) -> Result<bool, NoMemory>
    ensures told { IfOk result (λ can. can ≡ not (is_refused (demand block.now.body change equation.now))) }
    ensures added { OnOk result (out.new.items
        ≡ out.old.items ++ map (back_equation block.now.before) (needs_of (demand block.now.body change equation.now))) }
{
    match block.demand(change, equation) {
        Demand::Met => Ok(true),
        Demand::Refused => Ok(false),
        Demand::Needs(needed) => {
            push_before(out, block, needed)?;
            Ok(true)
        }
    }
}

/// Adds what the equations behind the block demand before it, up to one that cannot hold; says whether
/// there is none.
fn push_demands(
    out: &mut Vec<Equation>,
    block: &TracedBlock,
    change: Change,
    behind: &[Equation],
) -> Result<bool, NoMemory>
    ensures { IfOk result (IsNeededAs block.now change behind.now out.old.items out.new.items) }
{
    for equation in behind {
        if !push_demanded(out, block, change, equation)? {
            return Ok(false);
        }
    }
    Ok(true)
}

/// Makes the list what is needed before the block, so that these equations hold behind it; says whether
/// no rule is broken, and leaves open what is in the list where one is.
pub fn needed_before(
    alloc: Global,
    instruction: &Instruction,
    block: &Block,
    behind: &[Equation],
    out: &mut Vec<Equation>,
) -> Result<bool, NoMemory>
    ensures { IfOk result (IsNeeded instruction.now block.now behind.now out.new.items) }
{
    out.clear();
    let traced = TracedBlock::of(alloc, block)?;
    let Some(change) = change_of(instruction, traced.body()) else {
        return Ok(false);
    };
    if !push_demands(out, &traced, change, behind)? {
        return Ok(false);
    }
    push_uses(out, &traced, instruction, traced.body())?;
    Ok(true)
}
