//! Blocks that do with locations what instructions do with registers.

ghost use Rattle.std.specs.Prelude.{◌≡◌, ◌<◌, ℕ, length, All, IfOk, IfSome};
ghost use Rattle.locations.specs.Fits.{MoveFits, MovesFit};
ghost use Rattle.ltl.specs.Function.{BlockFits};
ghost use Rattle.rtl_language.specs.Function.{InstructionFits};
ghost use Rattle.oracle_graphs.specs.Blocks.{FitsForAct, FitsForCall, FitsForBranch, FitsForInstruction};
ghost use Rattle.oracle_graphs.specs.Plans.{PlanFits};

use crate::assignment::Assignment;
use crate::parameters::locations_of;
use crate::plan::Plan;
use crate::plans::plan_of;
use crate::reaching::{operands, source_of};
use lang_base::{NoMemory, Row};
use locations::Move;
use ltl::{Block, Body};
use rtl_acts::{Act, Register, Test};
use rtl_language::Instruction;
use std::alloc::Global;

/// At most two moves, as a list.
fn moves_of(alloc: Global, first: Option<Move>, second: Option<Move>) -> Result<Row<Move>, NoMemory>
    ensures { (slots : ℕ) → IfSome first (MoveFits slots) → IfSome second (MoveFits slots) → IfOk result (MovesFit slots) }
{
    match first {
        None => at_most_one(alloc, second),
        Some(first) => match second {
            None => at_most_one(alloc, Some(first)),
            Some(second) => Ok(Row::from_vec(Vec::from_slice(alloc, &[first, second])?)),
        },
    }
}

fn at_most_one(alloc: Global, step: Option<Move>) -> Result<Row<Move>, NoMemory>
    ensures { (slots : ℕ) → IfSome step (MoveFits slots) → IfOk result (MovesFit slots) }
{
    match step {
        None => Ok(Row::from_vec(Vec::new(alloc))),
        Some(step) => Ok(Row::from_vec(Vec::from_slice(alloc, &[step])?)),
    }
}

/// A block that does what is planned, and goes on.
fn going(alloc: Global, plan: Plan, successor: u16) -> Result<Block, NoMemory>
    ensures { (slots nodes : ℕ) → PlanFits slots plan → successor < nodes → IfOk result (BlockFits slots nodes) }
{
    let before = moves_of(alloc, plan.first, plan.second)?;
    let after = at_most_one(alloc, plan.after)?;
    Ok(Block {
        before,
        body: Body::Go {
            act: plan.act,
            after,
            successor,
        },
    })
}

/// A block for an act: it does nothing where the act is needless.
fn doing(
    alloc: Global,
    assignment: &Assignment,
    act: &Act,
    successor: u16,
    is_needless: bool,
) -> Result<Block, NoMemory>
    ensures { FitsForAct assignment.now.slots act.now successor result }
{
    if is_needless {
        return going(alloc, Plan::NOTHING, successor);
    }
    going(alloc, plan_of(assignment, act), successor)
}

fn calling(
    alloc: Global,
    assignment: &Assignment,
    function: u8,
    arguments: &[Register],
    target: Option<Register>,
    successor: u16,
) -> Result<Block, NoMemory>
    ensures { FitsForCall assignment.now.slots function arguments.now target successor result }
{
    let arguments = locations_of(alloc, assignment, arguments)?;
    let before = at_most_one(alloc, None)?;
    let after = at_most_one(alloc, None)?;
    Ok(Block {
        before,
        body: Body::Call {
            function,
            arguments: Row::from_vec(arguments),
            target: assignment.location_of_any(target),
            after,
            successor,
        },
    })
}

fn branching(
    alloc: Global,
    assignment: &Assignment,
    test: &Test,
    taken: u16,
    other: u16,
) -> Result<Block, NoMemory>
    ensures { FitsForBranch assignment.now.slots test.now taken other result }
{
    let asked = operands(assignment, &test.arguments);
    let before = moves_of(alloc, asked.first, asked.second)?;
    Ok(Block {
        before,
        body: Body::Branch {
            test: machine::Test {
                condition: test.condition,
                arguments: asked.arguments,
            },
            taken,
            other,
        },
    })
}

fn returning(
    alloc: Global,
    assignment: &Assignment,
    value: Option<Register>,
) -> Result<Block, NoMemory>
    ensures { (nodes : ℕ) → IfOk result (BlockFits assignment.now.slots nodes) }
{
    match value {
        None => returning_none(alloc),
        Some(register) => returning_one(alloc, assignment, register),
    }
}

fn returning_none(alloc: Global) -> Result<Block, NoMemory>
    ensures { (slots nodes : ℕ) → IfOk result (BlockFits slots nodes) }
{
    let before = at_most_one(alloc, None)?;
    Ok(Block {
        before,
        body: Body::Return { value: None },
    })
}

fn returning_one(
    alloc: Global,
    assignment: &Assignment,
    register: Register,
) -> Result<Block, NoMemory>
    ensures { (nodes : ℕ) → IfOk result (BlockFits assignment.now.slots nodes) }
{
    let from = source_of(assignment, register, 0);
    let before = at_most_one(alloc, from.step)?;
    Ok(Block {
        before,
        body: Body::Return {
            value: Some(from.register),
        },
    })
}

/// A block for an instruction.
fn block_of(
    alloc: Global,
    assignment: &Assignment,
    instruction: &Instruction,
    is_needless: bool,
) -> Result<Block, NoMemory>
    ensures { FitsForInstruction assignment.now.slots instruction.now result }
{
    match instruction {
        Instruction::Do { act, successor } => {
            doing(alloc, assignment, act, *successor, is_needless)
        }
        Instruction::Call {
            function,
            arguments,
            target,
            successor,
        } => calling(
            alloc,
            assignment,
            *function,
            arguments.as_slice(),
            *target,
            *successor,
        ),
        Instruction::Branch { test, taken, other } => {
            branching(alloc, assignment, test, *taken, *other)
        }
        Instruction::Return { value } => returning(alloc, assignment, *value),
    }
}

/// A block for each of the instructions, which are in range; those that are needless do nothing.
pub fn blocks_for(
    alloc: Global,
    nodes: &[Instruction],
    assignment: &Assignment,
    needless: &[bool],
) -> Result<Vec<Block>, NoMemory>
    ensures count { IfOk result (λ made. length made.items ≡ length nodes.now) }
    ensures fit { (registers count : ℕ) → All (InstructionFits registers count) nodes.now →
        IfOk result (λ made. All (BlockFits assignment.now.slots count) made.items) }
{
    let mut made = Vec::new(alloc);
    for (n, instruction) in nodes.iter().enumerate() {
        let is_left_out = needless.get(n).copied().unwrap_or(false);
        made.push(block_of(alloc, assignment, instruction, is_left_out)?)?;
    }
    Ok(made)
}

/// A block for each node; those nodes that are needless do nothing.
pub fn blocks_of(
    alloc: Global,
    input: &rtl_language::Function,
    assignment: &Assignment,
    needless: &[bool],
) -> Result<Vec<Block>, NoMemory>
    ensures count { IfOk result (λ made. length made.items ≡ length input.now.nodes) }
    ensures fit { IfOk result (λ made. All (BlockFits assignment.now.slots (length input.now.nodes)) made.items) }
{
    blocks_for(alloc, input.nodes().as_slice(), assignment, needless)
}
