//! The code of blocks in an order, written from the first stretch to the last.

ghost use Rattle.std.specs.Prelude.{◌≡◌, ◌++◌, [], ◌∷◌, slice_get, IfOk, OnOk};
ghost use Rattle.std.specs.Option.{option_copied};
ghost use Rattle.linearize_check_proof.specs.Layout.{copies, act_code, is_next, jump, body_code, stretch, order_code};

use lang_base::{NoMemory, Row};
use linearize_check_proof::Instruction;
use locations::{Location, Move};
use ltl::{Block, Body};
use machine::Act;
use std::alloc::Global;

/// The code of the listed nodes' blocks, in order. A number that is no node's has no code.
pub fn lay_out(alloc: Global, blocks: &[Block], order: &[u16]) -> Result<Vec<Instruction>, NoMemory>
    ensures { IfOk result (λ code. code.items ≡ order_code blocks.now order.now) }
{
    let mut code = Vec::new(alloc);
    let mut rest = order;
    while let Some((node, behind)) = rest.split_first() {
        push_stretch(alloc, &mut code, *node, blocks, behind)?;
        rest = behind;
    }
    Ok(code)
}

/// The node's block, where the number is a node's.
pub fn block_at(blocks: &[Block], node: u16) -> Option<&Block>
    ensures { option_copied result ≡ slice_get blocks.now node }
{
    blocks.get(usize::from(node))
}

/// Adds the node's stretch, where these nodes are listed behind it. A refusal may leave a part of it.
#[tactic(auto, using(crate::proofs::Stretches::stretch_none))]
pub fn push_stretch(
    alloc: Global,
    code: &mut Vec<Instruction>,
    node: u16,
    blocks: &[Block],
    behind: &[u16],
) -> Result<(), NoMemory>
    ensures { OnOk result
        (code.new.items ≡ code.old.items ++ stretch node (slice_get blocks.now node) behind.now []) }
{
    if let Some(block) = block_at(blocks, node) {
        code.push(Instruction::Label { label: node })?;
        push_copies(code, block.before.as_slice())?;
        push_body(alloc, code, &block.body, behind)?;
    }
    Ok(())
}

#[tactic(auto, using(crate::proofs::Stretches::call_code))]
fn push_body(
    alloc: Global,
    code: &mut Vec<Instruction>,
    body: &Body,
    behind: &[u16],
) -> Result<(), NoMemory>
    ensures { OnOk result (code.new.items ≡ code.old.items ++ body_code body.now behind.now []) }
{
    match body {
        Body::Go {
            act,
            after,
            successor,
        } => push_go(code, act, after, *successor, behind),
        Body::Call {
            function,
            arguments,
            target,
            after,
            successor,
        } => {
            push_call(alloc, code, *function, arguments, *target)?;
            push_copies(code, after.as_slice())?;
            push_jump(code, *successor, behind)
        }
        Body::Branch { test, taken, other } => {
            code.push(Instruction::Branch {
                test: *test,
                label: *taken,
            })?;
            push_jump(code, *other, behind)
        }
        Body::Return { value } => {
            code.push(Instruction::Return { value: *value })?;
            Ok(())
        }
    }
}

#[tactic(auto, using(crate::proofs::Stretches::go_code))]
fn push_go(
    code: &mut Vec<Instruction>,
    act: &Option<Act>,
    after: &Row<Move>,
    successor: u16,
    behind: &[u16],
) -> Result<(), NoMemory>
    ensures { OnOk result
        (code.new.items ≡ code.old.items ++ body_code (Body.Go act.now after.now successor) behind.now []) }
{
    push_act(code, act)?;
    push_copies(code, after.as_slice())?;
    push_jump(code, successor, behind)
}

fn push_call(
    alloc: Global,
    code: &mut Vec<Instruction>,
    function: u8,
    arguments: &Row<Location>,
    target: Option<Location>,
) -> Result<(), NoMemory>
    ensures { OnOk result (code.new.items ≡ code.old.items ++ Instruction.Call function arguments.now target ∷ []) }
{
    code.push(Instruction::Call {
        function,
        arguments: arguments.copied(alloc)?,
        target,
    })?;
    Ok(())
}

fn push_act(code: &mut Vec<Instruction>, act: &Option<Act>) -> Result<(), NoMemory>
    ensures { OnOk result (code.new.items ≡ code.old.items ++ act_code act.now []) }
{
    if let Some(act) = act {
        code.push(Instruction::Do { act: *act })?;
    }
    Ok(())
}

#[tactic(auto, using(crate::proofs::Stretches::copies_more))]
fn push_copies(code: &mut Vec<Instruction>, moves: &[Move]) -> Result<(), NoMemory>
    ensures { OnOk result (code.new.items ≡ code.old.items ++ copies moves.now []) }
{
    for step in moves {
        code.push(Instruction::Copy { step: *step })?;
    }
    Ok(())
}

/// Adds a jump to the node, unless it is listed next.
fn push_jump(code: &mut Vec<Instruction>, node: u16, behind: &[u16]) -> Result<(), NoMemory>
    ensures { OnOk result (code.new.items ≡ code.old.items ++ jump node behind.now []) }
{
    if !is_next(node, behind) {
        code.push(Instruction::Goto { label: node })?;
    }
    Ok(())
}

fn is_next(node: u16, behind: &[u16]) -> bool
    ensures { result ≡ is_next node behind.now }
{
    match behind {
        [next, _rest @ ..] => node == *next,
        [] => false,
    }
}
