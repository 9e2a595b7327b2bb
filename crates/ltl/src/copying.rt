//! Copies of functions and their parts, equal to what they were made from.

ghost use Rattle.std.specs.Prelude.{◌≡◌, IfOk};

use crate::block::{Block, Body};
use crate::function::Function;
use lang_base::{NoMemory, Row};
use lang_helpers::{CopyOne, copy_each};
use std::alloc::Global;

fn copy_body(alloc: Global, body: &Body) -> Result<Body, NoMemory>
    ensures { IfOk result (λ copied. copied ≡ body.now) }
{
    match body {
        Body::Go {
            act,
            after,
            successor,
        } => Ok(Body::Go {
            act: *act,
            after: after.copied(alloc)?,
            successor: *successor,
        }),
        Body::Call {
            function,
            arguments,
            target,
            after,
            successor,
        } => Ok(Body::Call {
            function: *function,
            arguments: arguments.copied(alloc)?,
            target: *target,
            after: after.copied(alloc)?,
            successor: *successor,
        }),
        Body::Branch { test, taken, other } => Ok(Body::Branch {
            test: *test,
            taken: *taken,
            other: *other,
        }),
        Body::Return { value } => Ok(Body::Return { value: *value }),
    }
}

fn copy_block(alloc: Global, block: &Block) -> Result<Block, NoMemory>
    ensures { IfOk result (λ copied. copied ≡ block.now) }
{
    let before = block.before.copied(alloc)?;
    let body = copy_body(alloc, &block.body)?;
    Ok(Block { before, body })
}

impl CopyOne for Block {
    type Item = Block;

    fn copy_one(alloc: Global, item: &Block) -> Result<Block, NoMemory> {
        copy_block(alloc, item)
    }
}

/// An equal function.
pub fn copy_function(alloc: Global, function: &Function) -> Result<Function, NoMemory>
    ensures { IfOk result (λ copied. copied ≡ function.now) }
{
    let parameters = function.parameters().copied(alloc)?;
    let blocks = copy_each::<Block>(alloc, function.blocks().as_slice())?;
    Ok(Function::new(
        parameters,
        function.slots(),
        function.entry(),
        Row::from_vec(blocks),
    ))
}
