//! Writers of the parts of a function: each appends the text.

ghost use Rattle.std.specs.Prelude.{◌≤◌, ◌∷◌, length};
ghost use Rattle.lang_base.specs.Texts.{Appends};
ghost use Rattle.machine.specs.Fits.{move_limit, argument_limit};
ghost use Rattle.ltl.specs.declared.block.Body.TheVariants.{Branch};
ghost use Rattle.ltl.specs.Function.{HasShortLists, after_of, arguments_of};
ghost use Rattle.ltl.specs.Spelling.{any_code, any_body, going_text, body_text, block_text, spelling};

use crate::block::{Block, Body};
use crate::function::Function;
use lang_base::{NoMemory, push_byte, push_u16};
use lang_helpers::{WriteOne, push_each};
use machine::{
    Act, Move, Test, push_act, push_call, push_frame, push_moves, push_test, push_value,
};

/// The successor, and the moves behind the instruction.
fn push_going(out: &mut Vec<u8>, successor: u16, after: &[Move]) -> Result<(), NoMemory>
    requires { length after.now ≤ move_limit }
    ensures { Appends result (going_text (successor, after.now)) out.old.items out.new.items }
{
    push_u16(out, successor)?;
    push_moves(out, after)
}

/// An act, or nothing to do.
fn push_any(out: &mut Vec<u8>, act: &Option<Act>) -> Result<(), NoMemory>
    ensures { Appends result (any_code act.now ∷ any_body act.now) out.old.items out.new.items }
{
    match act {
        None => push_byte(out, 0),
        Some(act) => push_act(out, act),
    }
}

/// A test, where to go on where it holds, and where else.
fn push_branch(out: &mut Vec<u8>, test: &Test, taken: u16, other: u16) -> Result<(), NoMemory>
    ensures { Appends result (body_text (Branch test.now taken other)) out.old.items out.new.items }
{
    push_byte(out, 8)?;
    push_test(out, test)?;
    push_u16(out, taken)?;
    push_u16(out, other)
}

fn push_body(out: &mut Vec<u8>, body: &Body) -> Result<(), NoMemory>
    requires after { length (after_of body.now) ≤ move_limit }
    requires arguments { length (arguments_of body.now) ≤ argument_limit }
    ensures { Appends result (body_text body.now) out.old.items out.new.items }
{
    match body {
        Body::Go {
            act,
            after,
            successor,
        } => {
            push_any(out, act)?;
            push_going(out, *successor, after.as_slice())
        }
        Body::Call {
            function,
            arguments,
            target,
            after,
            successor,
        } => {
            push_byte(out, 6)?;
            push_call(out, *function, arguments.as_slice(), target)?;
            push_going(out, *successor, after.as_slice())
        }
        Body::Branch { test, taken, other } => push_branch(out, test, *taken, *other),
        Body::Return { value } => {
            push_byte(out, 9)?;
            push_value(out, *value)
        }
    }
}

fn push_block(out: &mut Vec<u8>, block: &Block) -> Result<(), NoMemory>
    requires { HasShortLists block.now }
    ensures { Appends result (block_text block.now) out.old.items out.new.items }
{
    push_moves(out, block.before.as_slice())?;
    push_body(out, &block.body)
}

impl WriteOne for Block {
    type Item = Block;

    ghost text = { block_text };

    ghost is_short = { HasShortLists };

    fn push(out: &mut Vec<u8>, item: &Block) -> Result<(), NoMemory> {
        push_block(out, item)
    }
}

/// A function, its tag first.
pub fn push_function(out: &mut Vec<u8>, function: &Function) -> Result<(), NoMemory>
    ensures { Appends result (spelling function.now) out.old.items out.new.items }
{
    let blocks = function.blocks().as_slice();
    push_byte(out, 3)?;
    push_frame(out, function.parameters().as_slice(), function.slots())?;
    push_u16(out, function.entry())?;
    push_u16(out, blocks.len() as u16)?;
    push_each::<Block>(out, blocks)
}
