//! Readers of the parts of a function. Each is one function on lists, which says the value and the
//! bytes behind it, or the first fault.

ghost use Rattle.lang_base.specs.Reading.{IsRead, Reads, items_of};
ghost use Rattle.ltl.specs.Reading.{going, calling, branch, plain, body, block, blocks, graph, parts, function};

use crate::block::{Block, Body};
use crate::function::Function;
use lang_base::{FormError, Row, read_byte};
use lang_helpers::{ReadOne, are_bytes, read_ends, read_node, read_so_many};
use machine::{Location, Move, read_act, read_call, read_frame, read_moves, read_test, read_value};
use std::alloc::Global;

/// The successor, and the moves behind the instruction.
#[tactic(auto, unfolding(crate::specs::Reading::going))]
fn read_going(
    alloc: Global,
    slots: u32,
    nodes: u32,
    bytes: &mut &[u8],
) -> Result<(u16, Row<Move>), FormError>
    ensures { Reads (going slots nodes bytes.old.now) result bytes.new.now }
{
    let successor = read_node(nodes, bytes)?;
    let after = read_moves(alloc, slots, bytes)?;
    Ok((successor, after))
}

#[tactic(auto, unfolding(crate::specs::Reading::calling))]
fn read_calling(alloc: Global, slots: u32, nodes: u32, bytes: &mut &[u8]) -> Result<Body, FormError>
    ensures { Reads (calling slots nodes bytes.old.now) result bytes.new.now }
{
    let (function, (arguments, target)) = read_call(alloc, slots, bytes)?;
    let (successor, after) = read_going(alloc, slots, nodes, bytes)?;
    Ok(Body::Call {
        function,
        arguments,
        target,
        after,
        successor,
    })
}

#[tactic(auto, unfolding(crate::specs::Reading::branch))]
fn read_branch(nodes: u32, bytes: &mut &[u8]) -> Result<Body, FormError>
    ensures { IsRead (branch nodes bytes.old.now) result bytes.new.now }
{
    let test = read_test(bytes)?;
    let taken = read_node(nodes, bytes)?;
    let other = read_node(nodes, bytes)?;
    Ok(Body::Branch { test, taken, other })
}

/// What follows the code of a plain instruction; no other code is one.
#[tactic(auto, unfolding(crate::specs::Reading::plain))]
fn read_plain(
    alloc: Global,
    slots: u32,
    nodes: u32,
    code: u8,
    bytes: &mut &[u8],
) -> Result<Body, FormError>
    ensures { Reads (plain slots nodes code bytes.old.now) result bytes.new.now }
{
    let act = read_act(code, bytes)?;
    let (successor, after) = read_going(alloc, slots, nodes, bytes)?;
    Ok(Body::Go {
        act: Some(act),
        after,
        successor,
    })
}

/// What a block does behind its first moves.
#[tactic(auto, unfolding(crate::specs::Reading::body))]
fn read_body(alloc: Global, slots: u32, nodes: u32, bytes: &mut &[u8]) -> Result<Body, FormError>
    ensures { Reads (body slots nodes bytes.old.now) result bytes.new.now }
{
    match read_byte(bytes)? {
        0 => {
            let (successor, after) = read_going(alloc, slots, nodes, bytes)?;
            Ok(Body::Go {
                act: None,
                after,
                successor,
            })
        }
        6 => read_calling(alloc, slots, nodes, bytes),
        8 => read_branch(nodes, bytes),
        9 => Ok(Body::Return {
            value: read_value(bytes)?,
        }),
        code => read_plain(alloc, slots, nodes, code, bytes),
    }
}

#[tactic(auto, unfolding(crate::specs::Reading::block))]
fn read_block(alloc: Global, slots: u32, nodes: u32, bytes: &mut &[u8]) -> Result<Block, FormError>
    ensures { Reads (block slots nodes bytes.old.now) result bytes.new.now }
{
    let before = read_moves(alloc, slots, bytes)?;
    let body = read_body(alloc, slots, nodes, bytes)?;
    Ok(Block { before, body })
}

/// Reads blocks among so many slots and nodes.
#[derive(Drop)]
struct Blocks {
    slots: u32,
    nodes: u32,
}

impl ReadOne for Blocks {
    type Item = Block;

    ghost part = { λ reader _. block reader.slots reader.nodes };

    fn read(
        &mut self,
        alloc: Global,
        _before: &[Block],
        bytes: &mut &[u8],
    ) -> Result<Block, FormError> {
        read_block(alloc, self.slots, self.nodes, bytes)
    }
}

/// As many blocks as there are nodes.
#[tactic(auto, unfolding(crate::specs::Reading::blocks))]
fn read_blocks(
    alloc: Global,
    slots: u32,
    nodes: u32,
    bytes: &mut &[u8],
) -> Result<Vec<Block>, FormError>
    ensures { Reads (blocks slots nodes bytes.old.now) (items_of result) bytes.new.now }
{
    read_so_many(alloc, Blocks { slots, nodes }, nodes, bytes)
}

/// The entry and the blocks.
#[tactic(auto, unfolding(crate::specs::Reading::graph))]
fn read_graph(alloc: Global, slots: u16, bytes: &mut &[u8]) -> Result<(u16, Row<Block>), FormError>
    ensures { Reads (graph slots bytes.old.now) result bytes.new.now }
{
    let (entry, nodes) = read_ends(bytes)?;
    let blocks = read_blocks(alloc, u32::from(slots), u32::from(nodes), bytes)?;
    Ok((entry, Row::from_vec(blocks)))
}

/// The parameters, the slots, and the graph.
#[tactic(auto, unfolding(crate::specs::Reading::parts))]
fn read_parts(
    alloc: Global,
    bytes: &mut &[u8],
) -> Result<((Row<Location>, u16), (u16, Row<Block>)), FormError>
    ensures { Reads (parts bytes.old.now) result bytes.new.now }
{
    let frame = read_frame(alloc, bytes)?;
    let graph = read_graph(alloc, frame.1, bytes)?;
    Ok((frame, graph))
}

/// A function, its tag first.
#[tactic(auto, unfolding(crate::specs::Reading::function))]
pub fn read_function(alloc: Global, bytes: &mut &[u8]) -> Result<Function, FormError>
    ensures { Reads (function bytes.old.now) result bytes.new.now }
{
    are_bytes(bytes);
    if read_byte(bytes)? != 3 {
        return Err(FormError::BadTag);
    }
    let ((parameters, slots), (entry, blocks)) = read_parts(alloc, bytes)?;
    Ok(Function::new(parameters, slots, entry, blocks))
}
