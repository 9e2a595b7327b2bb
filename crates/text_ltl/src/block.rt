//! Blocks, a line each.

ghost use Rattle.text_ltl.specs.Shown.{shown_block};

use crate::body::push_body;
use crate::moves::push_moves;
use lang_base::NoMemory;
use ltl::Block;
use text_keys::{WriteNumbered, push_bytes, push_number};

/// The line of a block.
pub(crate) struct Line;

impl WriteNumbered for Line {
    type Item = Block;

    ghost text = { shown_block };

    fn push(out: &mut Vec<u8>, number: u64, item: &Block) -> Result<(), NoMemory> {
        push_bytes(out, b"  ")?;
        push_number(out, number)?;
        push_moves(out, item.before.as_slice())?;
        push_body(out, &item.body)
    }
}
