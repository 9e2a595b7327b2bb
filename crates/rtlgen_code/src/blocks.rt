//! The nodes behind blocks and at the heads of loops.

ghost use Rattle.std.specs.Prelude.{◌≡◌, ℕ, List, [], ◌∷◌, ◌++◌, OnOk, reverse, slice_index_or, slice_set};

use crate::Graph;
use lang_base::NoMemory;
use rtl_acts::Act;
use rtl_language::Instruction;

/// A block is entered, behind which this node is. The inmost block is the last.
pub(crate) fn enter(exits: &mut Vec<u16>, next: u16) -> Result<(), NoMemory>
    ensures { OnOk result (exits.new.items ≡ exits.old.items ++ next ∷ []) }
{
    exits.push(next)?;
    Ok(())
}

/// The inmost block is left.
pub(crate) fn leave(exits: &mut Vec<u16>)
    ensures { (others : List ℕ) (next : ℕ) → exits.old.items ≡ others ++ next ∷ [] → exits.new.items ≡ others }
{
    let _node = exits.pop();
}

/// The node behind so many blocks and one more, from the inmost on; where there are not so many, any would do.
pub(crate) fn exit_of(exits: &[u16], blocks: u16) -> u16
    ensures { result ≡ slice_index_or (reverse exits.now) blocks 0 }
{
    let blocks = usize::from(blocks);
    if blocks < exits.len() {
        exits[exits.len() - 1 - blocks]
    } else {
        0
    }
}

/// The head of a loop goes on to its body, which is added behind it.
pub(crate) fn go_on(graph: &mut Graph, head: u16, body: u16)
    ensures nodes { graph.new.nodes.items ≡ slice_set graph.old.nodes.items head (Instruction.Do Act.Nop body) }
    ensures space { graph.new.is_full ≡ graph.old.is_full }
{
    let head = usize::from(head);
    if head < graph.nodes.len() {
        graph.nodes[head] = Instruction::Do {
            act: Act::Nop,
            successor: body,
        };
    }
}
