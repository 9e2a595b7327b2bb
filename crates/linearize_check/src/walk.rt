//! A walk along the code that anybody proposes, one stretch after the other.

ghost use Rattle.std.specs.Prelude.{◌≡◌, ◌↔◌, drop, IsTrue, IfOk};
ghost use Rattle.linearize_check.specs.Faults.{BeginsWith, IsLonger, TellsMisplaced};

use crate::faults::lesser;
use lang_base::NoMemory;
use linear_language::Instruction;
use linearize_check_layout::push_stretch;
use ltl::Block;
use std::alloc::Global;

/// What a walk along the code finds.
#[derive(Clone, Copy)]
pub(crate) struct Walk {
    /// The lowest node whose stretch is not what the code has in its place.
    pub misplaced: Option<u16>,
    /// Whether code is left behind the last stretch.
    pub is_longer: bool,
}

/// Goes along the code with the stretches of the order.
pub(crate) fn walk_along(
    alloc: Global,
    blocks: &[Block],
    order: &[u16],
    code: &[Instruction],
) -> Result<Walk, NoMemory>
    ensures misplaced { IfOk result (λ walk. TellsMisplaced blocks.now code.now order.now walk.misplaced) }
    ensures longer { IfOk result (λ walk. IsTrue walk.is_longer ↔ IsLonger blocks.now code.now order.now) }
{
    let mut misplaced = None;
    let mut stretch = Vec::new(alloc);
    let mut left = code;
    for (i, node) in order.iter().enumerate() {
        stretch.clear();
        push_stretch(alloc, &mut stretch, *node, blocks, &order[i + 1..])?;
        if !begins_with(left, stretch.as_slice()) {
            misplaced = lesser(misplaced, Some(*node));
        }
        left = behind(left, stretch.len());
    }
    Ok(Walk {
        misplaced,
        is_longer: !left.is_empty(),
    })
}

/// Whether the code begins with this front.
fn begins_with(code: &[Instruction], front: &[Instruction]) -> bool
    ensures { IsTrue result ↔ BeginsWith code.now front.now }
{
    code.starts_with(front)
}

/// The code behind so many instructions.
fn behind(code: &[Instruction], count: usize) -> &[Instruction]
    ensures { result.now ≡ drop count code.now }
{
    if count < code.len() {
        &code[count..]
    } else {
        &[]
    }
}
