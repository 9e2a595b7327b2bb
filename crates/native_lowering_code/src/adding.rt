//! Native code in the making.

ghost use Rattle.std.specs.Prelude.{[], ◌∷◌, ◌++◌};
ghost use Rattle.native_lowering_definition.specs.Operating.{copy};
ghost use Rattle.native_lowering_code.specs.Adding.{Adds};

use crate::registers::register_of;
use lang_base::NoMemory;
use x86_syntax::Instruction;

/// A block is put behind what is there.
pub fn add(out: &mut Vec<Instruction>, block: &[Instruction]) -> Result<(), NoMemory>
    ensures { Adds result block.now out.old.items out.new.items }
{
    out.extend_from_slice(block)?;
    Ok(())
}

/// D becomes A, unless they are one; then comes another instruction.
pub(crate) fn add_copied(
    out: &mut Vec<Instruction>,
    d: u8,
    a: u8,
    last: Instruction,
) -> Result<(), NoMemory>
    ensures { Adds result (copy d a ++ last ∷ []) out.old.items out.new.items }
{
    if a == d {
        return add(out, &[last]);
    }
    let (target, source) = (register_of(d), register_of(a));
    add(out, &[Instruction::Copy { target, source }, last])
}
