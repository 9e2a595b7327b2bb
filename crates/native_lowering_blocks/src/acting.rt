//! The blocks of plain instructions.

ghost use Rattle.std.specs.Prelude.{◌∷◌};
ghost use Rattle.x86_syntax.specs.declared.instruction.Instruction.TheVariants.{Copy};
ghost use Rattle.x86_syntax.specs.declared.register.Register.TheVariants.{Edi};
ghost use Rattle.native_lowering_definition.specs.Locations.{register_of};
ghost use Rattle.native_lowering_definition.specs.Blocks.{prints, acts};
ghost use Rattle.native_lowering_code.specs.Adding.{Adds};

use crate::around::Around;
use lang_base::NoMemory;
use machine::Act;
use native_lowering_code::{Facts, add, add_load, add_operator, add_store, kind_of, register_of};
use x86_syntax::{Instruction, Register};

/// Prints a byte of the source.
fn add_put_byte(out: &mut Vec<Instruction>, source: u8, target: Option<u8>) -> Result<(), NoMemory>
    ensures { Adds result (Copy Edi (register_of source) ∷ prints target) out.old.items out.new.items }
{
    let first = Instruction::Copy {
        target: Register::Edi,
        source: register_of(source),
    };
    match target {
        None => add(out, &[first, Instruction::Put]),
        Some(r) => {
            let last = Instruction::Copy {
                target: register_of(r),
                source: Register::Eax,
            };
            add(out, &[first, Instruction::Put, last])
        }
    }
}

/// The block of a plain instruction.
pub fn add_act(
    out: &mut Vec<Instruction>,
    around: &Around<'_>,
    facts: &Facts,
    act: Act,
) -> Result<(), NoMemory>
    ensures { Adds result (acts around.now facts.now act) out.old.items out.new.items }
{
    match act {
        Act::Constant { target, word } => {
            let target = register_of(target);
            add(out, &[Instruction::Set { target, word }])
        }
        Act::Operate {
            op,
            target,
            arguments,
        } => add_operator(out, kind_of(op), target, arguments, facts),
        Act::Load {
            target,
            global,
            index,
        } => {
            let (cells, known) = (around.cells_in(global), facts.known(index));
            add_load(out, target, global, index, cells, known)
        }
        Act::Store {
            global,
            index,
            source,
        } => {
            let (cells, known) = (around.cells_in(global), facts.known(index));
            add_store(out, global, index, source, cells, known)
        }
        Act::Put { source, target } => add_put_byte(out, source, target),
    }
}
