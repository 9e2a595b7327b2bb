//! The blocks that save registers in cells and take them back.

ghost use Rattle.std.specs.Prelude.{◌+◌, ◌<◌, length};
ghost use Rattle.native_lowering_definition.specs.Blocks.{saves, restores};
ghost use Rattle.native_lowering_code.specs.Adding.{Adds};

use lang_base::NoMemory;
use native_lowering_code::register_of;
use x86_syntax::Instruction;

/// From a cell on.
pub fn add_saves(out: &mut Vec<Instruction>, first: u16, saved: &[u8]) -> Result<(), NoMemory>
    requires { first + length saved.now < 65536 }
    ensures { Adds result (saves first saved.now) out.old.items out.new.items }
{
    for (j, r) in saved.iter().enumerate() {
        let source = register_of(*r);
        let cell = first + j as u16;
        out.push(Instruction::Keep { cell, source })?;
    }
    Ok(())
}

pub fn add_restores(out: &mut Vec<Instruction>, first: u16, saved: &[u8]) -> Result<(), NoMemory>
    requires { first + length saved.now < 65536 }
    ensures { Adds result (restores first saved.now) out.old.items out.new.items }
{
    for (j, r) in saved.iter().enumerate() {
        let target = register_of(*r);
        let cell = first + j as u16;
        out.push(Instruction::Take { target, cell })?;
    }
    Ok(())
}
