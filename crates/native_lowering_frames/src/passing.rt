//! The blocks of arguments and parameters: the first four pass in registers, the others in cells.

ghost use Rattle.std.specs.Prelude.{◌≡◌, ◌≤◌, ◌<◌, length, drop, slice_index_or};
ghost use Rattle.std.specs.List.{AllByRecursion};
ghost use Rattle.locations.specs.Fits.{LocationFits};
ghost use Rattle.native_lowering_definition.specs.Locations.{passing};
ghost use Rattle.native_lowering_definition.specs.Moving.{fetches_each, keeps_each, passes, puts_each, takes_each, receives};
ghost use Rattle.x86_syntax.specs.declared.register.Register.TheVariants.{Edi};
ghost use Rattle.native_lowering_code.specs.Adding.{Adds};

use crate::frame::Frame;
use crate::moving::{add_fetch, add_keep, add_put, add_take};
use lang_base::NoMemory;
use locations::Location;
use x86_syntax::{Instruction, Register};

/// The registers in which the first arguments pass.
const PASSING: [Register; 4] = [Register::Edi, Register::Esi, Register::Edx, Register::Ecx];

/// The register of an argument.
fn passes_in(j: usize) -> Register
    requires { j < 4 }
    ensures { result ≡ slice_index_or passing j Edi }
{
    PASSING[j]
}

fn add_fetches(
    out: &mut Vec<Instruction>,
    frame: &Frame,
    arguments: &[Location],
) -> Result<(), NoMemory>
    requires { AllByRecursion (LocationFits frame.now.slots) arguments.now }
    ensures { Adds result (fetches_each frame.now passing arguments.now) out.old.items out.new.items }
{
    for j in 0..arguments.len().min(4) {
        add_fetch(out, frame, passes_in(j), arguments[j])?;
    }
    Ok(())
}

fn add_keeps(
    out: &mut Vec<Instruction>,
    frame: &Frame,
    arguments: &[Location],
) -> Result<(), NoMemory>
    requires each { AllByRecursion (LocationFits frame.now.slots) arguments.now }
    requires few { length arguments.now ≤ 255 }
    ensures { Adds result (keeps_each frame.now 0 (drop 4 arguments.now)) out.old.items out.new.items }
{
    for j in 4..arguments.len() {
        add_keep(out, frame, (j - 4) as u16, arguments[j])?;
    }
    Ok(())
}

/// The arguments of a call.
pub fn add_arguments(
    out: &mut Vec<Instruction>,
    frame: &Frame,
    arguments: &[Location],
) -> Result<(), NoMemory>
    requires each { AllByRecursion (LocationFits frame.now.slots) arguments.now }
    requires few { length arguments.now ≤ 255 }
    ensures { Adds result (passes frame.now arguments.now) out.old.items out.new.items }
{
    add_keeps(out, frame, arguments)?;
    add_fetches(out, frame, arguments)
}

fn add_puts(
    out: &mut Vec<Instruction>,
    frame: &Frame,
    parameters: &[Location],
) -> Result<(), NoMemory>
    requires { AllByRecursion (LocationFits frame.now.slots) parameters.now }
    ensures { Adds result (puts_each frame.now parameters.now passing) out.old.items out.new.items }
{
    for j in 0..parameters.len().min(4) {
        add_put(out, frame, parameters[j], passes_in(j))?;
    }
    Ok(())
}

fn add_takes(
    out: &mut Vec<Instruction>,
    frame: &Frame,
    parameters: &[Location],
) -> Result<(), NoMemory>
    requires each { AllByRecursion (LocationFits frame.now.slots) parameters.now }
    requires few { length parameters.now ≤ 16 }
    ensures { Adds result (takes_each frame.now 0 (drop 4 parameters.now)) out.old.items out.new.items }
{
    for j in 4..parameters.len() {
        add_take(
            out,
            frame,
            parameters[j],
            frame.argument_cell((j - 4) as u16),
        )?;
    }
    Ok(())
}

/// The parameters of a function.
pub fn add_parameters(
    out: &mut Vec<Instruction>,
    frame: &Frame,
    parameters: &[Location],
) -> Result<(), NoMemory>
    requires each { AllByRecursion (LocationFits frame.now.slots) parameters.now }
    requires few { length parameters.now ≤ 16 }
    ensures { Adds result (receives frame.now parameters.now) out.old.items out.new.items }
{
    add_puts(out, frame, parameters)?;
    add_takes(out, frame, parameters)
}
