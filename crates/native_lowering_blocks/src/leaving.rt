//! What a function begins with, and how it is left.

ghost use Rattle.std.specs.Prelude.{◌++◌, ◌∷◌, ◌≤◌, length};
ghost use Rattle.std.specs.List.{AllByRecursion};
ghost use Rattle.locations.specs.Fits.{LocationFits};
ghost use Rattle.x86_syntax.specs.declared.instruction.Instruction.TheVariants.{Room};
ghost use Rattle.native_lowering_definition.specs.Frames.{size_of, saved_cell};
ghost use Rattle.native_lowering_definition.specs.Blocks.{grows, opening, leaves};
ghost use Rattle.native_lowering_definition.specs.Blocks.{result as gives};
ghost use Rattle.native_lowering_code.specs.Adding.{Adds};

use lang_base::NoMemory;
use locations::Location;
use native_lowering_code::{add, register_of};
use native_lowering_frames::{Frame, add_parameters, add_restores, add_saves};
use x86_syntax::{Instruction, Register};

fn add_value(out: &mut Vec<Instruction>, value: Option<u8>) -> Result<(), NoMemory>
    ensures { Adds result (gives value) out.old.items out.new.items }
{
    match value {
        None => Ok(()),
        Some(r) => {
            let (target, source) = (Register::Eax, register_of(r));
            add(out, &[Instruction::Copy { target, source }])
        }
    }
}

/// The block of a return.
pub fn add_return(
    out: &mut Vec<Instruction>,
    frame: &Frame,
    value: Option<u8>,
) -> Result<(), NoMemory>
    ensures { Adds result (leaves frame.now value) out.old.items out.new.items }
{
    add_value(out, value)?;
    add_restores(out, frame.saved_cell(), frame.saved())?;
    let count = frame.size();
    add(out, &[Instruction::Shrink { count }, Instruction::Return])
}

/// Room is tested, and the frame is made.
fn add_room(out: &mut Vec<Instruction>, frame: &Frame) -> Result<(), NoMemory>
    ensures { Adds result (Room ∷ grows (size_of frame.now)) out.old.items out.new.items }
{
    let count = frame.size();
    if count == 0 {
        add(out, &[Instruction::Room])
    } else {
        add(out, &[Instruction::Room, Instruction::Grow { count }])
    }
}

/// What a function with these parameters begins with.
pub fn add_opening(
    out: &mut Vec<Instruction>,
    frame: &Frame,
    parameters: &[Location],
) -> Result<(), NoMemory>
    requires each { AllByRecursion (LocationFits frame.now.slots) parameters.now }
    requires few { length parameters.now ≤ 16 }
    ensures { Adds result (opening frame.now parameters.now) out.old.items out.new.items }
{
    add_room(out, frame)?;
    add_saves(out, frame.saved_cell(), frame.saved())?;
    add_parameters(out, frame, parameters)
}
