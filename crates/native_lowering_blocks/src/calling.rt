//! The blocks of calls.

ghost use Rattle.std.specs.Prelude.{◌≤◌, ◌∷◌, length};
ghost use Rattle.std.specs.List.{AllByRecursion};
ghost use Rattle.locations.specs.Fits.{LocationFits, TargetFits};
ghost use Rattle.x86_syntax.specs.declared.instruction.Instruction.TheVariants.{Call};
ghost use Rattle.native_lowering_definition.specs.Blocks.{gets, calls_as};
ghost use Rattle.native_lowering_code.specs.Adding.{Adds};
ghost use Rattle.native_lowering_blocks.specs.Blocks.{called};

use lang_base::NoMemory;
use locations::Location;
use native_lowering_code::add;
use native_lowering_frames::{Frame, add_arguments, add_put};
use x86_syntax::{Instruction, Register};

/// The call, and its result.
fn add_result(
    out: &mut Vec<Instruction>,
    frame: &Frame,
    function: u8,
    target: Option<Location>,
) -> Result<(), NoMemory>
    requires { TargetFits frame.now.slots target }
    ensures { Adds result (Call function ∷ gets frame.now target) out.old.items out.new.items }
{
    add(out, &[Instruction::Call { function }])?;
    match target {
        None => Ok(()),
        Some(location) => add_put(out, frame, location, Register::Eax),
    }
}

fn add_whole(
    out: &mut Vec<Instruction>,
    frame: &Frame,
    function: u8,
    arguments: &[Location],
    target: Option<Location>,
) -> Result<(), NoMemory>
    requires each { AllByRecursion (LocationFits frame.now.slots) arguments.now }
    requires few { length arguments.now ≤ 255 }
    requires target { TargetFits frame.now.slots target }
    ensures { Adds result (called frame.now function arguments.now target) out.old.items out.new.items }
{
    add_arguments(out, frame, arguments)?;
    add_result(out, frame, function, target)
}

/// A call of a function that takes so many arguments, if it is there.
pub fn add_call(
    out: &mut Vec<Instruction>,
    frame: &Frame,
    function: u8,
    arguments: &[Location],
    target: Option<Location>,
    arity: Option<usize>,
) -> Result<(), NoMemory>
    requires each { AllByRecursion (LocationFits frame.now.slots) arguments.now }
    requires few { length arguments.now ≤ 255 }
    requires target { TargetFits frame.now.slots target }
    ensures { Adds result (calls_as frame.now function arguments.now target arity) out.old.items out.new.items }
{
    match arity {
        None => add(out, &[Instruction::Stop]),
        Some(count) => {
            if arguments.len() == count {
                add_whole(out, frame, function, arguments, target)
            } else {
                add(out, &[Instruction::Stop])
            }
        }
    }
}
