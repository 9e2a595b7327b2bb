//! Writers of locations and of what is made of them: each appends the text.

ghost use Rattle.std.specs.Prelude.{◌≤◌, length};
ghost use Rattle.lang_helpers.specs.Texts.{Appends};
ghost use Rattle.locations.specs.Fits.{move_limit, argument_limit, parameter_limit};
ghost use Rattle.locations.specs.Spelling.{location_text, locations_text, move_text, moves_text, value_text, target_text, call_text, frame_text};

use crate::location::{Location, Move};
use crate::register::Register;
use lang_helpers::{NoMemory, WriteOne, push_byte, push_each, push_u16};

/// A register, or none.
pub fn push_value(out: &mut Vec<u8>, value: Option<Register>) -> Result<(), NoMemory>
    ensures { Appends result (value_text value) out.old.items out.new.items }
{
    match value {
        None => push_byte(out, 0),
        Some(register) => {
            push_byte(out, 1)?;
            push_byte(out, register)
        }
    }
}

fn push_location(out: &mut Vec<u8>, location: &Location) -> Result<(), NoMemory>
    ensures { Appends result (location_text location.now) out.old.items out.new.items }
{
    match *location {
        Location::InRegister(register) => {
            push_byte(out, 0)?;
            push_byte(out, register)
        }
        Location::InSlot(slot) => {
            push_byte(out, 1)?;
            push_u16(out, slot)
        }
    }
}

/// A move: its target, then its source.
pub fn push_move(out: &mut Vec<u8>, step: &Move) -> Result<(), NoMemory>
    ensures { Appends result (move_text step.now) out.old.items out.new.items }
{
    push_location(out, &step.target)?;
    push_location(out, &step.source)
}

impl WriteOne for Move {
    type Item = Move;

    ghost text = { move_text };

    fn push(out: &mut Vec<u8>, item: &Move) -> Result<(), NoMemory> {
        push_move(out, item)
    }
}

/// The moves of one list.
pub fn push_moves(out: &mut Vec<u8>, moves: &[Move]) -> Result<(), NoMemory>
    requires { length moves.now ≤ move_limit }
    ensures { Appends result (moves_text moves.now) out.old.items out.new.items }
{
    push_byte(out, moves.len() as u8)?;
    push_each::<Move>(out, moves)
}

impl WriteOne for Location {
    type Item = Location;

    ghost text = { location_text };

    fn push(out: &mut Vec<u8>, item: &Location) -> Result<(), NoMemory> {
        push_location(out, item)
    }
}

fn push_locations(out: &mut Vec<u8>, locations: &[Location]) -> Result<(), NoMemory>
    requires { length locations.now ≤ argument_limit }
    ensures { Appends result (locations_text locations.now) out.old.items out.new.items }
{
    push_byte(out, locations.len() as u8)?;
    push_each::<Location>(out, locations)
}

/// A location, or none.
fn push_target(out: &mut Vec<u8>, target: &Option<Location>) -> Result<(), NoMemory>
    ensures { Appends result (target_text target.now) out.old.items out.new.items }
{
    match target {
        None => push_byte(out, 0),
        Some(location) => {
            push_byte(out, 1)?;
            push_location(out, location)
        }
    }
}

/// What a call names: a function, where the arguments lie, and where the result goes.
pub fn push_call(
    out: &mut Vec<u8>,
    function: u8,
    arguments: &[Location],
    target: &Option<Location>,
) -> Result<(), NoMemory>
    requires { length arguments.now ≤ argument_limit }
    ensures { Appends result (call_text (function, (arguments.now, target.now))) out.old.items out.new.items }
{
    push_byte(out, function)?;
    push_locations(out, arguments)?;
    push_target(out, target)
}

/// Where the parameters of a function lie, and the number of its slots.
pub fn push_frame(out: &mut Vec<u8>, parameters: &[Location], slots: u16) -> Result<(), NoMemory>
    requires { length parameters.now ≤ parameter_limit }
    ensures { Appends result (frame_text (parameters.now, slots)) out.old.items out.new.items }
{
    push_locations(out, parameters)?;
    push_u16(out, slots)
}
