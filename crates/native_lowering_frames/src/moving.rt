//! The blocks of moves between locations, registers and cells.

ghost use Rattle.locations.specs.Fits.{LocationFits};
ghost use Rattle.native_lowering_definition.specs.Moving.{fetches, puts, keeps, takes, moves};
ghost use Rattle.native_lowering_code.specs.Adding.{Adds};

use crate::frame::Frame;
use lang_base::NoMemory;
use locations::Location;
use native_lowering_code::{add, register_of};
use x86_syntax::{Instruction, Register};

/// From a location to a register.
pub fn add_fetch(
    out: &mut Vec<Instruction>,
    frame: &Frame,
    target: Register,
    location: Location,
) -> Result<(), NoMemory>
    requires { LocationFits frame.now.slots location }
    ensures { Adds result (fetches frame.now target location) out.old.items out.new.items }
{
    match location {
        Location::InRegister(r) => {
            let source = register_of(r);
            add(out, &[Instruction::Copy { target, source }])
        }
        Location::InSlot(s) => {
            let cell = frame.slot_cell(s);
            add(out, &[Instruction::Take { target, cell }])
        }
    }
}

/// From a register to a location.
pub fn add_put(
    out: &mut Vec<Instruction>,
    frame: &Frame,
    location: Location,
    source: Register,
) -> Result<(), NoMemory>
    requires { LocationFits frame.now.slots location }
    ensures { Adds result (puts frame.now location source) out.old.items out.new.items }
{
    match location {
        Location::InRegister(r) => {
            let target = register_of(r);
            add(out, &[Instruction::Copy { target, source }])
        }
        Location::InSlot(s) => {
            let cell = frame.slot_cell(s);
            add(out, &[Instruction::Keep { cell, source }])
        }
    }
}

/// From a location to a cell.
pub fn add_keep(
    out: &mut Vec<Instruction>,
    frame: &Frame,
    cell: u16,
    location: Location,
) -> Result<(), NoMemory>
    requires { LocationFits frame.now.slots location }
    ensures { Adds result (keeps frame.now cell location) out.old.items out.new.items }
{
    match location {
        Location::InRegister(r) => {
            let source = register_of(r);
            add(out, &[Instruction::Keep { cell, source }])
        }
        Location::InSlot(s) => {
            let eax = Register::Eax;
            let take = Instruction::Take {
                target: eax,
                cell: frame.slot_cell(s),
            };
            add(out, &[take, Instruction::Keep { cell, source: eax }])
        }
    }
}

/// From a cell to a location.
pub fn add_take(
    out: &mut Vec<Instruction>,
    frame: &Frame,
    location: Location,
    cell: u16,
) -> Result<(), NoMemory>
    requires { LocationFits frame.now.slots location }
    ensures { Adds result (takes frame.now location cell) out.old.items out.new.items }
{
    match location {
        Location::InRegister(r) => {
            let target = register_of(r);
            add(out, &[Instruction::Take { target, cell }])
        }
        Location::InSlot(s) => {
            let eax = Register::Eax;
            let keep = Instruction::Keep {
                cell: frame.slot_cell(s),
                source: eax,
            };
            add(out, &[Instruction::Take { target: eax, cell }, keep])
        }
    }
}

/// Between locations.
pub fn add_move(
    out: &mut Vec<Instruction>,
    frame: &Frame,
    target: Location,
    source: Location,
) -> Result<(), NoMemory>
    requires target { LocationFits frame.now.slots target }
    requires source { LocationFits frame.now.slots source }
    ensures { Adds result (moves frame.now target source) out.old.items out.new.items }
{
    match target {
        Location::InRegister(r) => add_fetch(out, frame, register_of(r), source),
        Location::InSlot(s) => add_keep(out, frame, frame.slot_cell(s), source),
    }
}
