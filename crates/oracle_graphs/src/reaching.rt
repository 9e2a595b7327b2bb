//! How words come from their locations to the machine's registers, and go from there.

ghost use Rattle.std.specs.Prelude.{ℕ, ◌<◌, IfSome};
ghost use Rattle.locations.specs.Fits.{LocationFits, MoveFits, HasRegister};
ghost use Rattle.oracle_graphs.specs.Plans.{ReachedFits, OperandsFitFor, PlanFits};

use crate::assignment::Assignment;
use crate::plan::{Operands, Plan, Reached};
use locations::{Location, Move, Register as MachineRegister};
use rtl_acts::{Arguments, Register};

/// A register of the machine that has the word of a location: this one, where that is a slot.
fn brought(location: Location, scratch: MachineRegister) -> Reached
    requires { scratch < 8 }
    ensures { (slots : ℕ) → LocationFits slots location → ReachedFits slots result }
{
    match location {
        Location::InRegister(register) => Reached {
            register,
            step: None,
        },
        Location::InSlot(_) => Reached {
            register: scratch,
            step: Some(Move {
                target: Location::InRegister(scratch),
                source: location,
            }),
        },
    }
}

/// A register of the machine whose word goes to a location: r0, where that is a slot.
fn put_away(location: Location) -> Reached
    ensures { (slots : ℕ) → LocationFits slots location → ReachedFits slots result }
{
    match location {
        Location::InRegister(register) => Reached {
            register,
            step: None,
        },
        Location::InSlot(_) => Reached {
            register: 0,
            step: Some(Move {
                target: location,
                source: Location::InRegister(0),
            }),
        },
    }
}

/// A register of the machine that has the word of a register: this one, where that lies in a slot.
pub(crate) fn source_of(
    assignment: &Assignment,
    register: Register,
    scratch: MachineRegister,
) -> Reached
    requires { scratch < 8 }
    ensures { ReachedFits assignment.now.slots result }
{
    brought(assignment.location_of(register), scratch)
}

/// A register of the machine whose word goes to where a register lies: r0, where that is a slot.
pub(crate) fn target_of(assignment: &Assignment, register: Register) -> Reached
    ensures { ReachedFits assignment.now.slots result }
{
    put_away(assignment.location_of(register))
}

/// The arguments, through r0 and r1 where they lie in slots.
pub(crate) fn operands(assignment: &Assignment, arguments: &Arguments) -> Operands
    ensures { OperandsFitFor assignment.now.slots arguments.now result }
{
    match *arguments {
        Arguments::One(first) => {
            let first = source_of(assignment, first, 0);
            Operands {
                arguments: machine::Arguments::One(first.register),
                first: first.step,
                second: None,
            }
        }
        Arguments::Two(first, second) => {
            let first = source_of(assignment, first, 0);
            let second = source_of(assignment, second, 1);
            Operands {
                arguments: machine::Arguments::Two(first.register, second.register),
                first: first.step,
                second: second.step,
            }
        }
    }
}

/// The moves from one location to another, through r0 where both are slots.
pub(crate) fn copying(target: Location, source: Location) -> Plan
    ensures { (slots : ℕ) → LocationFits slots target → LocationFits slots source → PlanFits slots result }
{
    if target == source {
        return Plan::NOTHING;
    }
    match source {
        Location::InRegister(_) => in_one_move(target, source),
        Location::InSlot(_) => from_slot(target, source),
    }
}

fn in_one_move(target: Location, source: Location) -> Plan
    requires { HasRegister target source }
    ensures { (slots : ℕ) → LocationFits slots target → LocationFits slots source → PlanFits slots result }
{
    Plan {
        first: Some(Move { target, source }),
        second: None,
        act: None,
        after: None,
    }
}

/// The moves to a location from any other, by a register.
fn from_slot(target: Location, source: Location) -> Plan
    ensures { (slots : ℕ) → LocationFits slots target → LocationFits slots source → PlanFits slots result }
{
    let to = put_away(target);
    let by = Location::InRegister(to.register);
    Plan {
        first: Some(Move { target: by, source }),
        second: to.step,
        act: None,
        after: None,
    }
}
