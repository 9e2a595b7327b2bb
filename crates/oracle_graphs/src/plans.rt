//! What blocks do in place of plain instructions, with the locations that registers have.

ghost use Rattle.std.specs.Prelude.{ℕ};
ghost use Rattle.rtl_acts.specs.Fits as rtl_fits;
ghost use Rattle.oracle_graphs.specs.Plans.{PlanFits, PlanFitsFor};

use crate::assignment::Assignment;
use crate::plan::Plan;
use crate::reaching::{copying, operands, source_of, target_of};
use ints::Op;
use rtl_acts::{Act, Arguments, Register};

fn constant(assignment: &Assignment, target: Register, word: u32) -> Plan
    ensures { PlanFits assignment.now.slots result }
{
    let to = target_of(assignment, target);
    Plan {
        first: None,
        second: None,
        act: Some(machine::Act::Constant {
            target: to.register,
            word,
        }),
        after: to.step,
    }
}

fn operation(assignment: &Assignment, op: Op, target: Register, arguments: &Arguments) -> Plan
    ensures { PlanFitsFor assignment.now.slots op arguments.now result }
{
    let to = target_of(assignment, target);
    let taken = operands(assignment, arguments);
    Plan {
        first: taken.first,
        second: taken.second,
        act: Some(machine::Act::Operate {
            op,
            target: to.register,
            arguments: taken.arguments,
        }),
        after: to.step,
    }
}

fn load(assignment: &Assignment, target: Register, global: u16, index: Register) -> Plan
    ensures { rtl_fits.GlobalFits global → PlanFits assignment.now.slots result }
{
    let to = target_of(assignment, target);
    let from = source_of(assignment, index, 0);
    Plan {
        first: from.step,
        second: None,
        act: Some(machine::Act::Load {
            target: to.register,
            global,
            index: from.register,
        }),
        after: to.step,
    }
}

fn store(assignment: &Assignment, global: u16, index: Register, source: Register) -> Plan
    ensures { rtl_fits.GlobalFits global → PlanFits assignment.now.slots result }
{
    let at = source_of(assignment, index, 0);
    let from = source_of(assignment, source, 1);
    Plan {
        first: at.step,
        second: from.step,
        act: Some(machine::Act::Store {
            global,
            index: at.register,
            source: from.register,
        }),
        after: None,
    }
}

fn put(assignment: &Assignment, source: Register, target: Option<Register>) -> Plan
    ensures { PlanFits assignment.now.slots result }
{
    match target {
        None => put_into_none(assignment, source),
        Some(register) => put_into(assignment, source, register),
    }
}

fn put_into_none(assignment: &Assignment, source: Register) -> Plan
    ensures { PlanFits assignment.now.slots result }
{
    let from = source_of(assignment, source, 0);
    Plan {
        first: from.step,
        second: None,
        act: Some(machine::Act::Put {
            source: from.register,
            target: None,
        }),
        after: None,
    }
}

fn put_into(assignment: &Assignment, source: Register, target: Register) -> Plan
    ensures { PlanFits assignment.now.slots result }
{
    let from = source_of(assignment, source, 0);
    let to = target_of(assignment, target);
    Plan {
        first: from.step,
        second: None,
        act: Some(machine::Act::Put {
            source: from.register,
            target: Some(to.register),
        }),
        after: to.step,
    }
}

/// What a block does in place of the act.
pub(crate) fn plan_of(assignment: &Assignment, act: &Act) -> Plan
    ensures { (registers : ℕ) → rtl_fits.ActFits registers act.now → PlanFits assignment.now.slots result }
{
    match act {
        Act::Nop => Plan::NOTHING,
        Act::Constant { target, word } => constant(assignment, *target, *word),
        Act::Move { target, source } => copying(
            assignment.location_of(*target),
            assignment.location_of(*source),
        ),
        Act::Operate {
            op,
            target,
            arguments,
        } => operation(assignment, *op, *target, arguments),
        Act::Load {
            target,
            global,
            index,
        } => load(assignment, *target, *global, *index),
        Act::Store {
            global,
            index,
            source,
        } => store(assignment, *global, *index, *source),
        Act::Put { source, target } => put(assignment, *source, *target),
    }
}
