//! Which equation an instruction makes, and which it kills.

ghost use Rattle.std.specs.Prelude.{◌≡◌};
ghost use Rattle.cse_check_rules.specs.Equations.{takes, reads, names, equation_of, made_by, equation_by, loads, loads_from, act_disturbs, disturbs, overwrites};
ghost use Rattle.cse_check_rules.specs.Equations.{kills as killed_by};

use crate::equation::{Equation, RightSide};
use constprop_check_rules::written;
use rtl_acts::{Act, Arguments, Register};
use rtl_passes_filled::Instruction;

fn take(arguments: &Arguments, register: Register) -> bool
    ensures { result ≡ takes arguments.now register }
{
    match *arguments {
        Arguments::One(first) => first == register,
        Arguments::Two(first, second) => first == register || second == register,
    }
}

/// Whether the right side names the register.
fn is_read(right: &RightSide, register: Register) -> bool
    ensures { result ≡ reads right.now register }
{
    match right {
        RightSide::Operation { arguments, .. } => take(arguments, register),
        RightSide::Cell { index, .. } => *index == register,
        RightSide::Copy { source } => *source == register,
    }
}

/// Whether the equation names the register, on either side.
fn is_named(equation: &Equation, register: Register) -> bool
    ensures { result ≡ names equation.now register }
{
    equation.register == register || is_read(&equation.right, register)
}

/// The equation of what was put into the target, unless that is among what was read.
fn own_equation(target: Register, right: RightSide) -> Option<Equation>
    ensures { result ≡ equation_of target right }
{
    if is_read(&right, target) {
        None
    } else {
        Some(Equation {
            register: target,
            right,
        })
    }
}

fn made_by_act(act: &Act) -> Option<Equation>
    ensures { result ≡ made_by act.now }
{
    match *act {
        Act::Operate {
            op,
            target,
            arguments,
        } => own_equation(target, RightSide::Operation { op, arguments }),
        Act::Load {
            target,
            global,
            index,
        } => own_equation(target, RightSide::Cell { global, index }),
        Act::Move { target, source } => own_equation(target, RightSide::Copy { source }),
        _ => None,
    }
}

/// The equation that the instruction makes, if it makes one.
pub fn made(instruction: &Instruction) -> Option<Equation>
    ensures { result ≡ equation_by instruction.now }
{
    match instruction {
        Instruction::Do { act, .. } => made_by_act(act),
        _ => None,
    }
}

/// Whether the right side is a cell.
pub fn is_load(right: &RightSide) -> bool
    ensures { result ≡ loads right.now }
{
    match right {
        RightSide::Cell { .. } => true,
        _ => false,
    }
}

/// Whether it is a cell of this global.
pub fn is_load_from(right: &RightSide, other: u16) -> bool
    ensures { result ≡ loads_from right.now other }
{
    match right {
        RightSide::Cell { global, .. } => *global == other,
        _ => false,
    }
}

fn may_change(act: &Act, right: &RightSide) -> bool
    ensures { result ≡ act_disturbs act.now right.now }
{
    match act {
        Act::Store { global, .. } => is_load_from(right, *global),
        _ => false,
    }
}

/// Whether what the right side loads may be another word behind the instruction.
fn may_disturb(instruction: &Instruction, right: &RightSide) -> bool
    ensures { result ≡ disturbs instruction.now right.now }
{
    match instruction {
        Instruction::Do { act, .. } => may_change(act, right),
        Instruction::Call { .. } => is_load(right),
        _ => false,
    }
}

/// Whether the register, if there is one, is one that the equation names.
pub fn is_overwritten(written: Option<Register>, equation: &Equation) -> bool
    ensures { result ≡ overwrites written equation.now }
{
    match written {
        None => false,
        Some(target) => is_named(equation, target),
    }
}

/// Whether the equation need not hold behind the instruction where it held before.
pub fn kills(instruction: &Instruction, equation: &Equation) -> bool
    ensures { result ≡ killed_by instruction.now equation.now }
{
    is_overwritten(written(instruction), equation) || may_disturb(instruction, &equation.right)
}
