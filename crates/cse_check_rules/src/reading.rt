//! Readers of equations, each a register and a right side.

ghost use Rattle.lang_base.specs.Reading.{IsRead};
ghost use Rattle.cse_check_rules.specs.Reading.{operation, cell, copying, right, equation};

use crate::equation::{Equation, RightSide};
use ints::Op;
use lang_base::{FormError, read_byte};
use lang_helpers::read_global;
use rtl_acts::{read_arguments, read_register};

#[tactic(auto, unfolding(crate::specs::Reading::operation))]
fn read_operation(registers: u32, bytes: &mut &[u8]) -> Result<RightSide, FormError>
    ensures { IsRead (operation registers bytes.old.now) result bytes.new.now }
{
    let op = Op::from_code(read_byte(bytes)?).ok_or(FormError::NotCanonical)?;
    let arguments = read_arguments(registers, op.argument_count(), bytes)?;
    Ok(RightSide::Operation { op, arguments })
}

#[tactic(auto, unfolding(crate::specs::Reading::cell))]
fn read_cell(registers: u32, bytes: &mut &[u8]) -> Result<RightSide, FormError>
    ensures { IsRead (cell registers bytes.old.now) result bytes.new.now }
{
    let global = read_global(bytes)?;
    let index = read_register(registers, bytes)?;
    Ok(RightSide::Cell { global, index })
}

#[tactic(auto, unfolding(crate::specs::Reading::copying))]
fn read_copy(registers: u32, bytes: &mut &[u8]) -> Result<RightSide, FormError>
    ensures { IsRead (copying registers bytes.old.now) result bytes.new.now }
{
    let source = read_register(registers, bytes)?;
    Ok(RightSide::Copy { source })
}

/// A code, and what follows it.
#[tactic(auto, unfolding(crate::specs::Reading::right))]
fn read_right(registers: u32, bytes: &mut &[u8]) -> Result<RightSide, FormError>
    ensures { IsRead (right registers bytes.old.now) result bytes.new.now }
{
    match read_byte(bytes)? {
        0 => read_operation(registers, bytes),
        1 => read_cell(registers, bytes),
        2 => read_copy(registers, bytes),
        _ => Err(FormError::NotCanonical),
    }
}

/// An equation among so many registers; the bytes go on behind it.
#[tactic(auto, unfolding(crate::specs::Reading::equation))]
pub fn read_equation(registers: u32, bytes: &mut &[u8]) -> Result<Equation, FormError>
    ensures { IsRead (equation registers bytes.old.now) result bytes.new.now }
{
    let register = read_register(registers, bytes)?;
    let right = read_right(registers, bytes)?;
    Ok(Equation { register, right })
}
