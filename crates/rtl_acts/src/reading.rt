//! Readers of the parts of a function. Each is one function on lists, which says the value and the
//! bytes behind it, or the first fault.

ghost use Rattle.std.specs.Prelude.{◌≡◌};
ghost use Rattle.std.specs.List.{list_all};
ghost use Rattle.lang_base.specs.Reading.{IsRead, Reads, items_of};
ghost use Rattle.rtl_acts.specs.Reading.{register, target, arguments, asked, constant, copying, operation, load, store, put, act, parameter, parameters, lies_within, frame};

use crate::act::Act;
use crate::arguments::Arguments;
use crate::register::Register;
use crate::test::Test;
use ints::{Cond, Op};
use lang_base::{FormError, Row, read_byte, read_count, read_u16, read_u16_below, read_u32};
use machine::{ReadOne, read_global, read_so_many};
use std::alloc::Global;

/// One of so many registers.
#[tactic(auto, unfolding(crate::specs::Reading::register))]
pub fn read_register(registers: u32, bytes: &mut &[u8]) -> Result<Register, FormError>
    ensures { IsRead (register registers bytes.old.now) result bytes.new.now }
{
    read_u16_below(registers, bytes)
}

/// A register, or none.
#[tactic(auto, unfolding(crate::specs::Reading::target))]
pub fn read_target(registers: u32, bytes: &mut &[u8]) -> Result<Option<Register>, FormError>
    ensures { IsRead (target registers bytes.old.now) result bytes.new.now }
{
    match read_byte(bytes)? {
        0 => Ok(None),
        1 => Ok(Some(read_register(registers, bytes)?)),
        _ => Err(FormError::NotCanonical),
    }
}

/// As many registers as an operator or a condition takes: one, or else two.
#[tactic(auto, unfolding(crate::specs::Reading::arguments))]
pub fn read_arguments(
    registers: u32,
    count: usize,
    bytes: &mut &[u8],
) -> Result<Arguments, FormError>
    ensures { IsRead (arguments registers count bytes.old.now) result bytes.new.now }
{
    let first = read_register(registers, bytes)?;
    if count == 1 {
        return Ok(Arguments::One(first));
    }
    Ok(Arguments::Two(first, read_register(registers, bytes)?))
}

/// What a branch asks.
#[tactic(auto, unfolding(crate::specs::Reading::asked))]
pub fn read_test(registers: u32, bytes: &mut &[u8]) -> Result<Test, FormError>
    ensures { IsRead (asked registers bytes.old.now) result bytes.new.now }
{
    let condition = Cond::from_code(read_byte(bytes)?).ok_or(FormError::NotCanonical)?;
    let arguments = read_arguments(registers, condition.argument_count(), bytes)?;
    Ok(Test {
        condition,
        arguments,
    })
}

#[tactic(auto, unfolding(crate::specs::Reading::constant))]
fn read_constant(registers: u32, bytes: &mut &[u8]) -> Result<Act, FormError>
    ensures { IsRead (constant registers bytes.old.now) result bytes.new.now }
{
    let target = read_register(registers, bytes)?;
    let word = read_u32(bytes)?;
    Ok(Act::Constant { target, word })
}

#[tactic(auto, unfolding(crate::specs::Reading::copying))]
fn read_move(registers: u32, bytes: &mut &[u8]) -> Result<Act, FormError>
    ensures { IsRead (copying registers bytes.old.now) result bytes.new.now }
{
    let target = read_register(registers, bytes)?;
    let source = read_register(registers, bytes)?;
    Ok(Act::Move { target, source })
}

#[tactic(auto, unfolding(crate::specs::Reading::operation))]
fn read_operation(registers: u32, bytes: &mut &[u8]) -> Result<Act, FormError>
    ensures { IsRead (operation registers bytes.old.now) result bytes.new.now }
{
    let op = Op::from_code(read_byte(bytes)?).ok_or(FormError::NotCanonical)?;
    let target = read_register(registers, bytes)?;
    let arguments = read_arguments(registers, op.argument_count(), bytes)?;
    Ok(Act::Operate {
        op,
        target,
        arguments,
    })
}

#[tactic(auto, unfolding(crate::specs::Reading::load))]
fn read_load(registers: u32, bytes: &mut &[u8]) -> Result<Act, FormError>
    ensures { IsRead (load registers bytes.old.now) result bytes.new.now }
{
    let target = read_register(registers, bytes)?;
    let global = read_global(bytes)?;
    let index = read_register(registers, bytes)?;
    Ok(Act::Load {
        target,
        global,
        index,
    })
}

#[tactic(auto, unfolding(crate::specs::Reading::store))]
fn read_store(registers: u32, bytes: &mut &[u8]) -> Result<Act, FormError>
    ensures { IsRead (store registers bytes.old.now) result bytes.new.now }
{
    let global = read_global(bytes)?;
    let index = read_register(registers, bytes)?;
    let source = read_register(registers, bytes)?;
    Ok(Act::Store {
        global,
        index,
        source,
    })
}

#[tactic(auto, unfolding(crate::specs::Reading::put))]
fn read_put(registers: u32, bytes: &mut &[u8]) -> Result<Act, FormError>
    ensures { IsRead (put registers bytes.old.now) result bytes.new.now }
{
    let source = read_register(registers, bytes)?;
    let target = read_target(registers, bytes)?;
    Ok(Act::Put { source, target })
}

/// What follows the code of a plain instruction among so many registers; no other code is one.
#[tactic(auto, unfolding(crate::specs::Reading::act))]
pub fn read_act(registers: u32, code: u8, bytes: &mut &[u8]) -> Result<Act, FormError>
    ensures { IsRead (act registers code bytes.old.now) result bytes.new.now }
{
    match code {
        0 => Ok(Act::Nop),
        1 => read_constant(registers, bytes),
        2 => read_move(registers, bytes),
        3 => read_operation(registers, bytes),
        4 => read_load(registers, bytes),
        5 => read_store(registers, bytes),
        7 => read_put(registers, bytes),
        _ => Err(FormError::NotCanonical),
    }
}

/// A parameter's register, which is none of those before it: at most fifteen. The registers are
/// counted behind it.
#[tactic(auto, unfolding(crate::specs::Reading::parameter))]
fn read_parameter(before: &[Register], bytes: &mut &[u8]) -> Result<Register, FormError>
    ensures { IsRead (parameter before.now bytes.old.now) result bytes.new.now }
{
    let register = read_u16(bytes)?;
    if before.contains(&register) {
        return Err(FormError::NotCanonical);
    }
    Ok(register)
}

/// Reads parameters.
#[derive(Drop)]
struct Parameters;

impl ReadOne for Parameters {
    type Item = Register;

    ghost part = { λ _. parameter };

    fn read(
        &mut self,
        _alloc: Global,
        before: &[Register],
        bytes: &mut &[u8],
    ) -> Result<Register, FormError> {
        read_parameter(before, bytes)
    }
}

#[tactic(auto, unfolding(crate::specs::Reading::parameters))]
fn read_parameters(alloc: Global, bytes: &mut &[u8]) -> Result<Vec<Register>, FormError>
    ensures { Reads (parameters bytes.old.now) (items_of result) bytes.new.now }
{
    let count = read_count(16, bytes)?;
    read_so_many(alloc, Parameters, u32::from(count), bytes)
}

/// Whether each is one of so many registers.
fn all_within(count: u16, registers: &[Register]) -> bool
    ensures { result ≡ list_all (lies_within count) registers.now }
{
    registers.iter().all(|register| *register < count)
}

/// The parameters' registers, and the number of registers.
#[tactic(auto, unfolding(crate::specs::Reading::frame))]
pub fn read_frame(alloc: Global, bytes: &mut &[u8]) -> Result<(Row<Register>, u16), FormError>
    ensures { Reads (frame bytes.old.now) result bytes.new.now }
{
    let parameters = read_parameters(alloc, bytes)?;
    let count = read_u16(bytes)?;
    if !all_within(count, &parameters) {
        return Err(FormError::NotCanonical);
    }
    if count > 4096 {
        return Err(FormError::TooLarge);
    }
    Ok((Row::from_vec(parameters), count))
}
