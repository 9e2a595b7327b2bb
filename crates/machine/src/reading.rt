//! Readers of plain instructions and tests. Each is one function on lists, which says the value and
//! the bytes behind it, or the first fault.

ghost use Rattle.lang_base.specs.Reading.{IsRead};
ghost use Rattle.machine.specs.Reading.{arguments, asked, constant, operation, load, store, put, act};

use crate::act::Act;
use crate::arguments::Arguments;
use crate::test::Test;
use ints::{Cond, Op};
use lang_base::{FormError, read_byte, read_u32};
use locations::{read_global, read_register, read_value};

/// One register or two.
#[tactic(auto, unfolding(crate::specs::Reading::arguments))]
fn read_arguments(count: usize, bytes: &mut &[u8]) -> Result<Arguments, FormError>
    ensures { IsRead (arguments count bytes.old.now) result bytes.new.now }
{
    let first = read_register(bytes)?;
    if count == 1 {
        return Ok(Arguments::One(first));
    }
    Ok(Arguments::Two(first, read_register(bytes)?))
}

/// What a branch asks.
#[tactic(auto, unfolding(crate::specs::Reading::asked))]
pub fn read_test(bytes: &mut &[u8]) -> Result<Test, FormError>
    ensures { IsRead (asked bytes.old.now) result bytes.new.now }
{
    let condition = Cond::from_code(read_byte(bytes)?).ok_or(FormError::NotCanonical)?;
    let arguments = read_arguments(condition.argument_count(), bytes)?;
    Ok(Test {
        condition,
        arguments,
    })
}

#[tactic(auto, unfolding(crate::specs::Reading::constant))]
fn read_constant(bytes: &mut &[u8]) -> Result<Act, FormError>
    ensures { IsRead (constant bytes.old.now) result bytes.new.now }
{
    let target = read_register(bytes)?;
    let word = read_u32(bytes)?;
    Ok(Act::Constant { target, word })
}

#[tactic(auto, unfolding(crate::specs::Reading::operation))]
fn read_operation(bytes: &mut &[u8]) -> Result<Act, FormError>
    ensures { IsRead (operation bytes.old.now) result bytes.new.now }
{
    let op = Op::from_code(read_byte(bytes)?).ok_or(FormError::NotCanonical)?;
    let target = read_register(bytes)?;
    let arguments = read_arguments(op.argument_count(), bytes)?;
    Ok(Act::Operate {
        op,
        target,
        arguments,
    })
}

#[tactic(auto, unfolding(crate::specs::Reading::load))]
fn read_load(bytes: &mut &[u8]) -> Result<Act, FormError>
    ensures { IsRead (load bytes.old.now) result bytes.new.now }
{
    let target = read_register(bytes)?;
    let global = read_global(bytes)?;
    let index = read_register(bytes)?;
    Ok(Act::Load {
        target,
        global,
        index,
    })
}

#[tactic(auto, unfolding(crate::specs::Reading::store))]
fn read_store(bytes: &mut &[u8]) -> Result<Act, FormError>
    ensures { IsRead (store bytes.old.now) result bytes.new.now }
{
    let global = read_global(bytes)?;
    let index = read_register(bytes)?;
    let source = read_register(bytes)?;
    Ok(Act::Store {
        global,
        index,
        source,
    })
}

#[tactic(auto, unfolding(crate::specs::Reading::put))]
fn read_put(bytes: &mut &[u8]) -> Result<Act, FormError>
    ensures { IsRead (put bytes.old.now) result bytes.new.now }
{
    let source = read_register(bytes)?;
    let target = read_value(bytes)?;
    Ok(Act::Put { source, target })
}

/// What follows the code of a plain instruction; no other code is one.
#[tactic(auto, unfolding(crate::specs::Reading::act))]
pub fn read_act(code: u8, bytes: &mut &[u8]) -> Result<Act, FormError>
    ensures { IsRead (act code bytes.old.now) result bytes.new.now }
{
    match code {
        1 => read_constant(bytes),
        3 => read_operation(bytes),
        4 => read_load(bytes),
        5 => read_store(bytes),
        7 => read_put(bytes),
        _ => Err(FormError::NotCanonical),
    }
}
