//! Readers of expressions. What calls itself does so with less fuel.

ghost use Rattle.lang_base.specs.Reading.{Reads};
ghost use Rattle.cminor_form.specs.Reading.{expression_of, too_high, load, operation, choice, expression};
ghost use Rattle.cminor_codec.specs.Parts.{coded_expression, operands_of};

use crate::parts::{boxed, read_variable};
use cminor_syntax::Expression;
use ints::Op;
use lang_base::{FormError, read_byte, read_u32};
use lang_helpers::{beside, read_global};
use std::alloc::Global;

/// A node for which no fuel is left.
#[tactic(auto, unfolding(cminor_form::specs::Reading::too_high))]
fn refuse_height(bytes: &mut &[u8]) -> Result<Expression, FormError>
    ensures { Reads (too_high bytes.old.now) (expression_of result) bytes.new.now }
{
    read_byte(bytes)?;
    Err(FormError::TooLarge)
}

/// An expression that is at most as high as the fuel.
#[cycle(expressions)]
#[tactic(auto, using(crate::proofs::Fuel::expression_without, crate::proofs::Fuel::expression_with))]
pub fn read_expression(
    alloc: Global,
    fuel: u16,
    variables: u16,
    bytes: &mut &[u8],
) -> Result<Expression, FormError>
    ensures { Reads (expression fuel variables bytes.old.now) (expression_of result) bytes.new.now }
{
    if fuel == 0 {
        return refuse_height(bytes);
    }
    read_by_code(alloc, fuel - 1, variables, bytes)
}

/// An expression whose parts have so much fuel.
#[cycle(expressions)]
#[tactic(auto, unfolding(cminor_form::specs::Reading::expression_by_code))]
fn read_by_code(
    alloc: Global,
    below: u16,
    variables: u16,
    bytes: &mut &[u8],
) -> Result<Expression, FormError>
    ensures { Reads (coded_expression below variables bytes.old.now) (expression_of result) bytes.new.now }
{
    match read_byte(bytes)? {
        0 => Ok(Expression::Constant(read_u32(bytes)?)),
        1 => Ok(Expression::Variable(read_variable(variables, bytes)?)),
        2 => read_load(alloc, below, variables, bytes),
        3 => read_operation(alloc, below, variables, bytes),
        4 => read_choice(alloc, below, variables, bytes),
        _ => Err(FormError::NotCanonical),
    }
}

/// A global, and the index of a cell.
#[cycle(expressions)]
#[tactic(auto, unfolding(cminor_form::specs::Reading::load))]
fn read_load(
    alloc: Global,
    below: u16,
    variables: u16,
    bytes: &mut &[u8],
) -> Result<Expression, FormError>
    ensures { Reads (load (expression below variables) bytes.old.now) (expression_of result) bytes.new.now }
{
    let global = read_global(bytes)?;
    let index = boxed(alloc, read_expression(alloc, below, variables, bytes))?;
    Ok(Expression::Load(global, index))
}

/// An operator, and as many operands as it takes.
#[cycle(expressions)]
#[tactic(auto, unfolding(cminor_form::specs::Reading::operation))]
fn read_operation(
    alloc: Global,
    below: u16,
    variables: u16,
    bytes: &mut &[u8],
) -> Result<Expression, FormError>
    ensures { Reads (operation (expression below variables) bytes.old.now) (expression_of result) bytes.new.now }
{
    let op = Op::from_code(read_byte(bytes)?).ok_or(FormError::NotCanonical)?;
    read_operands(alloc, op, below, variables, bytes)
}

/// What an operator is applied to.
#[cycle(expressions)]
fn read_operands(
    alloc: Global,
    op: Op,
    below: u16,
    variables: u16,
    bytes: &mut &[u8],
) -> Result<Expression, FormError>
    ensures { Reads (operands_of op below variables bytes.old.now) (expression_of result) bytes.new.now }
{
    let first = boxed(alloc, read_expression(alloc, below, variables, bytes))?;
    if op.argument_count() == 1 {
        return Ok(Expression::Unary(op, first));
    }
    let second = boxed(alloc, read_expression(alloc, below, variables, bytes));
    let (first, second) = beside(first, second)?;
    Ok(Expression::Binary(op, first, second))
}

/// A condition and two values.
#[cycle(expressions)]
#[tactic(auto, unfolding(cminor_form::specs::Reading::choice))]
fn read_choice(
    alloc: Global,
    below: u16,
    variables: u16,
    bytes: &mut &[u8],
) -> Result<Expression, FormError>
    ensures { Reads (choice (expression below variables) bytes.old.now) (expression_of result) bytes.new.now }
{
    let condition = boxed(alloc, read_expression(alloc, below, variables, bytes))?;
    let then = boxed(alloc, read_expression(alloc, below, variables, bytes));
    let parts = beside(condition, then)?;
    let other = boxed(alloc, read_expression(alloc, below, variables, bytes));
    let ((condition, then), other) = beside(parts, other)?;
    Ok(Expression::Choice(condition, then, other))
}
