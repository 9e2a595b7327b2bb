//! Readers of statements that have no statements in them.

ghost use Rattle.lang_base.specs.Reading.{Reads};
ghost use Rattle.cminor_form.specs.Reading.{statement_of, expression, assign, store, arguments, call, put, read_result};
ghost use Rattle.cminor_codec.specs.Results.{expressions_of, row_of, maybe_of};
ghost use Rattle.cminor_codec.specs.Parts.{expressions, behind_code};

use crate::expressions::read_expression;
use crate::parts::{read_target, read_variable};
use cminor_syntax::{Expression, Statement};
use lang_base::{FormError, Row, read_byte, read_u16};
use lang_helpers::{beside, read_function_number, read_global};
use std::alloc::Global;

/// A variable, and the value that it becomes.
#[tactic(auto, unfolding(cminor_form::specs::Reading::assign))]
fn read_assign(
    alloc: Global,
    fuel: u16,
    variables: u16,
    bytes: &mut &[u8],
) -> Result<Statement, FormError>
    ensures { Reads (assign variables (expression fuel variables) bytes.old.now) (statement_of result) bytes.new.now }
{
    let variable = read_variable(variables, bytes)?;
    let value = read_expression(alloc, fuel, variables, bytes)?;
    Ok(Statement::Assign(variable, value))
}

/// A global, the index of a cell, and the word that it becomes.
#[tactic(auto, unfolding(cminor_form::specs::Reading::store))]
fn read_store(
    alloc: Global,
    fuel: u16,
    variables: u16,
    bytes: &mut &[u8],
) -> Result<Statement, FormError>
    ensures { Reads (store (expression fuel variables) bytes.old.now) (statement_of result) bytes.new.now }
{
    let global = read_global(bytes)?;
    let index = read_expression(alloc, fuel, variables, bytes)?;
    let (index, value) = beside(index, read_expression(alloc, fuel, variables, bytes))?;
    Ok(Statement::Store(global, index, value))
}

fn read_so_many(
    alloc: Global,
    count: u8,
    fuel: u16,
    variables: u16,
    bytes: &mut &[u8],
) -> Result<Vec<Expression>, FormError>
    ensures { Reads (expressions count fuel variables bytes.old.now) (expressions_of result) bytes.new.now }
{
    let mut expressions = Vec::new(alloc);
    for _ in 0..count {
        let expression = read_expression(alloc, fuel, variables, bytes)?;
        expressions.push(expression)?;
    }
    Ok(expressions)
}

/// The arguments of a call.
#[tactic(auto, unfolding(cminor_form::specs::Reading::arguments))]
fn read_arguments(
    alloc: Global,
    fuel: u16,
    variables: u16,
    bytes: &mut &[u8],
) -> Result<Row<Expression>, FormError>
    ensures { Reads (arguments (expression fuel variables) bytes.old.now) (row_of result) bytes.new.now }
{
    let count = read_byte(bytes)?;
    let arguments = read_so_many(alloc, count, fuel, variables, bytes)?;
    Ok(Row::from_vec(arguments))
}

/// A function, the variable that gets its result, and the arguments.
#[tactic(auto, unfolding(cminor_form::specs::Reading::call))]
fn read_call(
    alloc: Global,
    fuel: u16,
    variables: u16,
    bytes: &mut &[u8],
) -> Result<Statement, FormError>
    ensures { Reads (call variables (expression fuel variables) bytes.old.now) (statement_of result) bytes.new.now }
{
    let callee = read_function_number(bytes)?;
    let target = read_target(variables, bytes)?;
    let arguments = read_arguments(alloc, fuel, variables, bytes)?;
    Ok(Statement::Call(callee, target, arguments))
}

/// The variable that gets the byte, and the word that is printed.
#[tactic(auto, unfolding(cminor_form::specs::Reading::put))]
fn read_put(
    alloc: Global,
    fuel: u16,
    variables: u16,
    bytes: &mut &[u8],
) -> Result<Statement, FormError>
    ensures { Reads (put variables (expression fuel variables) bytes.old.now) (statement_of result) bytes.new.now }
{
    let target = read_target(variables, bytes)?;
    let word = read_expression(alloc, fuel, variables, bytes)?;
    Ok(Statement::Put(target, word))
}

/// What a return gives, if anything.
#[tactic(auto, unfolding(cminor_form::specs::Reading::read_result))]
fn read_returned(
    alloc: Global,
    fuel: u16,
    variables: u16,
    bytes: &mut &[u8],
) -> Result<Option<Expression>, FormError>
    ensures { Reads (read_result (expression fuel variables) bytes.old.now) (maybe_of result) bytes.new.now }
{
    match read_byte(bytes)? {
        0 => Ok(None),
        1 => Ok(Some(read_expression(alloc, fuel, variables, bytes)?)),
        _ => Err(FormError::NotCanonical),
    }
}

/// What follows the code of a statement without statements in it; no other code is one.
#[tactic(auto, unfolding(cminor_form::specs::Reading::plain_statement))]
pub fn read_plain(
    alloc: Global,
    fuel: u16,
    variables: u16,
    code: u8,
    bytes: &mut &[u8],
) -> Result<Statement, FormError>
    ensures { Reads (behind_code code fuel variables bytes.old.now) (statement_of result) bytes.new.now }
{
    match code {
        0 => Ok(Statement::Skip),
        1 => read_assign(alloc, fuel, variables, bytes),
        2 => read_store(alloc, fuel, variables, bytes),
        3 => read_call(alloc, fuel, variables, bytes),
        4 => read_put(alloc, fuel, variables, bytes),
        9 => Ok(Statement::Exit(read_u16(bytes)?)),
        10 => Ok(Statement::Return(read_returned(alloc, fuel, variables, bytes)?)),
        _ => Err(FormError::NotCanonical),
    }
}
