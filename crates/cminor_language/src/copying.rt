//! Copies of trees and functions, equal to what they were made from.

ghost use Rattle.std.specs.Prelude.{◌≡◌, IfOk, map};
ghost use Rattle.cminor_syntax.specs.Views.{expression_tree, statement_tree, statements_tree, optional_tree};

use crate::function::Function;
use cminor_codec::sequence;
use cminor_syntax::{Expression, Statement};
use lang_base::{NoMemory, Row};
use lang_helpers::beside;
use std::alloc::Global;

#[cycle(expressions)]
fn copy_expression(alloc: Global, expression: &Expression) -> Result<Expression, NoMemory>
    ensures { IfOk result (λ copied. expression_tree copied ≡ expression_tree expression.now) }
{
    match expression {
        Expression::Constant(word) => Ok(Expression::Constant(*word)),
        Expression::Variable(variable) => Ok(Expression::Variable(*variable)),
        Expression::Load(global, index) => {
            Ok(Expression::Load(*global, copy_boxed_expression(alloc, index)?))
        }
        Expression::Unary(op, operand) => {
            Ok(Expression::Unary(*op, copy_boxed_expression(alloc, operand)?))
        }
        Expression::Binary(op, left, right) => {
            let left = copy_boxed_expression(alloc, left)?;
            let right = copy_boxed_expression(alloc, right)?;
            Ok(Expression::Binary(*op, left, right))
        }
        Expression::Choice(condition, then, other) => {
            let condition = copy_boxed_expression(alloc, condition)?;
            let then = copy_boxed_expression(alloc, then)?;
            let other = copy_boxed_expression(alloc, other)?;
            Ok(Expression::Choice(condition, then, other))
        }
    }
}

#[cycle(expressions)]
fn copy_boxed_expression(
    alloc: Global,
    expression: &Expression,
) -> Result<Box<Expression>, NoMemory>
    ensures { IfOk result (λ copied. expression_tree copied.value ≡ expression_tree expression.now) }
{
    let copied = copy_expression(alloc, expression)?;
    Ok(Box::new(alloc, copied)?)
}

fn copy_expressions(alloc: Global, expressions: &[Expression]) -> Result<Vec<Expression>, NoMemory>
    ensures { IfOk result (λ copied. map expression_tree copied.items ≡ map expression_tree expressions.now) }
{
    let mut copied = Vec::new(alloc);
    for expression in expressions {
        copied.push(copy_expression(alloc, expression)?)?;
    }
    Ok(copied)
}

fn copy_returned(alloc: Global, value: &Option<Expression>) -> Result<Option<Expression>, NoMemory>
    ensures { IfOk result (λ copied. optional_tree expression_tree copied ≡ optional_tree expression_tree value.now) }
{
    match value {
        None => Ok(None),
        Some(value) => Ok(Some(copy_expression(alloc, value)?)),
    }
}

#[cycle(copying)]
fn copy_statement(alloc: Global, statement: &Statement) -> Result<Statement, NoMemory>
    ensures { IfOk result (λ copied. statement_tree copied ≡ statement_tree statement.now) }
{
    match statement {
        Statement::Skip => Ok(Statement::Skip),
        Statement::Assign(variable, value) => {
            Ok(Statement::Assign(*variable, copy_expression(alloc, value)?))
        }
        Statement::Store(global, index, value) => {
            let index = copy_expression(alloc, index)?;
            let (index, value) = beside(index, copy_expression(alloc, value))?;
            Ok(Statement::Store(*global, index, value))
        }
        Statement::Call(callee, target, arguments) => {
            let arguments = copy_expressions(alloc, arguments.as_slice())?;
            Ok(Statement::Call(*callee, *target, Row::from_vec(arguments)))
        }
        Statement::Put(target, word) => Ok(Statement::Put(*target, copy_expression(alloc, word)?)),
        Statement::Sequence(statements) => {
            let statements = statements.as_slice();
            let copied = copy_each(alloc, statements)?;
            Ok(sequence(copied))
        }
        Statement::If(condition, then, other) => {
            let condition = copy_expression(alloc, condition)?;
            let (condition, then) = beside(condition, copy_boxed(alloc, then))?;
            let (parts, other) = beside((condition, then), copy_boxed(alloc, other))?;
            let (condition, then) = parts;
            Ok(Statement::If(condition, then, other))
        }
        Statement::Loop(body) => Ok(Statement::Loop(copy_boxed(alloc, body)?)),
        Statement::Block(body) => Ok(Statement::Block(copy_boxed(alloc, body)?)),
        Statement::Exit(blocks) => Ok(Statement::Exit(*blocks)),
        Statement::Return(value) => Ok(Statement::Return(copy_returned(alloc, value)?)),
    }
}

#[cycle(copying)]
fn copy_boxed(alloc: Global, statement: &Statement) -> Result<Box<Statement>, NoMemory>
    ensures { IfOk result (λ copied. statement_tree copied.value ≡ statement_tree statement.now) }
{
    let copied = copy_statement(alloc, statement)?;
    Ok(Box::new(alloc, copied)?)
}

#[cycle(copying)]
fn copy_each(alloc: Global, statements: &[Statement]) -> Result<Vec<Statement>, NoMemory>
    ensures { IfOk result (λ copied. map statement_tree copied.items ≡ map statement_tree statements.now) }
{
    let mut copied = Vec::new(alloc);
    for statement in statements {
        copied.push(copy_statement(alloc, statement)?)?;
    }
    Ok(copied)
}

/// An equal function.
pub fn copy_function(alloc: Global, function: &Function) -> Result<Function, NoMemory>
    ensures { IfOk result (λ copied. copied ≡ function.now) }
{
    let body = copy_statement(alloc, function.body())?;
    Ok(Function::new(function.parameters(), function.variables(), body))
}
