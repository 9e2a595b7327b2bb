//! Writers of trees: each appends the text.

ghost use Rattle.std.specs.Prelude.{◌≡◌, ◌<◌, ◌^◌, All, length, map};
ghost use Rattle.lang_base.specs.Texts.{Appends};
ghost use Rattle.cminor_syntax.specs.Fits.{statement_count};
ghost use Rattle.cminor_syntax.specs.Trees as T;
ghost use Rattle.cminor_syntax.specs.Views.{expression_tree, statement_tree, statements_tree};
ghost use Rattle.cminor_form.specs.Spelling.{expression_text, target_text, arguments_text, statement_text};
ghost use Rattle.cminor_codec.specs.Codes.{expression_code, statement_code, call_text};
ghost use Rattle.cminor_codec.specs.Short.{HasShortLists};
ghost use Rattle.cminor_codec.specs.Parts.{returned_text, count_text, stored_text, statements_text};

use cminor_syntax::{Expression, Statement};
use lang_base::{NoMemory, push_byte, push_u16, push_u32};
use lang_helpers::{WriteOne, push_each as push_each_of};

/// The first byte of an expression.
fn code_of_expression(expression: &Expression) -> u8
    ensures { result ≡ expression_code (expression_tree expression.now) }
{
    match expression {
        Expression::Constant(_) => 0,
        Expression::Variable(_) => 1,
        Expression::Load(..) => 2,
        Expression::Unary(..) | Expression::Binary(..) => 3,
        Expression::Choice(..) => 4,
    }
}

/// A code, and what follows it.
fn push_expression(out: &mut Vec<u8>, expression: &Expression) -> Result<(), NoMemory>
    ensures { Appends result (expression_text (expression_tree expression.now)) out.old.items out.new.items }
{
    push_byte(out, code_of_expression(expression))?;
    match expression {
        Expression::Constant(word) => push_u32(out, *word),
        Expression::Variable(variable) => push_u16(out, *variable),
        Expression::Load(global, index) => {
            push_u16(out, *global)?;
            push_expression(out, index)
        }
        Expression::Unary(op, operand) => {
            push_byte(out, op.code())?;
            push_expression(out, operand)
        }
        Expression::Binary(op, left, right) => {
            push_byte(out, op.code())?;
            push_expression(out, left)?;
            push_expression(out, right)
        }
        Expression::Choice(condition, then, other) => {
            push_expression(out, condition)?;
            push_expression(out, then)?;
            push_expression(out, other)
        }
    }
}

/// The variable that gets a result, if there is one.
fn push_target(out: &mut Vec<u8>, target: Option<u16>) -> Result<(), NoMemory>
    ensures { Appends result (target_text target) out.old.items out.new.items }
{
    match target {
        None => push_byte(out, 0),
        Some(variable) => {
            push_byte(out, 1)?;
            push_u16(out, variable)
        }
    }
}

/// Writes expressions.
struct Expressions;

impl WriteOne for Expressions {
    type Item = Expression;

    ghost text = { λ e. expression_text (expression_tree e) };

    fn push(out: &mut Vec<u8>, item: &Expression) -> Result<(), NoMemory> {
        push_expression(out, item)
    }
}

/// The number of the arguments, and the arguments.
#[tactic(auto, using(crate::proofs::Texts::expressions_length))]
fn push_arguments(out: &mut Vec<u8>, arguments: &[Expression]) -> Result<(), NoMemory>
    requires { length (map expression_tree arguments.now) < 256 }
    ensures { Appends result (arguments_text (map expression_tree arguments.now)) out.old.items out.new.items }
{
    push_byte(out, arguments.len() as u8)?;
    push_each_of::<Expressions>(out, arguments)
}

/// What a return gives, if anything.
fn push_returned(out: &mut Vec<u8>, value: &Option<Expression>) -> Result<(), NoMemory>
    ensures { Appends result (returned_text value.now) out.old.items out.new.items }
{
    match value {
        None => push_byte(out, 0),
        Some(value) => {
            push_byte(out, 1)?;
            push_expression(out, value)
        }
    }
}

/// Where a sequence's counts have space, so have those of each of its statements.
fn are_short(statements: &[Statement])
    requires { HasShortLists (T.Sequence (statements_tree statements.now)) }
    ensures count { statement_count (statements_tree statements.now) < 2 ^ 32 }
    ensures each { All (λ s. HasShortLists (statement_tree s)) statements.now }
{}

/// The number of a sequence's statements.
#[tactic(auto, using(crate::proofs::Texts::statements_count))]
fn push_count(out: &mut Vec<u8>, statements: &[Statement]) -> Result<(), NoMemory>
    requires { statement_count (statements_tree statements.now) < 2 ^ 32 }
    ensures { Appends result (count_text statements.now) out.old.items out.new.items }
{
    push_u32(out, statements.len() as u32)
}

/// The first byte of a statement.
fn code_of_statement(statement: &Statement) -> u8
    ensures { result ≡ statement_code (statement_tree statement.now) }
{
    match statement {
        Statement::Skip => 0,
        Statement::Assign(..) => 1,
        Statement::Store(..) => 2,
        Statement::Call(..) => 3,
        Statement::Put(..) => 4,
        Statement::Sequence(_) => 5,
        Statement::If(..) => 6,
        Statement::Loop(_) => 7,
        Statement::Block(_) => 8,
        Statement::Exit(_) => 9,
        Statement::Return(_) => 10,
    }
}

/// A global, the index of a cell, and the word that it becomes.
fn push_store(
    out: &mut Vec<u8>,
    global: u16,
    index: &Expression,
    value: &Expression,
) -> Result<(), NoMemory>
    ensures { Appends result (stored_text global index.now value.now) out.old.items out.new.items }
{
    push_u16(out, global)?;
    push_expression(out, index)?;
    push_expression(out, value)
}

/// A function, the variable that gets its result, and the arguments.
fn push_call(
    out: &mut Vec<u8>,
    callee: u8,
    target: Option<u16>,
    arguments: &[Expression],
) -> Result<(), NoMemory>
    requires { length (map expression_tree arguments.now) < 256 }
    ensures { Appends result (call_text callee target (map expression_tree arguments.now)) out.old.items out.new.items }
{
    push_byte(out, callee)?;
    push_target(out, target)?;
    push_arguments(out, arguments)
}

/// A code, and what follows it. Each count has space in its bytes.
#[cycle(writing)]
pub fn push_statement(out: &mut Vec<u8>, statement: &Statement) -> Result<(), NoMemory>
    requires { HasShortLists (statement_tree statement.now) }
    ensures { Appends result (statement_text (statement_tree statement.now)) out.old.items out.new.items }
{
    push_byte(out, code_of_statement(statement))?;
    match statement {
        Statement::Skip => Ok(()),
        Statement::Assign(variable, value) => {
            push_u16(out, *variable)?;
            push_expression(out, value)
        }
        Statement::Store(global, index, value) => push_store(out, *global, index, value),
        Statement::Call(callee, target, arguments) => {
            push_call(out, *callee, *target, arguments.as_slice())
        }
        Statement::Put(target, word) => {
            push_target(out, *target)?;
            push_expression(out, word)
        }
        Statement::Sequence(statements) => {
            let statements = statements.as_slice();
            are_short(statements);
            push_count(out, statements)?;
            push_each(out, statements)
        }
        Statement::If(condition, then, other) => {
            push_expression(out, condition)?;
            push_statement(out, then)?;
            push_statement(out, other)
        }
        Statement::Loop(body) => push_statement(out, body),
        Statement::Block(body) => push_statement(out, body),
        Statement::Exit(blocks) => push_u16(out, *blocks),
        Statement::Return(value) => push_returned(out, value),
    }
}

#[cycle(writing)]
fn push_each(out: &mut Vec<u8>, statements: &[Statement]) -> Result<(), NoMemory>
    requires { All (λ s. HasShortLists (statement_tree s)) statements.now }
    ensures { Appends result (statements_text statements.now) out.old.items out.new.items }
{
    for statement in statements {
        push_statement(out, statement)?;
    }
    Ok(())
}
