//! Whether two trees are equal.

ghost use Rattle.std.specs.Prelude.{◌≡◌, map, nat_eq};
ghost use Rattle.std.specs.Cmp.Lexicographic.{pointwise};
ghost use Rattle.cminor_syntax.specs.Trees as T;
ghost use Rattle.cminor_syntax.specs.Views.{expression_tree, statement_tree, statements_tree, optional_tree};
ghost use Rattle.cminor_language.specs.Same.{same_expression, same_option, same_statement};
ghost use Rattle.cminor_language.specs.Comparing.{is_binary, is_choice, same_returned, is_store, is_if};

use cminor_syntax::{Expression, Statement};
use ints::Op;
use lang_base::Row;

#[cycle(expressions)]
fn same_expression(left: &Expression, right: &Expression) -> bool
    ensures { result ≡ same_expression (expression_tree left.now) (expression_tree right.now) }
{
    match right {
        Expression::Constant(word) => is_constant(left, *word),
        Expression::Variable(variable) => is_variable(left, *variable),
        Expression::Load(global, index) => is_load(left, *global, index),
        Expression::Unary(op, operand) => is_unary(left, *op, operand),
        Expression::Binary(op, first, second) => is_binary(left, *op, first, second),
        Expression::Choice(condition, then, other) => is_choice(left, condition, then, other),
    }
}

fn is_constant(left: &Expression, word: u32) -> bool
    ensures { result ≡ same_expression (expression_tree left.now) (T.Number word) }
{
    match left {
        Expression::Constant(other) => *other == word,
        _ => false,
    }
}

fn is_variable(left: &Expression, variable: u16) -> bool
    ensures { result ≡ same_expression (expression_tree left.now) (T.Variable variable) }
{
    match left {
        Expression::Variable(other) => *other == variable,
        _ => false,
    }
}

#[cycle(expressions)]
fn is_load(left: &Expression, global: u16, index: &Expression) -> bool
    ensures { result ≡ same_expression (expression_tree left.now) (T.Load global (expression_tree index.now)) }
{
    match left {
        Expression::Load(other, at) => *other == global && same_expression(at, index),
        _ => false,
    }
}

#[cycle(expressions)]
fn is_unary(left: &Expression, op: Op, operand: &Expression) -> bool
    ensures { result ≡ same_expression (expression_tree left.now) (T.Unary op (expression_tree operand.now)) }
{
    match left {
        Expression::Unary(other, inner) => {
            other.code() == op.code() && same_expression(inner, operand)
        }
        _ => false,
    }
}

#[cycle(expressions)]
fn is_binary(left: &Expression, op: Op, first: &Expression, second: &Expression) -> bool
    ensures { result ≡ is_binary left.now op first.now second.now }
{
    match left {
        Expression::Binary(other, one, two) => {
            other.code() == op.code() && same_expression(one, first) && same_expression(two, second)
        }
        _ => false,
    }
}

#[cycle(expressions)]
fn is_choice(
    left: &Expression,
    condition: &Expression,
    then: &Expression,
    other: &Expression,
) -> bool
    ensures { result ≡ is_choice left.now condition.now then.now other.now }
{
    match left {
        Expression::Choice(asked, first, second) => {
            same_expression(asked, condition)
                && same_expression(first, then)
                && same_expression(second, other)
        }
        _ => false,
    }
}

#[tactic(auto, using(crate::proofs::Pointwise::pointwise_map))]
fn same_arguments(left: &Row<Expression>, right: &Row<Expression>) -> bool
    ensures { result ≡ pointwise same_expression (map expression_tree left.now) (map expression_tree right.now) }
{
    same_expressions(left.as_slice(), right.as_slice())
}

fn same_expressions(left: &[Expression], right: &[Expression]) -> bool
    ensures { result ≡ pointwise (λ a b. same_expression (expression_tree a) (expression_tree b)) left.now right.now }
{
    if left.len() != right.len() {
        return false;
    }
    for index in 0..left.len() {
        if !same_expression(&left[index], &right[index]) {
            return false;
        }
    }
    true
}

fn same_returned(left: &Option<Expression>, right: &Option<Expression>) -> bool
    ensures { result ≡ same_returned left.now right.now }
{
    match left {
        None => right.is_none(),
        Some(value) => match right {
            None => false,
            Some(other) => same_expression(value, other),
        },
    }
}

fn same_target(left: Option<u16>, right: Option<u16>) -> bool
    ensures { result ≡ same_option nat_eq left right }
{
    match left {
        None => right.is_none(),
        Some(variable) => match right {
            None => false,
            Some(other) => variable == other,
        },
    }
}

#[cycle(statements)]
pub fn same_statement(left: &Statement, right: &Statement) -> bool
    ensures { result ≡ same_statement (statement_tree left.now) (statement_tree right.now) }
{
    match right {
        Statement::Skip => is_skip(left),
        Statement::Assign(variable, value) => is_assign(left, *variable, value),
        Statement::Store(global, index, value) => is_store(left, *global, index, value),
        Statement::Call(callee, target, arguments) => is_call(left, *callee, *target, arguments),
        Statement::Put(target, word) => is_put(left, *target, word),
        Statement::Sequence(statements) => {
            let statements = statements.as_slice();
            is_sequence(left, statements)
        }
        Statement::If(condition, then, other) => is_if(left, condition, then, other),
        Statement::Loop(body) => is_loop(left, body),
        Statement::Block(body) => is_block(left, body),
        Statement::Exit(blocks) => is_exit(left, *blocks),
        Statement::Return(value) => is_return(left, value),
    }
}

fn is_skip(left: &Statement) -> bool
    ensures { result ≡ same_statement (statement_tree left.now) T.Skip }
{
    matches!(left, Statement::Skip)
}

fn is_assign(left: &Statement, variable: u16, value: &Expression) -> bool
    ensures { result ≡ same_statement (statement_tree left.now) (T.Assign variable (expression_tree value.now)) }
{
    match left {
        Statement::Assign(other, given) => *other == variable && same_expression(given, value),
        _ => false,
    }
}

fn is_store(left: &Statement, global: u16, index: &Expression, value: &Expression) -> bool
    ensures { result ≡ is_store left.now global index.now value.now }
{
    match left {
        Statement::Store(other, at, given) => {
            *other == global && same_expression(at, index) && same_expression(given, value)
        }
        _ => false,
    }
}

fn is_call(left: &Statement, callee: u8, target: Option<u16>, arguments: &Row<Expression>) -> bool
    ensures { result ≡ same_statement (statement_tree left.now) (T.Call callee target (map expression_tree arguments.now)) }
{
    match left {
        Statement::Call(other, gets, given) => {
            *other == callee && same_target(*gets, target) && same_arguments(given, arguments)
        }
        _ => false,
    }
}

fn is_put(left: &Statement, target: Option<u16>, word: &Expression) -> bool
    ensures { result ≡ same_statement (statement_tree left.now) (T.Put target (expression_tree word.now)) }
{
    match left {
        Statement::Put(gets, other) => same_target(*gets, target) && same_expression(other, word),
        _ => false,
    }
}

#[cycle(statements)]
fn is_sequence(left: &Statement, statements: &[Statement]) -> bool
    ensures { result ≡ same_statement (statement_tree left.now) (T.Sequence (statements_tree statements.now)) }
{
    match left {
        Statement::Sequence(others) => {
            let others = others.as_slice();
            same_each(others, statements)
        }
        _ => false,
    }
}

#[cycle(statements)]
fn same_each(left: &[Statement], right: &[Statement]) -> bool
    ensures { result ≡ pointwise (λ a b. same_statement (statement_tree a) (statement_tree b)) left.now right.now }
{
    if left.len() != right.len() {
        return false;
    }
    for index in 0..left.len() {
        if !same_statement(&left[index], &right[index]) {
            return false;
        }
    }
    true
}

#[cycle(statements)]
fn is_if(left: &Statement, condition: &Expression, then: &Statement, other: &Statement) -> bool
    ensures { result ≡ is_if left.now condition.now then.now other.now }
{
    match left {
        Statement::If(asked, first, second) => {
            same_expression(asked, condition)
                && same_statement(first, then)
                && same_statement(second, other)
        }
        _ => false,
    }
}

#[cycle(statements)]
fn is_loop(left: &Statement, body: &Statement) -> bool
    ensures { result ≡ same_statement (statement_tree left.now) (T.Loop (statement_tree body.now)) }
{
    match left {
        Statement::Loop(other) => same_statement(other, body),
        _ => false,
    }
}

#[cycle(statements)]
fn is_block(left: &Statement, body: &Statement) -> bool
    ensures { result ≡ same_statement (statement_tree left.now) (T.Block (statement_tree body.now)) }
{
    match left {
        Statement::Block(other) => same_statement(other, body),
        _ => false,
    }
}

fn is_exit(left: &Statement, blocks: u16) -> bool
    ensures { result ≡ same_statement (statement_tree left.now) (T.Exit blocks) }
{
    match left {
        Statement::Exit(other) => *other == blocks,
        _ => false,
    }
}

fn is_return(left: &Statement, value: &Option<Expression>) -> bool
    ensures { result ≡ same_statement (statement_tree left.now) (T.Return (optional_tree expression_tree value.now)) }
{
    match left {
        Statement::Return(other) => same_returned(other, value),
        _ => false,
    }
}
