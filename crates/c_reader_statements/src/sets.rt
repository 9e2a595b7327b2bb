//! Readers of lvalues, of what changes them, and of what a `for` sets and begins with (C99 6.5.16 and 6.8.5.3).

ghost use Rattle.std.specs.Prelude.{◌≡◌, ◌≢◌, IfOk, IfErr, Ok, Err};
ghost use Rattle.c_syntax.specs.Statements.{one};
ghost use Rattle.c_syntax.specs.Views.{expression_tree, lvalue_tree, change_tree, set_tree, start_tree};
ghost use Rattle.c_syntax.specs.declared.punctuator.Punctuator.TheVariants as P;
ghost use Rattle.c_reader_tokens.specs.Tokens.{sign};
ghost use Rattle.c_reader_expression_laws.specs.Reading.{expression_at};
ghost use Rattle.c_reader_productions.specs.Combining.{◌▷◌};
ghost use Rattle.c_reader_productions.specs.Deeds.{changing};
ghost use Rattle.c_reader_productions.specs.Parts.{cell, lvalue, prefixed, set_behind, set, start_local, start_set, start};
ghost use Rattle.c_reader_statements.specs.Heads.{index, becoming};

use crate::parts::{is_cell_next, one_less, read_name_in};
use c_reader_expressions::expression;
use c_reader_tokens::{
    Fault, is_sign_next, is_step_next, is_type_next, read_assign_operator, read_sign,
    read_step_operator, read_type,
};
use c_syntax::{
    AssignOperator, Change, Constant, Expression, ForStart, Identifier, IntegerType, Lvalue,
    Punctuator, Set, Token,
};
use lang_helpers::{beside, ok};
use std::alloc::Global;

/// An index between brackets.
fn read_index(alloc: Global, fuel: u8, tokens: &[Token]) -> Result<(Expression, &[Token]), Fault>
    ensures ok { IfOk result (λ r. index fuel tokens.now ≡ Ok (expression_tree r.0, r.1.now)) }
    ensures err { IfErr result (λ e. e ≢ Fault.NoMemory → index fuel tokens.now ≡ Err e) }
{
    let rest = ok!(read_sign(Punctuator::LeftBracket, tokens));
    let (index, rest) = ok!(expression(alloc, fuel, 0, rest));
    let (index, rest) = ok!(beside(index, read_sign(Punctuator::RightBracket, rest)));
    Ok((index, rest))
}

/// A cell: an array's name and an index (C99 6.5.2.1).
#[tactic(auto, unfolding(c_reader_productions::specs::Parts::cell))]
pub(crate) fn read_cell(
    alloc: Global,
    fuel: u8,
    tokens: &[Token],
) -> Result<((Identifier, Expression), &[Token]), Fault>
    ensures ok { IfOk result (λ r. cell fuel tokens.now ≡ Ok ((r.0.0, expression_tree r.0.1), r.1.now)) }
    ensures err { IfErr result (λ e. e ≢ Fault.NoMemory → cell fuel tokens.now ≡ Err e) }
{
    let below = ok!(one_less(fuel));
    let (array, rest) = ok!(read_name_in(alloc, below, tokens));
    let (array, (index, rest)) = ok!(beside(array, read_index(alloc, below, rest)));
    Ok(((array, index), rest))
}

#[tactic(auto, unfolding(c_reader_productions::specs::Parts::lvalue))]
fn read_lvalue(alloc: Global, fuel: u8, tokens: &[Token]) -> Result<(Lvalue, &[Token]), Fault>
    ensures ok { IfOk result (λ r. lvalue fuel tokens.now ≡ Ok (lvalue_tree r.0, r.1.now)) }
    ensures err { IfErr result (λ e. e ≢ Fault.NoMemory → lvalue fuel tokens.now ≡ Err e) }
{
    if is_cell_next(tokens) {
        let ((array, index), rest) = ok!(read_cell(alloc, fuel, tokens));
        return Ok((Lvalue::Element(array, index), rest));
    }
    let (variable, rest) = ok!(read_name_in(alloc, fuel, tokens));
    Ok((Lvalue::Variable(variable), rest))
}

/// `=`, an expression and `;`.
pub(crate) fn read_becoming(
    alloc: Global,
    fuel: u8,
    tokens: &[Token],
) -> Result<(Expression, &[Token]), Fault>
    ensures ok { IfOk result (λ r. becoming (expression_at fuel 0) tokens.now ≡ Ok (expression_tree r.0, r.1.now)) }
    ensures err { IfErr result (λ e. e ≢ Fault.NoMemory → becoming (expression_at fuel 0) tokens.now ≡ Err e) }
{
    let rest = ok!(read_sign(Punctuator::Assign, tokens));
    let (value, rest) = ok!(expression(alloc, fuel, 0, rest));
    let (value, rest) = ok!(beside(value, read_sign(Punctuator::Semicolon, rest)));
    Ok((value, rest))
}

/// What `++` adds and `--` subtracts.
fn one() -> Expression
    ensures { expression_tree result ≡ one }
{
    Expression::Constant(Constant {
        value: 1,
        kind: IntegerType::Int,
    })
}

/// What stands behind an lvalue that is changed: an operator and a value, or `++` or `--`.
#[tactic(auto, unfolding(c_reader_productions::specs::Deeds::changing))]
pub(crate) fn read_changing(
    alloc: Global,
    fuel: u8,
    tokens: &[Token],
) -> Result<((AssignOperator, Expression), &[Token]), Fault>
    ensures ok { IfOk result (λ r. changing fuel tokens.now ≡ Ok ((r.0.0, expression_tree r.0.1), r.1.now)) }
    ensures err { IfErr result (λ e. e ≢ Fault.NoMemory → changing fuel tokens.now ≡ Err e) }
{
    if is_step_next(tokens) {
        let (operator, rest) = ok!(read_step_operator(tokens));
        return Ok(((operator, one()), rest));
    }
    let (operator, rest) = ok!(read_assign_operator(tokens));
    let (value, rest) = ok!(expression(alloc, fuel, 0, rest));
    Ok(((operator, value), rest))
}

/// `++` or `--` and an lvalue (C99 6.5.3.1).
#[tactic(auto, unfolding(c_reader_productions::specs::Parts::prefixed))]
pub(crate) fn read_prefixed(
    alloc: Global,
    fuel: u8,
    tokens: &[Token],
) -> Result<(Change, &[Token]), Fault>
    ensures ok { IfOk result (λ r. prefixed fuel tokens.now ≡ Ok (change_tree r.0, r.1.now)) }
    ensures err { IfErr result (λ e. e ≢ Fault.NoMemory → prefixed fuel tokens.now ≡ Err e) }
{
    let (operator, rest) = ok!(read_step_operator(tokens));
    let (lvalue, rest) = ok!(read_lvalue(alloc, fuel, rest));
    let value = one();
    Ok((
        Change {
            lvalue,
            operator,
            value,
        },
        rest,
    ))
}

/// `=` and an expression.
fn read_set_value(
    alloc: Global,
    fuel: u8,
    tokens: &[Token],
) -> Result<(Expression, &[Token]), Fault>
    ensures ok { IfOk result (λ r. (sign P.Assign ▷ expression_at fuel 0) tokens.now ≡ Ok (expression_tree r.0, r.1.now)) }
    ensures err { IfErr result (λ e. e ≢ Fault.NoMemory → (sign P.Assign ▷ expression_at fuel 0) tokens.now ≡ Err e) }
{
    let rest = ok!(read_sign(Punctuator::Assign, tokens));
    expression(alloc, fuel, 0, rest)
}

/// An lvalue, and behind it what a `for` sets it to or how it is changed.
#[tactic(auto, unfolding(c_reader_productions::specs::Parts::set_behind))]
fn read_set_behind(alloc: Global, fuel: u8, tokens: &[Token]) -> Result<(Set, &[Token]), Fault>
    ensures ok { IfOk result (λ r. set_behind fuel tokens.now ≡ Ok (set_tree r.0, r.1.now)) }
    ensures err { IfErr result (λ e. e ≢ Fault.NoMemory → set_behind fuel tokens.now ≡ Err e) }
{
    let (lvalue, rest) = ok!(read_lvalue(alloc, fuel, tokens));
    if is_sign_next(Punctuator::Assign, rest) {
        let (lvalue, (value, rest)) = ok!(beside(lvalue, read_set_value(alloc, fuel, rest)));
        return Ok((Set::Becomes(lvalue, value), rest));
    }
    let (lvalue, (change, rest)) = ok!(beside(lvalue, read_changing(alloc, fuel, rest)));
    let (operator, value) = change;
    Ok((
        Set::Changes(Change {
            lvalue,
            operator,
            value,
        }),
        rest,
    ))
}

/// What a `for` sets.
#[tactic(auto, unfolding(c_reader_productions::specs::Parts::set))]
pub(crate) fn read_set(alloc: Global, fuel: u8, tokens: &[Token]) -> Result<(Set, &[Token]), Fault>
    ensures ok { IfOk result (λ r. set fuel tokens.now ≡ Ok (set_tree r.0, r.1.now)) }
    ensures err { IfErr result (λ e. e ≢ Fault.NoMemory → set fuel tokens.now ≡ Err e) }
{
    let below = ok!(one_less(fuel));
    if is_step_next(tokens) {
        let (change, rest) = ok!(read_prefixed(alloc, below, tokens));
        return Ok((Set::Changes(change), rest));
    }
    read_set_behind(alloc, below, tokens)
}

#[tactic(auto, unfolding(c_reader_productions::specs::Parts::start_local))]
fn read_start_local(
    alloc: Global,
    fuel: u8,
    tokens: &[Token],
) -> Result<(ForStart, &[Token]), Fault>
    ensures ok { IfOk result (λ r. start_local fuel tokens.now ≡ Ok (start_tree r.0, r.1.now)) }
    ensures err { IfErr result (λ e. e ≢ Fault.NoMemory → start_local fuel tokens.now ≡ Err e) }
{
    let (kind, rest) = ok!(read_type(tokens));
    let below = ok!(one_less(fuel));
    let (name, rest) = ok!(read_name_in(alloc, below, rest));
    let (name, (value, rest)) = ok!(beside(name, read_becoming(alloc, below, rest)));
    Ok((ForStart::Local(kind, name, value), rest))
}

#[tactic(auto, unfolding(c_reader_productions::specs::Parts::start_set))]
fn read_start_set(alloc: Global, fuel: u8, tokens: &[Token]) -> Result<(ForStart, &[Token]), Fault>
    ensures ok { IfOk result (λ r. start_set fuel tokens.now ≡ Ok (start_tree r.0, r.1.now)) }
    ensures err { IfErr result (λ e. e ≢ Fault.NoMemory → start_set fuel tokens.now ≡ Err e) }
{
    let (set, rest) = ok!(read_set(alloc, fuel, tokens));
    let (set, rest) = ok!(beside(set, read_sign(Punctuator::Semicolon, rest)));
    Ok((ForStart::Set(set), rest))
}

/// How a `for` begins, with the `;` behind it (C99 6.8.5.3).
#[tactic(auto, unfolding(c_reader_productions::specs::Parts::start, c_reader_productions::specs::Parts::start_nothing))]
pub(crate) fn read_start(
    alloc: Global,
    fuel: u8,
    tokens: &[Token],
) -> Result<(ForStart, &[Token]), Fault>
    ensures ok { IfOk result (λ r. start fuel tokens.now ≡ Ok (start_tree r.0, r.1.now)) }
    ensures err { IfErr result (λ e. e ≢ Fault.NoMemory → start fuel tokens.now ≡ Err e) }
{
    if is_sign_next(Punctuator::Semicolon, tokens) {
        let rest = ok!(read_sign(Punctuator::Semicolon, tokens));
        return Ok((ForStart::Nothing, rest));
    }
    if is_type_next(tokens) {
        return read_start_local(alloc, fuel, tokens);
    }
    read_start_set(alloc, fuel, tokens)
}
