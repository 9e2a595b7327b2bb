//! The reader: precedence climbing. What calls itself does so with less fuel.

ghost use Rattle.std.specs.Prelude.{◌≡◌, ◌≢◌, ◌≤◌, IfOk, IfErr, Ok, Err};
ghost use Rattle.c_syntax.specs.Views.{expression_tree};
ghost use Rattle.c_reader_expression_laws.specs.Operands.{number, indexed, variable, cast, enclosed, parenthesized, perhaps_signed, operand};
ghost use Rattle.c_reader_expression_laws.specs.Reading.{expression_at};
ghost use Rattle.c_reader_expressions.specs.Measuring.{Reads, Meets, operators_behind, operator_behind, choice_behind};

use crate::measured::Measured;
use crate::operators::{binary_sign, binding, deep, next, unary_operator, unary_sign};
use c_reader_expression_laws::Next;
use c_reader_tokens::{
    Fault, is_sign_next, is_type_next, misfit, read_constant, read_name, read_sign, read_type,
};
use c_syntax::{
    BinaryOperator, Expression, Identifier, Punctuator, Token, TokenKind, UnaryOperator,
};
use lang_helpers::beside;
use std::alloc::Global;

/// The level of an operand, above that of each operator.
const OPERAND_LEVEL: u8 = 11;

/// An expression at a level of the grammar, 0 for a whole one, and the tokens behind it. It is at most
/// as high as the fuel; one that would be higher is `Fault::TooDeep`.
pub fn expression(
    alloc: Global,
    fuel: u8,
    level: u8,
    tokens: &[Token],
) -> Result<(Expression, &[Token]), Fault>
    ensures ok { IfOk result (λ r. expression_at fuel level tokens.now ≡ Ok (expression_tree r.0, r.1.now)) }
    ensures err { IfErr result (λ e. e ≢ Fault.NoMemory → expression_at fuel level tokens.now ≡ Err e) }
{
    let (read, rest) = read_at(alloc, fuel, level, tokens)?;
    let Measured { expression, .. } = read;
    Ok((expression, rest))
}

/// An expression with its height, which is at most the fuel.
#[cycle(expressions)]
#[tactic(auto, unfolding(c_reader_expression_laws::specs::Reading::expression_at))]
fn read_at(
    alloc: Global,
    fuel: u8,
    level: u8,
    tokens: &[Token],
) -> Result<(Measured, &[Token]), Fault>
    ensures ok { IfOk result (λ r. Reads (expression_at fuel level) tokens.now r.0 r.1.now) }
    ensures low { IfOk result (λ r. r.0.height ≤ fuel) }
    ensures err { IfErr result (Meets (expression_at fuel level) tokens.now) }
{
    if fuel == 0 {
        return Err(deep(tokens));
    }
    let (left, rest) = operand(alloc, fuel - 1, tokens)?;
    chain(alloc, fuel - 1, level, left, rest)
}

/// An operand, by its first token. Its parts have so much fuel.
#[cycle(expressions)]
#[tactic(auto, unfolding(c_reader_expression_laws::specs::Operands::operand))]
fn operand(alloc: Global, below: u8, tokens: &[Token]) -> Result<(Measured, &[Token]), Fault>
    ensures ok { IfOk result (λ r. Reads (operand (expression_at below)) tokens.now r.0 r.1.now) }
    ensures err { IfErr result (Meets (operand (expression_at below)) tokens.now) }
{
    match tokens {
        [] => Err(misfit(tokens)),
        [token, _rest @ ..] => match &token.kind {
            TokenKind::Name(_) => variable(alloc, below, tokens),
            TokenKind::Constant(_) => number(tokens),
            TokenKind::Keyword(_) => Err(misfit(tokens)),
            TokenKind::Punctuator(sign) if *sign == Punctuator::LeftParenthesis => {
                parenthesized(alloc, below, tokens)
            }
            TokenKind::Punctuator(sign) => {
                perhaps_signed(alloc, below, unary_operator(*sign), tokens)
            }
        },
    }
}

/// A constant.
#[tactic(auto, unfolding(c_reader_expression_laws::specs::Operands::number))]
fn number(tokens: &[Token]) -> Result<(Measured, &[Token]), Fault>
    ensures ok { IfOk result (λ r. Reads number tokens.now r.0 r.1.now) }
    ensures err { IfErr result (Meets number tokens.now) }
{
    let (value, rest) = read_constant(tokens)?;
    Ok((Measured::constant(value), rest))
}

/// A name, or a cell of an array.
#[cycle(expressions)]
#[tactic(auto, unfolding(c_reader_expression_laws::specs::Operands::variable))]
fn variable(alloc: Global, below: u8, tokens: &[Token]) -> Result<(Measured, &[Token]), Fault>
    ensures ok { IfOk result (λ r. Reads (variable (expression_at below)) tokens.now r.0 r.1.now) }
    ensures err { IfErr result (Meets (variable (expression_at below)) tokens.now) }
{
    let (name, rest) = read_name(alloc, tokens)?;
    if is_sign_next(Punctuator::LeftBracket, rest) {
        indexed(alloc, below, name, rest)
    } else {
        Ok((Measured::variable(name), rest))
    }
}

/// The index behind an array's name.
#[cycle(expressions)]
#[tactic(auto, unfolding(c_reader_expression_laws::specs::Operands::indexed))]
fn indexed(
    alloc: Global,
    below: u8,
    array: Identifier,
    tokens: &[Token],
) -> Result<(Measured, &[Token]), Fault>
    ensures ok { IfOk result (λ r. Reads (indexed (expression_at below) array) tokens.now r.0 r.1.now) }
    ensures err { IfErr result (Meets (indexed (expression_at below) array) tokens.now) }
{
    let (array, inner) = beside(array, read_sign(Punctuator::LeftBracket, tokens))?;
    let (array, (index, behind)) = beside(array, read_at(alloc, below, 0, inner))?;
    let (cell, rest) = beside((array, index), read_sign(Punctuator::RightBracket, behind))?;
    let (array, index) = cell;
    Ok((Measured::element(alloc, array, index)?, rest))
}

/// A cast, or an expression in parentheses.
#[cycle(expressions)]
#[tactic(auto, unfolding(c_reader_expression_laws::specs::Operands::parenthesized))]
fn parenthesized(alloc: Global, below: u8, tokens: &[Token]) -> Result<(Measured, &[Token]), Fault>
    ensures ok { IfOk result (λ r. Reads (parenthesized (expression_at below)) tokens.now r.0 r.1.now) }
    ensures err { IfErr result (Meets (parenthesized (expression_at below)) tokens.now) }
{
    let inner = read_sign(Punctuator::LeftParenthesis, tokens)?;
    if is_type_next(inner) {
        cast(alloc, below, inner)
    } else {
        enclosed(alloc, below, inner)
    }
}

/// Behind `(`: the rest of a cast.
#[cycle(expressions)]
#[tactic(auto, unfolding(c_reader_expression_laws::specs::Operands::cast))]
fn cast(alloc: Global, below: u8, tokens: &[Token]) -> Result<(Measured, &[Token]), Fault>
    ensures ok { IfOk result (λ r. Reads (cast (expression_at below)) tokens.now r.0 r.1.now) }
    ensures err { IfErr result (Meets (cast (expression_at below)) tokens.now) }
{
    let (kind, behind) = read_type(tokens)?;
    let inner = read_sign(Punctuator::RightParenthesis, behind)?;
    let (operand, rest) = read_at(alloc, below, OPERAND_LEVEL, inner)?;
    Ok((Measured::cast(alloc, kind, operand)?, rest))
}

/// Behind `(`: an expression and `)`.
#[cycle(expressions)]
#[tactic(auto, unfolding(c_reader_expression_laws::specs::Operands::enclosed))]
fn enclosed(alloc: Global, below: u8, tokens: &[Token]) -> Result<(Measured, &[Token]), Fault>
    ensures ok { IfOk result (λ r. Reads (enclosed (expression_at below)) tokens.now r.0 r.1.now) }
    ensures err { IfErr result (Meets (enclosed (expression_at below)) tokens.now) }
{
    let (inner, behind) = read_at(alloc, below, 0, tokens)?;
    let (inner, rest) = beside(inner, read_sign(Punctuator::RightParenthesis, behind))?;
    Ok((Measured::parenthesis(alloc, inner)?, rest))
}

/// A unary operator, if there is one, and its operand.
#[cycle(expressions)]
#[tactic(auto, unfolding(c_reader_expression_laws::specs::Operands::signed))]
fn perhaps_signed(
    alloc: Global,
    below: u8,
    found: Option<UnaryOperator>,
    tokens: &[Token],
) -> Result<(Measured, &[Token]), Fault>
    ensures ok { IfOk result (λ r. Reads (perhaps_signed (expression_at below) found) tokens.now r.0 r.1.now) }
    ensures err { IfErr result (Meets (perhaps_signed (expression_at below) found) tokens.now) }
{
    let Some(operator) = found else {
        return Err(misfit(tokens));
    };
    let inner = read_sign(unary_sign(operator), tokens)?;
    let (operand, rest) = read_at(alloc, below, OPERAND_LEVEL, inner)?;
    Ok((Measured::unary(alloc, operator, operand)?, rest))
}

/// Behind a left operand: operators that bind at least as strongly as the level, as long as there are any.
#[cycle(expressions)]
#[tactic(auto, unfolding(c_reader_expression_laws::specs::Reading::chain))]
fn chain(
    alloc: Global,
    below: u8,
    level: u8,
    mut left: Measured,
    tokens: &[Token],
) -> Result<(Measured, &[Token]), Fault>
    ensures ok { IfOk result (λ r. Reads (operators_behind below level left) tokens.now r.0 r.1.now) }
    ensures err { IfErr result (Meets (operators_behind below level left) tokens.now) }
{
    let mut rest = tokens;
    for _ in 0..below {
        match next(level, rest) {
            Next::Operator(operator) => {
                let (whole, behind) = operated(alloc, below, operator, left, rest)?;
                left = whole;
                rest = behind;
            }
            Next::Choice => return chosen(alloc, below, left, rest),
            Next::Stop => return Ok((left, rest)),
        }
    }
    match next(level, rest) {
        Next::Stop => Ok((left, rest)),
        _ => Err(Fault::TooDeep),
    }
}

/// A left operand, which leaves fuel for an operator above it; the operator, and the right operand.
#[cycle(expressions)]
#[tactic(auto, unfolding(c_reader_expression_laws::specs::Reading::operated))]
fn operated(
    alloc: Global,
    below: u8,
    operator: BinaryOperator,
    left: Measured,
    tokens: &[Token],
) -> Result<(Measured, &[Token]), Fault>
    ensures ok { IfOk result (λ r. Reads (operator_behind below operator left) tokens.now r.0 r.1.now) }
    ensures err { IfErr result (Meets (operator_behind below operator left) tokens.now) }
{
    if left.height > u16::from(below) {
        return Err(Fault::TooDeep);
    }
    let (left, inner) = beside(left, read_sign(binary_sign(operator), tokens))?;
    let right = read_at(alloc, below, binding(operator) + 1, inner);
    let (left, (right, rest)) = beside(left, right)?;
    Ok((Measured::binary(alloc, operator, left, right)?, rest))
}

/// A condition, which leaves fuel for a choice above it; `?`, a value, `:` and a value.
#[cycle(expressions)]
#[tactic(auto, unfolding(c_reader_expression_laws::specs::Reading::chosen))]
fn chosen(
    alloc: Global,
    below: u8,
    condition: Measured,
    tokens: &[Token],
) -> Result<(Measured, &[Token]), Fault>
    ensures ok { IfOk result (λ r. Reads (choice_behind below condition) tokens.now r.0 r.1.now) }
    ensures err { IfErr result (Meets (choice_behind below condition) tokens.now) }
{
    if condition.height > u16::from(below) {
        return Err(Fault::TooDeep);
    }
    let (condition, inner) = beside(condition, read_sign(Punctuator::Question, tokens))?;
    let (condition, (then, behind)) = beside(condition, read_at(alloc, below, 0, inner))?;
    let (parts, inner) = beside((condition, then), read_sign(Punctuator::Colon, behind))?;
    let (parts, (other, rest)) = beside(parts, read_at(alloc, below, 0, inner))?;
    let (condition, then) = parts;
    Ok((Measured::conditional(alloc, condition, then, other)?, rest))
}
