//! Readers of the parts of statements that are no statements.

ghost use Rattle.std.specs.Prelude.{◌≡◌, ◌≢◌, ◌<◌, suc, IfOk, IfErr, Ok, Err, map, length};
ghost use Rattle.c_syntax.specs.Views.{expression_tree, call_tree, value_tree, local_tree, optional_tree};
ghost use Rattle.c_reader_tokens.specs.Tokens.{sign};
ghost use Rattle.c_reader_expression_laws.specs.Reading.{expression_at};
ghost use Rattle.c_reader_productions.specs.Combining.{commas};
ghost use Rattle.c_reader_productions.specs.Parts.{less, name, arguments, call, value, is_cell_next, local_value, local};
ghost use Rattle.c_reader_statements.specs.Heads.{given, local_end};

use c_reader_expressions::expression;
use c_reader_tokens::{
    Fault, is_call_next, is_name_next, is_sign_next, read_name, read_sign, read_type,
};
use c_syntax::{Call, Expression, Identifier, Local, Punctuator, Token, Value};
use lang_base::Row;
use lang_helpers::{beside, ok};
use std::alloc::Global;

/// One less fuel, for the parts of something.
#[tactic(auto, unfolding(c_reader_productions::specs::Parts::less))]
pub(crate) fn one_less(fuel: u8) -> Result<u8, Fault>
    ensures ok { IfOk result (λ r. less fuel ≡ Ok r) }
    ensures err { IfErr result (λ e. less fuel ≡ Err e) }
{
    if fuel == 0 {
        return Err(Fault::TooDeep);
    }
    Ok(fuel - 1)
}

#[tactic(auto, unfolding(c_reader_productions::specs::Parts::name))]
pub(crate) fn read_name_in(
    alloc: Global,
    fuel: u8,
    tokens: &[Token],
) -> Result<(Identifier, &[Token]), Fault>
    ensures ok { IfOk result (λ r. name fuel tokens.now ≡ Ok (r.0, r.1.now)) }
    ensures err { IfErr result (λ e. e ≢ Fault.NoMemory → name fuel tokens.now ≡ Err e) }
{
    let _below = ok!(one_less(fuel));
    read_name(alloc, tokens)
}

/// Expressions with a comma between each two.
#[tactic(auto, unfolding(c_reader_productions::specs::Combining::commas))]
fn read_expressions(
    alloc: Global,
    fuel: u8,
    tokens: &[Token],
) -> Result<(Vec<Expression>, &[Token]), Fault>
    ensures ok { IfOk result (λ r. commas (expression_at fuel 0) tokens.now ≡ Ok (map expression_tree r.0.items, r.1.now)) }
    ensures err { IfErr result (λ e. e ≢ Fault.NoMemory → commas (expression_at fuel 0) tokens.now ≡ Err e) }
{
    let (first, mut rest) = expression(alloc, fuel, 0, tokens)?;
    let mut expressions = Vec::new(alloc);
    expressions.push(first)?;
    for _ in 0..rest.len() {
        if !is_sign_next(Punctuator::Comma, rest) {
            break;
        }
        let behind = read_sign(Punctuator::Comma, rest)?;
        let (next, behind) = expression(alloc, fuel, 0, behind)?;
        expressions.push(next)?;
        rest = behind;
    }
    Ok((expressions, rest))
}

#[tactic(auto, unfolding(c_reader_productions::specs::Parts::arguments))]
fn read_arguments(
    alloc: Global,
    fuel: u8,
    tokens: &[Token],
) -> Result<(Row<Expression>, &[Token]), Fault>
    ensures ok { IfOk result (λ r. arguments fuel tokens.now ≡ Ok (map expression_tree r.0, r.1.now)) }
    ensures err { IfErr result (λ e. e ≢ Fault.NoMemory → arguments fuel tokens.now ≡ Err e) }
{
    if is_sign_next(Punctuator::RightParenthesis, tokens) {
        return Ok((Row::from_vec(Vec::new(alloc)), tokens));
    }
    let (expressions, rest) = ok!(read_expressions(alloc, fuel, tokens));
    Ok((Row::from_vec(expressions), rest))
}

/// Arguments between parentheses.
fn read_given(
    alloc: Global,
    fuel: u8,
    tokens: &[Token],
) -> Result<(Row<Expression>, &[Token]), Fault>
    ensures ok { IfOk result (λ r. given fuel tokens.now ≡ Ok (map expression_tree r.0, r.1.now)) }
    ensures err { IfErr result (λ e. e ≢ Fault.NoMemory → given fuel tokens.now ≡ Err e) }
{
    let rest = ok!(read_sign(Punctuator::LeftParenthesis, tokens));
    let (arguments, rest) = ok!(read_arguments(alloc, fuel, rest));
    let (arguments, rest) = ok!(beside(arguments, read_sign(Punctuator::RightParenthesis, rest)));
    Ok((arguments, rest))
}

/// A call (C99 6.5.2.2).
#[tactic(auto, unfolding(c_reader_productions::specs::Parts::call))]
pub(crate) fn read_call(
    alloc: Global,
    fuel: u8,
    tokens: &[Token],
) -> Result<(Call, &[Token]), Fault>
    ensures ok { IfOk result (λ r. call fuel tokens.now ≡ Ok (call_tree r.0, r.1.now)) }
    ensures err { IfErr result (λ e. e ≢ Fault.NoMemory → call fuel tokens.now ≡ Err e) }
{
    let below = ok!(one_less(fuel));
    let (callee, rest) = ok!(read_name_in(alloc, below, tokens));
    let (callee, (arguments, rest)) = ok!(beside(callee, read_given(alloc, below, rest)));
    Ok((Call { callee, arguments }, rest))
}

/// The right side of an assignment and the like: a call or an expression.
#[tactic(auto, unfolding(c_reader_productions::specs::Parts::value))]
pub(crate) fn read_value(
    alloc: Global,
    fuel: u8,
    tokens: &[Token],
) -> Result<(Value, &[Token]), Fault>
    ensures ok { IfOk result (λ r. value fuel tokens.now ≡ Ok (value_tree r.0, r.1.now)) }
    ensures err { IfErr result (λ e. e ≢ Fault.NoMemory → value fuel tokens.now ≡ Err e) }
{
    if is_call_next(tokens) {
        let (call, rest) = ok!(read_call(alloc, fuel, tokens));
        return Ok((Value::Call(call), rest));
    }
    let (value, rest) = ok!(expression(alloc, fuel, 0, tokens));
    Ok((Value::Expression(value), rest))
}

/// Whether a cell is next: a name and `[`.
pub(crate) fn is_cell_next(tokens: &[Token]) -> bool
    ensures { result ≡ is_cell_next tokens.now }
{
    match tokens {
        [] => false,
        [_token, rest @ ..] => {
            is_name_next(tokens) && is_sign_next(Punctuator::LeftBracket, rest)
        }
    }
}

#[tactic(auto, unfolding(c_reader_productions::specs::Parts::local_value))]
fn read_local_value(
    alloc: Global,
    fuel: u8,
    tokens: &[Token],
) -> Result<(Option<Value>, &[Token]), Fault>
    ensures ok { IfOk result (λ r. local_value fuel tokens.now ≡ Ok (optional_tree value_tree r.0, r.1.now)) }
    ensures err { IfErr result (λ e. e ≢ Fault.NoMemory → local_value fuel tokens.now ≡ Err e) }
{
    if !is_sign_next(Punctuator::Assign, tokens) {
        return Ok((None, tokens));
    }
    let rest = ok!(read_sign(Punctuator::Assign, tokens));
    let (value, rest) = ok!(read_value(alloc, fuel, rest));
    Ok((Some(value), rest))
}

/// The value of a local, if it has one, and `;`.
fn read_local_end(
    alloc: Global,
    fuel: u8,
    tokens: &[Token],
) -> Result<(Option<Value>, &[Token]), Fault>
    ensures ok { IfOk result (λ r. local_end fuel tokens.now ≡ Ok (optional_tree value_tree r.0, r.1.now)) }
    ensures err { IfErr result (λ e. e ≢ Fault.NoMemory → local_end fuel tokens.now ≡ Err e) }
{
    let (value, rest) = ok!(read_local_value(alloc, fuel, tokens));
    let (value, rest) = ok!(beside(value, read_sign(Punctuator::Semicolon, rest)));
    Ok((value, rest))
}

/// The declaration of a local (C99 6.7), whose parts have this fuel.
#[tactic(auto, unfolding(c_reader_productions::specs::Parts::local))]
pub(crate) fn read_local(
    alloc: Global,
    fuel: u8,
    tokens: &[Token],
) -> Result<(Local, &[Token]), Fault>
    ensures ok { IfOk result (λ r. local fuel tokens.now ≡ Ok (local_tree r.0, r.1.now)) }
    ensures err { IfErr result (λ e. e ≢ Fault.NoMemory → local fuel tokens.now ≡ Err e) }
{
    let (kind, rest) = ok!(read_type(tokens));
    let (name, rest) = ok!(read_name_in(alloc, fuel, rest));
    let (name, (value, rest)) = ok!(beside(name, read_local_end(alloc, fuel, rest)));
    Ok((Local { kind, name, value }, rest))
}
