//! Readers of statements that have none inside them (C99 6.8.3 and 6.8.6).

ghost use Rattle.std.specs.Prelude.{◌≡◌, ◌≢◌, IfOk, IfErr, Ok, Err};
ghost use Rattle.c_syntax.specs.Views.{statement_tree, expression_tree, optional_tree, value_tree};
ghost use Rattle.c_syntax.specs.Trees as T;
ghost use Rattle.c_reader_productions.specs.Combining.{made};
ghost use Rattle.c_reader_productions.specs.Parts.{value, local};
ghost use Rattle.c_reader_statement_laws.specs.Reading.{empty, call_statement, changed, assign, store, step_statement, break_statement, continue_statement, read_return, return_statement};
ghost use Rattle.c_reader_statements.specs.Heads.{becoming};

use crate::parts::{read_call, read_local, read_name_in, read_value};
use crate::sets::{read_becoming, read_cell, read_changing, read_prefixed};
use c_reader_tokens::{Fault, is_sign_next, read_placed_word, read_sign};
use c_syntax::{
    AssignOperator, Change, Expression, Keyword, Lvalue, Punctuator, Statement, Token, Value,
};
use lang_helpers::{beside, ok};
use std::alloc::Global;

#[tactic(auto, unfolding(c_reader_statement_laws::specs::Reading::empty))]
pub(crate) fn read_empty(tokens: &[Token]) -> Result<(Statement, &[Token]), Fault>
    ensures ok { IfOk result (λ r. empty tokens.now ≡ Ok (statement_tree r.0, r.1.now)) }
    ensures err { IfErr result (λ e. empty tokens.now ≡ Err e) }
{
    let rest = ok!(read_sign(Punctuator::Semicolon, tokens));
    Ok((Statement::Empty, rest))
}

pub(crate) fn read_local_statement(
    alloc: Global,
    fuel: u8,
    tokens: &[Token],
) -> Result<(Statement, &[Token]), Fault>
    ensures ok { IfOk result (λ r. made (λ l. T.Local l) (local fuel) tokens.now ≡ Ok (statement_tree r.0, r.1.now)) }
    ensures err { IfErr result (λ e. e ≢ Fault.NoMemory → made (λ l. T.Local l) (local fuel) tokens.now ≡ Err e) }
{
    let (local, rest) = ok!(read_local(alloc, fuel, tokens));
    Ok((Statement::Local(local), rest))
}

#[tactic(auto, unfolding(c_reader_statement_laws::specs::Reading::call_statement))]
pub(crate) fn read_call_statement(
    alloc: Global,
    fuel: u8,
    tokens: &[Token],
) -> Result<(Statement, &[Token]), Fault>
    ensures ok { IfOk result (λ r. call_statement fuel tokens.now ≡ Ok (statement_tree r.0, r.1.now)) }
    ensures err { IfErr result (λ e. e ≢ Fault.NoMemory → call_statement fuel tokens.now ≡ Err e) }
{
    let (call, rest) = ok!(read_call(alloc, fuel, tokens));
    let (call, rest) = ok!(beside(call, read_sign(Punctuator::Semicolon, rest)));
    Ok((Statement::Call(call), rest))
}

/// What changes the lvalue before it, and `;`.
#[tactic(auto, unfolding(c_reader_statement_laws::specs::Reading::changed))]
fn read_changed(
    alloc: Global,
    fuel: u8,
    tokens: &[Token],
) -> Result<((AssignOperator, Expression), &[Token]), Fault>
    ensures ok { IfOk result (λ r. changed fuel tokens.now ≡ Ok ((r.0.0, expression_tree r.0.1), r.1.now)) }
    ensures err { IfErr result (λ e. e ≢ Fault.NoMemory → changed fuel tokens.now ≡ Err e) }
{
    let (change, rest) = ok!(read_changing(alloc, fuel, tokens));
    let (change, rest) = ok!(beside(change, read_sign(Punctuator::Semicolon, rest)));
    Ok((change, rest))
}

/// A change in a box.
fn boxed(alloc: Global, change: Change) -> Result<Box<Change>, Fault>
    ensures ok { IfOk result (λ b. b.value ≡ change) }
    ensures err { IfErr result (λ e. e ≡ Fault.NoMemory) }
{
    Ok(Box::new(alloc, change)?)
}

/// What a name becomes.
fn read_assigned(alloc: Global, fuel: u8, tokens: &[Token]) -> Result<(Value, &[Token]), Fault>
    ensures ok { IfOk result (λ r. becoming (value fuel) tokens.now ≡ Ok (value_tree r.0, r.1.now)) }
    ensures err { IfErr result (λ e. e ≢ Fault.NoMemory → becoming (value fuel) tokens.now ≡ Err e) }
{
    let rest = ok!(read_sign(Punctuator::Assign, tokens));
    let (value, rest) = ok!(read_value(alloc, fuel, rest));
    let (value, rest) = ok!(beside(value, read_sign(Punctuator::Semicolon, rest)));
    Ok((value, rest))
}

/// A name, and what it becomes or how it is changed (C99 6.5.16).
#[tactic(auto, unfolding(c_reader_statement_laws::specs::Reading::assign))]
pub(crate) fn read_assign(
    alloc: Global,
    fuel: u8,
    tokens: &[Token],
) -> Result<(Statement, &[Token]), Fault>
    ensures ok { IfOk result (λ r. assign fuel tokens.now ≡ Ok (statement_tree r.0, r.1.now)) }
    ensures err { IfErr result (λ e. e ≢ Fault.NoMemory → assign fuel tokens.now ≡ Err e) }
{
    let (name, rest) = ok!(read_name_in(alloc, fuel, tokens));
    if is_sign_next(Punctuator::Assign, rest) {
        let (name, (value, rest)) = ok!(beside(name, read_assigned(alloc, fuel, rest)));
        return Ok((Statement::Assign(name, value), rest));
    }
    let (name, (change, rest)) = ok!(beside(name, read_changed(alloc, fuel, rest)));
    let (operator, value) = change;
    let change = Change {
        lvalue: Lvalue::Variable(name),
        operator,
        value,
    };
    Ok((Statement::Change(ok!(boxed(alloc, change))), rest))
}

/// A cell, and what it becomes or how it is changed (C99 6.5.16).
#[tactic(auto, unfolding(c_reader_statement_laws::specs::Reading::store))]
pub(crate) fn read_store(
    alloc: Global,
    fuel: u8,
    tokens: &[Token],
) -> Result<(Statement, &[Token]), Fault>
    ensures ok { IfOk result (λ r. store fuel tokens.now ≡ Ok (statement_tree r.0, r.1.now)) }
    ensures err { IfErr result (λ e. e ≢ Fault.NoMemory → store fuel tokens.now ≡ Err e) }
{
    let (cell, rest) = ok!(read_cell(alloc, fuel, tokens));
    if is_sign_next(Punctuator::Assign, rest) {
        let ((array, index), (value, rest)) = ok!(beside(cell, read_becoming(alloc, fuel, rest)));
        return Ok((Statement::Store(array, index, value), rest));
    }
    let ((array, index), (change, rest)) = ok!(beside(cell, read_changed(alloc, fuel, rest)));
    let (operator, value) = change;
    let change = Change {
        lvalue: Lvalue::Element(array, index),
        operator,
        value,
    };
    Ok((Statement::Change(ok!(boxed(alloc, change))), rest))
}

/// `++` or `--` and an lvalue.
#[tactic(auto, unfolding(c_reader_statement_laws::specs::Reading::step_statement))]
pub(crate) fn read_step_statement(
    alloc: Global,
    fuel: u8,
    tokens: &[Token],
) -> Result<(Statement, &[Token]), Fault>
    ensures ok { IfOk result (λ r. step_statement fuel tokens.now ≡ Ok (statement_tree r.0, r.1.now)) }
    ensures err { IfErr result (λ e. e ≢ Fault.NoMemory → step_statement fuel tokens.now ≡ Err e) }
{
    let (change, rest) = ok!(read_prefixed(alloc, fuel, tokens));
    let (change, rest) = ok!(beside(change, read_sign(Punctuator::Semicolon, rest)));
    Ok((Statement::Change(ok!(boxed(alloc, change))), rest))
}

#[tactic(auto, unfolding(c_reader_statement_laws::specs::Reading::break_statement))]
pub(crate) fn read_break(tokens: &[Token]) -> Result<(Statement, &[Token]), Fault>
    ensures ok { IfOk result (λ r. break_statement tokens.now ≡ Ok (statement_tree r.0, r.1.now)) }
    ensures err { IfErr result (λ e. break_statement tokens.now ≡ Err e) }
{
    let (at, rest) = ok!(read_placed_word(Keyword::Break, tokens));
    let rest = ok!(read_sign(Punctuator::Semicolon, rest));
    Ok((Statement::Break(at), rest))
}

#[tactic(auto, unfolding(c_reader_statement_laws::specs::Reading::continue_statement))]
pub(crate) fn read_continue(tokens: &[Token]) -> Result<(Statement, &[Token]), Fault>
    ensures ok { IfOk result (λ r. continue_statement tokens.now ≡ Ok (statement_tree r.0, r.1.now)) }
    ensures err { IfErr result (λ e. continue_statement tokens.now ≡ Err e) }
{
    let (at, rest) = ok!(read_placed_word(Keyword::Continue, tokens));
    let rest = ok!(read_sign(Punctuator::Semicolon, rest));
    Ok((Statement::Continue(at), rest))
}

fn read_returned(
    alloc: Global,
    fuel: u8,
    tokens: &[Token],
) -> Result<(Option<Value>, &[Token]), Fault>
    ensures ok { IfOk result (λ r. read_return fuel tokens.now ≡ Ok (optional_tree value_tree r.0, r.1.now)) }
    ensures err { IfErr result (λ e. e ≢ Fault.NoMemory → read_return fuel tokens.now ≡ Err e) }
{
    if is_sign_next(Punctuator::Semicolon, tokens) {
        return Ok((None, tokens));
    }
    let (value, rest) = ok!(read_value(alloc, fuel, tokens));
    Ok((Some(value), rest))
}

#[tactic(auto, unfolding(c_reader_statement_laws::specs::Reading::return_statement))]
pub(crate) fn read_return(
    alloc: Global,
    fuel: u8,
    tokens: &[Token],
) -> Result<(Statement, &[Token]), Fault>
    ensures ok { IfOk result (λ r. return_statement fuel tokens.now ≡ Ok (statement_tree r.0, r.1.now)) }
    ensures err { IfErr result (λ e. e ≢ Fault.NoMemory → return_statement fuel tokens.now ≡ Err e) }
{
    let (at, rest) = ok!(read_placed_word(Keyword::Return, tokens));
    let (value, rest) = ok!(read_returned(alloc, fuel, rest));
    let (value, rest) = ok!(beside(value, read_sign(Punctuator::Semicolon, rest)));
    Ok((Statement::Return(at, value), rest))
}
