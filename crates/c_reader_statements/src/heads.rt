//! What statements begin with, up to the statements inside them.

ghost use Rattle.std.specs.Prelude.{◌≡◌, ◌≢◌, true, false, IfOk, IfErr, Ok, Err};
ghost use Rattle.c_syntax.specs.Views.{optional_tree, expression_tree, set_tree, statement_tree};
ghost use Rattle.c_reader_statement_laws.specs.Reading.{Below, condition, step, by_first, if_in, while_in, for_in};
ghost use Rattle.c_reader_statements.specs.Heads.{BeginsIf, Begins, BeginsWhole, is_whole, behind_loop};

use crate::sets::{read_set, read_start};
use crate::simple::{
    read_assign, read_break, read_call_statement, read_continue, read_empty, read_local_statement,
    read_return, read_step_statement, read_store,
};
use c_reader_expressions::expression;
use c_reader_statement_laws::First;
use c_reader_tokens::{Fault, is_sign_next, misfit, read_sign, read_word};
use c_syntax::{Expression, ForHead, ForStart, Keyword, Punctuator, Set, Statement, Token};
use lang_helpers::{beside, ok};
use std::alloc::Global;

/// How a loop begins, up to its body.
#[derive(Drop)]
pub(crate) enum Loop {
    While(Expression),
    For(Box<ForHead>),
}

/// What a statement that has statements inside begins with, up to those.
#[derive(Drop)]
pub(crate) enum Head {
    /// The `{` of a block.
    Block,
    /// An `if` and its condition.
    If(Expression),
    Loop(Loop),
    /// The word `do`.
    Do,
}

/// `if` and its condition (C99 6.8.4.1).
#[tactic(auto, unfolding(c_reader_statement_laws::specs::Reading::if_in))]
fn read_if_head(alloc: Global, fuel: u8, tokens: &[Token]) -> Result<(Expression, &[Token]), Fault>
    ensures ok { IfOk result (λ r. BeginsIf fuel tokens.now r.0 r.1.now) }
    ensures err { IfErr result (λ e. e ≢ Fault.NoMemory → (below : Below) → if_in below fuel tokens.now ≡ Err e) }
{
    let rest = ok!(read_word(Keyword::If, tokens));
    let rest = ok!(read_sign(Punctuator::LeftParenthesis, rest));
    let (condition, rest) = ok!(expression(alloc, fuel, 0, rest));
    let (condition, rest) = ok!(beside(condition, read_sign(Punctuator::RightParenthesis, rest)));
    Ok((condition, rest))
}

#[tactic(auto, unfolding(c_reader_statement_laws::specs::Reading::while_in))]
fn read_while_head(alloc: Global, fuel: u8, tokens: &[Token]) -> Result<(Loop, &[Token]), Fault>
    ensures ok { IfOk result (λ r. (below : Below) → while_in below fuel tokens.now ≡ behind_loop below r.0 r.1.now) }
    ensures err { IfErr result (λ e. e ≢ Fault.NoMemory → (below : Below) → while_in below fuel tokens.now ≡ Err e) }
{
    let rest = ok!(read_word(Keyword::While, tokens));
    let rest = ok!(read_sign(Punctuator::LeftParenthesis, rest));
    let (condition, rest) = ok!(expression(alloc, fuel, 0, rest));
    let (condition, rest) = ok!(beside(condition, read_sign(Punctuator::RightParenthesis, rest)));
    Ok((Loop::While(condition), rest))
}

/// The condition of a `for`.
fn read_condition(
    alloc: Global,
    fuel: u8,
    tokens: &[Token],
) -> Result<(Option<Expression>, &[Token]), Fault>
    ensures ok { IfOk result (λ r. condition fuel tokens.now ≡ Ok (optional_tree expression_tree r.0, r.1.now)) }
    ensures err { IfErr result (λ e. e ≢ Fault.NoMemory → condition fuel tokens.now ≡ Err e) }
{
    if is_sign_next(Punctuator::Semicolon, tokens) {
        return Ok((None, tokens));
    }
    let (condition, rest) = ok!(expression(alloc, fuel, 0, tokens));
    Ok((Some(condition), rest))
}

/// What a `for` sets behind each turn.
fn read_step(alloc: Global, fuel: u8, tokens: &[Token]) -> Result<(Option<Set>, &[Token]), Fault>
    ensures ok { IfOk result (λ r. step fuel tokens.now ≡ Ok (optional_tree set_tree r.0, r.1.now)) }
    ensures err { IfErr result (λ e. e ≢ Fault.NoMemory → step fuel tokens.now ≡ Err e) }
{
    if is_sign_next(Punctuator::RightParenthesis, tokens) {
        return Ok((None, tokens));
    }
    let (step, rest) = ok!(read_set(alloc, fuel, tokens));
    Ok((Some(step), rest))
}

/// The head of a `for` in a box.
fn boxed(
    alloc: Global,
    start: ForStart,
    condition: Option<Expression>,
    step: Option<Set>,
) -> Result<Box<ForHead>, Fault>
    ensures ok { IfOk result (λ b. b.value ≡ record { start = start; condition = condition; step = step }) }
    ensures err { IfErr result (λ e. e ≡ Fault.NoMemory) }
{
    Ok(Box::new(
        alloc,
        ForHead {
            start,
            condition,
            step,
        },
    )?)
}

#[tactic(auto, unfolding(c_reader_statement_laws::specs::Reading::for_in))]
fn read_for_head(alloc: Global, fuel: u8, tokens: &[Token]) -> Result<(Loop, &[Token]), Fault>
    ensures ok { IfOk result (λ r. (below : Below) → for_in below fuel tokens.now ≡ behind_loop below r.0 r.1.now) }
    ensures err { IfErr result (λ e. e ≢ Fault.NoMemory → (below : Below) → for_in below fuel tokens.now ≡ Err e) }
{
    let rest = ok!(read_word(Keyword::For, tokens));
    let rest = ok!(read_sign(Punctuator::LeftParenthesis, rest));
    let (start, rest) = ok!(read_start(alloc, fuel, rest));
    let (start, (condition, rest)) = ok!(beside(start, read_condition(alloc, fuel, rest)));
    let (parts, rest) = ok!(beside((start, condition), read_sign(Punctuator::Semicolon, rest)));
    let (parts, (step, rest)) = ok!(beside(parts, read_step(alloc, fuel, rest)));
    let (parts, rest) = ok!(beside((parts, step), read_sign(Punctuator::RightParenthesis, rest)));
    let ((start, condition), step) = parts;
    Ok((Loop::For(ok!(boxed(alloc, start, condition, step))), rest))
}

/// A statement that has none inside, whose parts have this fuel, or the fault of what begins no statement.
pub(crate) fn read_whole(
    alloc: Global,
    fuel: u8,
    first: First,
    tokens: &[Token],
) -> Result<(Statement, &[Token]), Fault>
    requires { is_whole first ≡ true }
    ensures ok { IfOk result (λ r. BeginsWhole fuel first tokens.now (statement_tree r.0) r.1.now) }
    ensures err { IfErr result (λ e. e ≢ Fault.NoMemory → (below : Below) → by_first below fuel first tokens.now ≡ Err e) }
{
    match first {
        First::Empty => read_empty(tokens),
        First::Local => read_local_statement(alloc, fuel, tokens),
        First::Call => read_call_statement(alloc, fuel, tokens),
        First::Assign => read_assign(alloc, fuel, tokens),
        First::Store => read_store(alloc, fuel, tokens),
        First::Step => read_step_statement(alloc, fuel, tokens),
        First::Break => read_break(tokens),
        First::Continue => read_continue(tokens),
        First::Return => read_return(alloc, fuel, tokens),
        _ => Err(misfit(tokens)),
    }
}

/// What begins so, up to the statements inside it; its parts have this fuel.
#[tactic(auto, unfolding(c_reader_statement_laws::specs::Reading::block_in, c_reader_statement_laws::specs::Reading::do_in))]
pub(crate) fn read_head(
    alloc: Global,
    fuel: u8,
    first: First,
    tokens: &[Token],
) -> Result<(Head, &[Token]), Fault>
    requires { is_whole first ≡ false }
    ensures ok { IfOk result (λ r. Begins fuel first tokens.now r.0 r.1.now) }
    ensures err { IfErr result (λ e. e ≢ Fault.NoMemory → (below : Below) → by_first below fuel first tokens.now ≡ Err e) }
{
    match first {
        First::Block => {
            let rest = ok!(read_sign(Punctuator::LeftBrace, tokens));
            Ok((Head::Block, rest))
        }
        First::If => {
            let (condition, rest) = ok!(read_if_head(alloc, fuel, tokens));
            Ok((Head::If(condition), rest))
        }
        First::While => {
            let (head, rest) = ok!(read_while_head(alloc, fuel, tokens));
            Ok((Head::Loop(head), rest))
        }
        First::For => {
            let (head, rest) = ok!(read_for_head(alloc, fuel, tokens));
            Ok((Head::Loop(head), rest))
        }
        First::Do => {
            let rest = ok!(read_word(Keyword::Do, tokens));
            Ok((Head::Do, rest))
        }
        _ => Err(misfit(tokens)),
    }
}
