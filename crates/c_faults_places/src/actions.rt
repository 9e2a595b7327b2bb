//! The places of the parts of actions.

ghost use Rattle.std.specs.Prelude.{OnOk};
ghost use Rattle.c_faults_places.specs.Adding.{AddsAction, AddsActions, AddsInner, AddsLoop, AddsBy, branch_places, if_places, do_places, for_places};
ghost use Rattle.c_faults_terms.specs.Shapes.{then_of, else_of};

use crate::changes::add_change;
use crate::giving::{add_call, add_condition, add_giving, add_return, add_store};
use crate::loops::{add_going, add_local, add_start, add_step, add_until};
use c_faults_terms::{add_same, all_of, condition_of, else_of, then_of};
use c_faults_tokens::{
    behind_condition, behind_head, behind_start, behind_statement, behind_step, next, start,
};
use c_program::Action;
use c_syntax::{Expression, ForHead, Statement, Token};
use lang_base::NoMemory;

/// The places of a statement that stands for the first of two actions, if there is one.
#[cycle(walking)]
fn add_then(
    places: &mut Vec<usize>,
    statement: &Statement,
    action: &Action,
    tokens: &[Token],
) -> Result<(), NoMemory>
    ensures { OnOk result (AddsInner then_of places.old.items places.new.items statement.now action.now tokens.now) }
{
    match then_of(action) {
        Some(then) => add_action(places, statement, then, tokens),
        None => Ok(()),
    }
}

/// The places of a statement that stands for the second of two actions, if there is one.
#[cycle(walking)]
fn add_else(
    places: &mut Vec<usize>,
    statement: &Statement,
    action: &Action,
    tokens: &[Token],
) -> Result<(), NoMemory>
    ensures { OnOk result (AddsInner else_of places.old.items places.new.items statement.now action.now tokens.now) }
{
    match else_of(action) {
        Some(other) => add_action(places, statement, other, tokens),
        None => Ok(()),
    }
}

/// The places of the loop of a `for` at a place, from its condition on.
#[cycle(walking)]
fn add_loop(
    places: &mut Vec<usize>,
    place: usize,
    head: &ForHead,
    body: &Statement,
    action: &Action,
    tokens: &[Token],
) -> Result<(), NoMemory>
    ensures { OnOk result (AddsLoop places.old.items places.new.items place head.now body.now action.now tokens.now) }
{
    let last = next(behind_condition(&head.condition, tokens));
    places.push(place)?;
    if let Some(term) = condition_of(action) {
        add_going(places, &head.condition, term, tokens)?;
    }
    add_then(places, body, action, next(behind_step(&head.step, last)))?;
    match else_of(action) {
        Some(step) => add_step(places, &head.step, step, last),
        None => Ok(()),
    }
}

/// The places of a `for`.
#[cycle(walking)]
fn add_for(
    places: &mut Vec<usize>,
    head: &ForHead,
    body: &Statement,
    action: &Action,
    tokens: &[Token],
) -> Result<(), NoMemory>
    ensures { OnOk result (AddsBy (for_places head.now body.now) places.old places.new action.now tokens.now) }
{
    let place = start(tokens);
    let begun = next(next(tokens));
    places.push(place)?;
    if let Some(first) = then_of(action) {
        add_start(places, &head.start, first, begun)?;
    }
    let condition = behind_start(&head.start, begun);
    match else_of(action) {
        Some(around) => add_loop(places, place, head, body, around, condition),
        None => Ok(()),
    }
}

/// The places of a `do`.
#[cycle(walking)]
fn add_do(
    places: &mut Vec<usize>,
    body: &Statement,
    condition: &Expression,
    action: &Action,
    tokens: &[Token],
) -> Result<(), NoMemory>
    ensures { OnOk result (AddsBy (do_places body.now condition.now) places.old places.new action.now tokens.now) }
{
    let place = start(tokens);
    let inner = next(tokens);
    places.push(place)?;
    if let Some(term) = condition_of(action) {
        add_same(places, place, term)?;
    }
    add_then(places, body, action, inner)?;
    match else_of(action) {
        Some(until) => add_until(places, condition, until, behind_statement(body, inner)),
        None => Ok(()),
    }
}

/// The places of a word, of the condition behind it and of the first of two actions.
#[cycle(walking)]
fn add_branch(
    places: &mut Vec<usize>,
    then: &Statement,
    condition: &Expression,
    action: &Action,
    tokens: &[Token],
) -> Result<(), NoMemory>
    ensures { OnOk result (AddsBy (branch_places condition.now then.now) places.old places.new action.now tokens.now) }
{
    places.push(start(tokens))?;
    add_condition(places, condition, action, next(next(tokens)))?;
    add_then(places, then, action, behind_head(condition, tokens))
}

/// The places of an `if` without `else`, or of a `while`: what is done where the condition is 0, and behind the body, has no
/// part of its own.
#[cycle(walking)]
fn add_if(
    places: &mut Vec<usize>,
    then: &Statement,
    condition: &Expression,
    action: &Action,
    tokens: &[Token],
) -> Result<(), NoMemory>
    ensures { OnOk result (AddsBy (if_places condition.now then.now) places.old places.new action.now tokens.now) }
{
    add_branch(places, then, condition, action, tokens)?;
    places.push(start(tokens))?;
    Ok(())
}

/// The places of the parts of an action, by the statement that it stands for. What calls itself does so at most as often as the
/// statement is high.
#[cycle(walking)]
#[tactic(auto, using(c_faults_tokens::proofs::Blocks::view_block))]
pub fn add_action(
    places: &mut Vec<usize>,
    statement: &Statement,
    action: &Action,
    tokens: &[Token],
) -> Result<(), NoMemory>
    ensures { OnOk result (AddsAction places.old.items places.new.items statement.now action.now tokens.now) }
{
    match statement {
        Statement::Empty => {
            places.push(start(tokens))?;
            Ok(())
        }
        Statement::Local(local) => add_local(places, local, action, tokens),
        Statement::Block(all) => {
            places.push(start(tokens))?;
            add_actions(places, all.as_slice(), all_of(action), next(tokens))
        }
        Statement::Call(call) => add_call(places, call, action, tokens),
        Statement::Assign(name, value) => {
            add_giving(places, name.offset, value, action, next(next(tokens)))
        }
        Statement::Store(array, index, value) => {
            add_store(places, array, index, value, action, tokens)
        }
        Statement::Change(change) => add_change(places, change, action, tokens),
        Statement::If(condition, then) => add_if(places, then, condition, action, tokens),
        Statement::IfElse(condition, then, other) => {
            let word = behind_statement(then, behind_head(condition, tokens));
            add_branch(places, then, condition, action, tokens)?;
            add_else(places, other, action, next(word))
        }
        Statement::While(condition, body) => add_if(places, body, condition, action, tokens),
        Statement::Do(body, condition) => add_do(places, body, condition, action, tokens),
        Statement::For(head, body) => add_for(places, head, body, action, tokens),
        Statement::Break(place) | Statement::Continue(place) => {
            places.push(*place)?;
            Ok(())
        }
        Statement::Return(place, value) => {
            add_return(places, *place, value, action, next(tokens))
        }
    }
}

/// The places of the parts of some actions, one for each statement.
#[cycle(walking)]
#[tactic(auto, using(crate::proofs::Lists::one_more))]
pub fn add_actions(
    places: &mut Vec<usize>,
    statements: &[Statement],
    actions: &[Action],
    tokens: &[Token],
) -> Result<(), NoMemory>
    ensures { OnOk result (AddsActions places.old.items places.new.items statements.now actions.now tokens.now) }
{
    let mut left = actions;
    let mut rest = tokens;
    for statement in statements {
        let [action, more @ ..] = left else {
            return Ok(());
        };
        add_action(places, statement, action, rest)?;
        rest = behind_statement(statement, rest);
        left = more;
    }
    Ok(())
}
