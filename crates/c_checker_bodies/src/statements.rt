//! The checker of statements (C99 6.8). It calls itself no deeper than the tree is high.

ghost use Rattle.std.specs.Prelude.{suc, ◌≡◌, ◌≤◌, ◌+◌, ◌-◌, [], length, drop, OnOk, IfOk, IfErr};
ghost use Rattle.c_syntax.specs.Heights.{statement_height, statements_height};
ghost use Rattle.c_syntax.specs.Views.{statement_tree, statements_tree};
ghost use Rattle.c_program.specs.Trees as P;
ghost use Rattle.c_program.specs.Views.{action_tree, actions_tree};
ghost use Rattle.c_checker_rules.specs.Told.{Tells};
ghost use Rattle.c_checker_rules.specs.Locals.{deeper, looping, left};
ghost use Rattle.c_checker_rules.specs.Statements as S;
ghost use Rattle.c_checker_bodies.specs.Sources.{faults_in, action_for, faults_in_all, actions_for, block_actions, behind_all};
ghost use Rattle.c_checker_bodies.specs.Holders.{if_tree, while_tree, do_tree, TellsOf, StandsFor};
ghost use Rattle.c_checker_bodies.specs.ForSources.{NoneInFor, TellsOfFor, IsFor, behind_for};

use crate::changes::check_change;
use crate::here::Here;
use crate::loops::{check_heads, do_of};
use crate::parts::{
    check_assignment, check_call_alone, check_declaration, check_return, check_store, in_loop,
};
use c_checker_rules::{CheckError, Context};
use c_checker_terms::{Functions, check_expression};
use c_program::Action;
use c_syntax::{Expression, ForHead, ForStart, Set, Statement};
use lang_helpers::{beside, ok};
use std::alloc::Global;

/// In a block in this context.
fn deeper(context: Context) -> Context
    requires { context.depth ≤ 1000 }
    ensures { result ≡ deeper context }
{
    Context {
        depth: context.depth + 1,
        ..context
    }
}

/// In a loop in this context.
fn looping(context: Context) -> Context
    ensures { result ≡ looping context }
{
    Context {
        in_loop: true,
        ..context
    }
}

/// At the end of a scope the names behind the mark are forgotten, and the locals keep their numbers.
pub fn leave(here: &mut Here, mark: usize)
    requires { mark ≤ length here.old.scope }
    ensures { here.new ≡ record { scope = drop (length here.old.scope - mark) here.old.scope; locals = here.old.locals } }
{
    here.scope.shorten_to(mark);
}

/// Nothing to do, in a box.
fn nothing(alloc: Global) -> Result<Box<Action>, CheckError>
    ensures ok { IfOk result (λ b. action_tree b.value ≡ P.Nothing) }
    ensures err { IfErr result (λ e. e ≡ CheckError.NoMemory) }
{
    Ok(Box::new(alloc, Action::Nothing)?)
}

/// The action that a statement stands for, or the first fault in it. What it declares is declared here.
#[cycle(statements)]
#[tactic(auto, using(c_checker_rules::proofs::Firsts::tells_front, c_checker_rules::proofs::Firsts::tells_behind, crate::proofs::Heights::if_low, crate::proofs::Heights::holds_low, crate::proofs::Heights::other_low, crate::proofs::Heights::do_low, crate::proofs::Heights::for_low, crate::proofs::Blocks::view_block, c_program::proofs::Sequences::view_sequence))]
fn check_statement(
    alloc: Global,
    functions: &Functions,
    context: Context,
    here: &mut Here,
    statement: &Statement,
) -> Result<Action, CheckError>
    requires { context.depth + statement_height (statement_tree statement.now) ≤ 1000 }
    ensures ok { OnOk result (faults_in functions.now context here.old statement.now ≡ []) }
    ensures action { IfOk result (λ a. action_tree a ≡ action_for functions.now context here.old statement.now) }
    ensures here { OnOk result (here.new ≡ S.after context.depth here.old (statement_tree statement.now)) }
    ensures err { IfErr result (λ e. Tells e (faults_in functions.now context here.old statement.now)) }
{
    match statement {
        Statement::Empty => Ok(Action::Nothing),
        Statement::Local(local) => {
            check_declaration(alloc, functions, context.depth, here, local)
        }
        Statement::Block(all) => {
            let all = ok!(check_block(alloc, functions, context, here, all.as_slice()));
            Ok(Action::Sequence(all))
        }
        Statement::Call(call) => check_call_alone(alloc, functions, &here.scope, call),
        Statement::Assign(name, value) => {
            check_assignment(alloc, functions, &here.scope, name, value)
        }
        Statement::Store(name, index, value) => {
            check_store(alloc, &here.scope, name, index, value)
        }
        Statement::Change(change) => check_change(alloc, &here.scope, change),
        Statement::If(condition, inner) => {
            check_if(alloc, functions, context, here, inner, condition)
        }
        Statement::IfElse(condition, inner, other) => {
            let condition = ok!(check_expression(alloc, &here.scope, condition));
            let holds = check_inner(alloc, functions, context, here, inner);
            let (condition, holds) = ok!(beside(condition.term, holds));
            let other = check_inner(alloc, functions, context, here, other);
            let (condition, other) = ok!(beside(condition, other));
            Ok(Action::If(condition, holds, other))
        }
        Statement::While(condition, inner) => {
            check_while(alloc, functions, context, here, inner, condition)
        }
        Statement::Do(inner, condition) => {
            check_do(alloc, functions, context, here, inner, condition)
        }
        Statement::For(head, inner) => {
            let ForHead {
                start,
                condition,
                step,
            } = &**head;
            check_for(
                alloc,
                functions,
                deeper(context),
                here,
                start,
                condition,
                step,
                inner,
            )
        }
        Statement::Break(at) => in_loop(context.in_loop, *at, Action::Break),
        Statement::Continue(at) => in_loop(context.in_loop, *at, Action::Continue),
        Statement::Return(at, value) => {
            check_return(alloc, functions, &here.scope, context.result, *at, value)
        }
    }
}

/// A statement within another: behind it its names are forgotten.
#[cycle(statements)]
#[tactic(auto, using(crate::proofs::Leaving::statement_longer, crate::proofs::Leaving::statement_shortened))]
fn check_inner(
    alloc: Global,
    functions: &Functions,
    context: Context,
    here: &mut Here,
    statement: &Statement,
) -> Result<Box<Action>, CheckError>
    requires { context.depth + statement_height (statement_tree statement.now) ≤ 1000 }
    ensures ok { OnOk result (faults_in functions.now context here.old statement.now ≡ []) }
    ensures action { IfOk result (λ a. action_tree a.value ≡ action_for functions.now context here.old statement.now) }
    ensures here { OnOk result (here.new ≡ left here.old (S.after context.depth here.old (statement_tree statement.now))) }
    ensures err { IfErr result (λ e. Tells e (faults_in functions.now context here.old statement.now)) }
{
    let mark = here.scope.len();
    let action = ok!(check_statement(alloc, functions, context, here, statement));
    leave(here, mark);
    Ok(Box::new(alloc, action)?)
}

/// `if` without `else`, in this context.
#[cycle(statements)]
#[tactic(auto, using(c_checker_rules::proofs::Firsts::tells_front, c_checker_rules::proofs::Firsts::tells_behind))]
fn check_if(
    alloc: Global,
    functions: &Functions,
    context: Context,
    here: &mut Here,
    inner: &Statement,
    condition: &Expression,
) -> Result<Action, CheckError>
    requires { context.depth + statement_height (statement_tree inner.now) ≤ 1000 }
    ensures ok { OnOk result (S.statement_faults functions.now context here.old (if_tree inner.now condition.now) ≡ []) }
    ensures action { IfOk result (StandsFor functions.now context here.old (if_tree inner.now condition.now)) }
    ensures here { OnOk result (here.new ≡ S.after context.depth here.old (if_tree inner.now condition.now)) }
    ensures err { IfErr result (TellsOf functions.now context here.old (if_tree inner.now condition.now)) }
{
    let condition = ok!(check_expression(alloc, &here.scope, condition));
    let holds = check_inner(alloc, functions, context, here, inner);
    let (condition, holds) = ok!(beside(condition.term, holds));
    let (condition, other) = ok!(beside(condition, nothing(alloc)));
    Ok(Action::If(condition, holds, other))
}

/// `while`, in this context.
#[cycle(statements)]
#[tactic(auto, using(c_checker_rules::proofs::Firsts::tells_front, c_checker_rules::proofs::Firsts::tells_behind))]
fn check_while(
    alloc: Global,
    functions: &Functions,
    context: Context,
    here: &mut Here,
    inner: &Statement,
    condition: &Expression,
) -> Result<Action, CheckError>
    requires { context.depth + statement_height (statement_tree inner.now) ≤ 1000 }
    ensures ok { OnOk result (S.statement_faults functions.now context here.old (while_tree inner.now condition.now) ≡ []) }
    ensures action { IfOk result (StandsFor functions.now context here.old (while_tree inner.now condition.now)) }
    ensures here { OnOk result (here.new ≡ S.after context.depth here.old (while_tree inner.now condition.now)) }
    ensures err { IfErr result (TellsOf functions.now context here.old (while_tree inner.now condition.now)) }
{
    let condition = ok!(check_expression(alloc, &here.scope, condition));
    let body = check_inner(alloc, functions, looping(context), here, inner);
    let (condition, body) = ok!(beside(condition.term, body));
    let (condition, behind) = ok!(beside(condition, nothing(alloc)));
    Ok(Action::Loop(condition, body, behind))
}

/// `do`, whose condition stands outside of its body's scope (C99 6.8.5), in this context.
#[cycle(statements)]
#[tactic(auto, using(c_checker_rules::proofs::Firsts::tells_front, c_checker_rules::proofs::Firsts::tells_behind))]
fn check_do(
    alloc: Global,
    functions: &Functions,
    context: Context,
    here: &mut Here,
    inner: &Statement,
    condition: &Expression,
) -> Result<Action, CheckError>
    requires { context.depth + statement_height (statement_tree inner.now) ≤ 1000 }
    ensures ok { OnOk result (S.statement_faults functions.now context here.old (do_tree inner.now condition.now) ≡ []) }
    ensures action { IfOk result (StandsFor functions.now context here.old (do_tree inner.now condition.now)) }
    ensures here { OnOk result (here.new ≡ S.after context.depth here.old (do_tree inner.now condition.now)) }
    ensures err { IfErr result (TellsOf functions.now context here.old (do_tree inner.now condition.now)) }
{
    let body = ok!(check_inner(alloc, functions, looping(context), here, inner));
    let condition = check_expression(alloc, &here.scope, condition);
    let (body, condition) = ok!(beside(body, condition));
    Ok(do_of(alloc, body, condition.term)?)
}

/// The statements of a block in this context. Its scope is deeper, and its names are forgotten behind it.
#[cycle(statements)]
#[tactic(auto, using(crate::proofs::Heights::block_low, crate::proofs::Leaving::statements_longer, crate::proofs::Leaving::statements_shortened))]
fn check_block(
    alloc: Global,
    functions: &Functions,
    context: Context,
    here: &mut Here,
    all: &[Statement],
) -> Result<Vec<Action>, CheckError>
    requires { context.depth + suc (statements_height (statements_tree all.now)) ≤ 1000 }
    ensures ok { OnOk result (faults_in_all functions.now (deeper context) here.old all.now ≡ []) }
    ensures actions { IfOk result (λ a. actions_tree a.items ≡ block_actions functions.now context here.old all.now) }
    ensures here { OnOk result (here.new ≡ left here.old (behind_all (deeper context) here.old all.now)) }
    ensures err { IfErr result (λ e. Tells e (faults_in_all functions.now (deeper context) here.old all.now)) }
{
    let mark = here.scope.len();
    let actions = ok!(check_statements(alloc, functions, deeper(context), here, all));
    leave(here, mark);
    Ok(actions)
}

/// A `for`, which has a scope of its own, in this context.
#[cycle(statements)]
#[tactic(auto, using(c_checker_rules::proofs::Firsts::tells_front, c_checker_rules::proofs::Firsts::tells_behind, crate::proofs::Leaving::for_longer, crate::proofs::Leaving::for_shortened, crate::proofs::Grouping::for_grouped))]
fn check_for(
    alloc: Global,
    functions: &Functions,
    context: Context,
    here: &mut Here,
    start: &ForStart,
    condition: &Option<Expression>,
    step: &Option<Set>,
    inner: &Statement,
) -> Result<Action, CheckError>
    requires { context.depth + statement_height (statement_tree inner.now) ≤ 1000 }
    ensures ok { OnOk result (NoneInFor functions.now context here.old start.now condition.now step.now inner.now) }
    ensures action { IfOk result (IsFor functions.now context here.old start.now condition.now step.now inner.now) }
    ensures here { OnOk result (here.new ≡ left here.old (behind_for context here.old start.now inner.now)) }
    ensures err { IfErr result (TellsOfFor functions.now context here.old start.now condition.now step.now inner.now) }
{
    let mark = here.scope.len();
    let heads = ok!(check_heads(alloc, context.depth, here, start, condition, step));
    let body = check_statement(alloc, functions, looping(context), here, inner);
    let (heads, body) = ok!(beside(heads, body));
    leave(here, mark);
    Ok(heads.around(alloc, body)?)
}

/// Statements one behind the other.
#[cycle(statements)]
#[tactic(auto, using(c_checker_rules::proofs::Firsts::tells_front, c_checker_rules::proofs::Firsts::tells_behind))]
pub fn check_statements(
    alloc: Global,
    functions: &Functions,
    context: Context,
    here: &mut Here,
    all: &[Statement],
) -> Result<Vec<Action>, CheckError>
    requires { context.depth + statements_height (statements_tree all.now) ≤ 1000 }
    ensures ok { OnOk result (faults_in_all functions.now context here.old all.now ≡ []) }
    ensures actions { IfOk result (λ a. actions_tree a.items ≡ actions_for functions.now context here.old all.now) }
    ensures here { OnOk result (here.new ≡ behind_all context here.old all.now) }
    ensures err { IfErr result (λ e. Tells e (faults_in_all functions.now context here.old all.now)) }
{
    let mut actions = Vec::new(alloc);
    for statement in all {
        actions.push(check_statement(alloc, functions, context, here, statement)?)?;
    }
    Ok(actions)
}
