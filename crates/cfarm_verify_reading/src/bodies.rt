//! What a function does, in order, also where the end of its body is reached.

ghost use Rattle.std.specs.Prelude.{◌≡◌, All, IfOk, nat_le};
ghost use Rattle.c_program.specs.Views.{action_tree, actions_tree, function_tree};
ghost use Rattle.cminor_syntax.specs.Fits.{StatementFits, statement_count};
ghost use Rattle.cminor_syntax.specs.Views.{statement_tree, statements_tree};
ghost use Rattle.cminor_lowering.specs.Actions.{low_action};
ghost use Rattle.cminor_lowering.specs.Programs.{ends_with_return, is_return};
ghost use Rattle.cminor_lowering.specs.Sequences as lowering;
ghost use Rattle.cminor.specs.Bodies.{body_of, ending_of, zero_or_nothing};

use crate::parts::lower_many;
use c_program::{Action, Ending, Function, Target};
use cminor_codec::sequence;
use cminor_syntax::{Expression, Statement};
use lang_base::NoMemory;
use std::alloc::Global;
use std::thread::Threads;

/// Whether this is a `return` of a value.
fn is_return(action: &Action) -> bool
    ensures { result ≡ is_return (action_tree action.now) }
{
    match action {
        Action::Give(target, _value) => *target == Target::Caller,
        _ => false,
    }
}

/// Whether the last of these is a `return` of a value.
fn ends_with_return(actions: &[Action]) -> bool
    ensures { result ≡ ends_with_return (actions_tree actions.now) }
{
    match actions.last() {
        Some(action) => is_return(action),
        None => false,
    }
}

/// Whether 0 is returned where the end of the body is reached.
fn returns_zero(function: &Function) -> bool
    ensures { ending_of (function_tree function.now) ≡ zero_or_nothing result }
{
    match function.ending {
        Ending::ReturnsZero => !ends_with_return(function.body.as_slice()),
        Ending::Returns | Ending::GoesWrong => false,
    }
}

/// The statements of a body.
pub(crate) fn lower_body<R: Threads + Sync>(
    rt: &R,
    alloc: Global,
    spare: u16,
    function: &Function,
) -> Result<Vec<Statement>, NoMemory>
    requires fit { All (λ a. StatementFits 65536 (low_action spare (action_tree a))) function.now.body }
    ensures { IfOk result (λ ss. statements_tree ss.items ≡ body_of spare (function_tree function.now)) }
{
    let mut body = lower_many(rt, alloc, spare, function.body.as_slice())?;
    if returns_zero(function) {
        body.push(Statement::Return(Some(Expression::Constant(0))))?;
    }
    Ok(body)
}

/// Whether so few statements need not be cut.
#[tactic(auto, using(crate::proofs::Few::counted))]
fn are_few(statements: &[Statement]) -> bool
    ensures { result ≡ nat_le (statement_count (statements_tree statements.now)) lowering.most_statements }
{
    statements.len() <= 4_294_967_295
}

/// The sequence of statements. More than a sequence may have, which no memory holds, are refused.
pub(crate) fn sequence_of(statements: Vec<Statement>) -> Result<Statement, NoMemory>
    ensures { IfOk result (λ s. statement_tree s ≡ lowering.sequence (statements_tree statements.items)) }
{
    if !are_few(statements.as_slice()) {
        return Err(NoMemory);
    }
    Ok(sequence(statements))
}
