//! Functions.

ghost use Rattle.std.specs.Prelude.{◌≡◌, All, IfOk, map};
ghost use Rattle.c_program.specs.Views.{action_tree, actions_tree, function_tree};
ghost use Rattle.cminor_syntax.specs.Fits.{IsFunction, StatementFits};
ghost use Rattle.cminor_syntax.specs.Views.{statements_tree};
ghost use Rattle.cminor_lowering.specs.Actions.{low_action};
ghost use Rattle.cminor_lowering.specs.Programs.{ends_with_return, is_return, low_function, low_named};
ghost use Rattle.cminor.specs.Bodies.{body_of, ending_of, zero_or_nothing};

use crate::lower_actions;
use crate::sequences::sequence_of;
use c_program::{Action, Ending, Function as CFunction, Target};
use cminor_language::Function;
use cminor_syntax::{Expression, Statement};
use lang_base::{Named, NoMemory, Row};
use std::alloc::Global;

/// Whether this is a `return` of a value.
fn is_return(action: &Action) -> bool
    ensures { result ≡ is_return (action_tree action.now) }
{
    match action {
        Action::Give(target, _value) => *target == Target::Caller,
        _ => false,
    }
}

/// Whether the last of these is a `return` of a value.
fn ends_with_return(actions: &[Action]) -> bool
    ensures { result ≡ ends_with_return (actions_tree actions.now) }
{
    match actions.last() {
        Some(action) => is_return(action),
        None => false,
    }
}

/// Whether 0 is returned where the end of the body is reached.
fn returns_zero(function: &CFunction) -> bool
    ensures { ending_of (function_tree function.now) ≡ zero_or_nothing result }
{
    match function.ending {
        Ending::ReturnsZero => !ends_with_return(function.body.as_slice()),
        Ending::Returns | Ending::GoesWrong => false,
    }
}

/// What a function does, in order, also where the end of its body is reached.
fn lower_body(alloc: Global, spare: u16, function: &CFunction) -> Result<Vec<Statement>, NoMemory>
    requires { All (λ a. StatementFits 65536 (low_action spare (action_tree a))) function.now.body }
    ensures { IfOk result (λ ss. statements_tree ss.items ≡ body_of spare (function_tree function.now)) }
{
    let mut body = lower_actions(alloc, spare, function.body.as_slice())?;
    if returns_zero(function) {
        body.push(Statement::Return(Some(Expression::Constant(0))))?;
    }
    Ok(body)
}

/// A function. It has one variable more than parameters and locals: the spare one.
fn lower_function(alloc: Global, function: &CFunction) -> Result<Function, NoMemory>
    requires { IsFunction (low_function (function_tree function.now)) }
    ensures { IfOk result (λ f. f ≡ low_function (function_tree function.now)) }
{
    let spare = function.parameters.max(function.locals) as u16;
    let body = sequence_of(alloc, lower_body(alloc, spare, function)?)?;
    Ok(Function::new(function.parameters as u8, spare + 1, body))
}

/// A function and its name.
fn lower_named(alloc: Global, function: &CFunction) -> Result<Named<Function>, NoMemory>
    requires { IsFunction (low_function (function_tree function.now)) }
    ensures { IfOk result (λ f. f ≡ low_named (function_tree function.now)) }
{
    let name = Row::from_vec(Vec::from_slice(alloc, function.name.as_slice())?);
    let function = lower_function(alloc, function)?;
    Ok(Named { name, function })
}

/// The functions of a program, in order.
pub(crate) fn lower_functions(
    alloc: Global,
    functions: &[CFunction],
) -> Result<Row<Named<Function>>, NoMemory>
    requires { All (λ f. IsFunction (low_function (function_tree f))) functions.now }
    ensures { IfOk result (λ fs. fs ≡ map low_named (map function_tree functions.now)) }
{
    let mut lowered = Vec::new(alloc);
    for function in functions {
        lowered.push(lower_named(alloc, function)?)?;
    }
    Ok(Row::from_vec(lowered))
}
