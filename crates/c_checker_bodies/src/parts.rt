//! The parts of statements that hold no statement (C99 6.8).

ghost use Rattle.std.specs.Prelude.{◌≡◌, [], false, OnOk, IfOk, IfErr};
ghost use Rattle.c_syntax.specs.Views.{call_tree, local_tree, start_tree};
ghost use Rattle.c_program.specs.Views.{term_tree, action_tree};
ghost use Rattle.c_checker_rules.specs.Told.{unless, Tells};
ghost use Rattle.c_checker_rules.specs.Names as N;
ghost use Rattle.c_checker_rules.specs.Expressions.{variable_faults};
ghost use Rattle.c_checker_rules.specs.Calls.{call_faults};
ghost use Rattle.c_checker_rules.specs.Locals.{with_local};
ghost use Rattle.c_checker_rules.specs.Statements as S;
ghost use Rattle.c_checker_rules.specs.Actions as A;
ghost use Rattle.c_checker_rules.specs.declared.errors.CheckError.TheVariants.{StrayBreak};
ghost use Rattle.c_checker_bodies.specs.Sources.{call_action, assignment_faults, assignment_action, store_faults, store_action, given_local, local_action, local_start, IsStart, condition_faults, condition_term, step_faults, step_tree, return_faults, return_action};

use crate::changes::check_set;
use crate::here::Here;
use crate::locals::declare_local;
use c_checker_rules::{CheckError, Meaning};
use c_checker_scopes::Scopes;
use c_checker_terms::{
    Functions, Typed, array, check_call, check_expression, check_value, meaning_of,
};
use c_program::{Action, Target, Term, Value};
use c_syntax::{Call, Expression, ForStart, Identifier, IntegerType, Local, ReturnType, Set};
use lang_base::NoMemory;
use lang_helpers::{beside, ok, pair};
use std::alloc::Global;

/// One action and then another.
#[tactic(auto, using(c_program::proofs::Sequences::view_sequence))]
pub(crate) fn two(alloc: Global, first: Action, second: Action) -> Result<Action, NoMemory>
    ensures { IfOk result (λ a. action_tree a ≡ A.two (action_tree first) (action_tree second)) }
{
    Ok(Action::Sequence(pair(alloc, first, second)?))
}

/// A local is declared, and then a value goes to it.
fn declared_as(alloc: Global, number: usize, value: Value) -> Result<Action, NoMemory>
    ensures { IfOk result (λ a. action_tree a ≡ given_local number value) }
{
    let given = Action::Give(Target::Local(number), value);
    two(alloc, Action::Declare(number), given)
}

/// A variable without size to which a value may be given.
pub(crate) fn check_target(scope: &Scopes<Meaning>, name: &Identifier) -> Result<Target, CheckError>
    ensures ok { IfOk result (λ t. variable_faults (N.meaning_of scope.now name.now) name.now.offset ≡ []) }
    ensures target { IfOk result (λ t. t ≡ A.target_of (N.meaning_of scope.now name.now)) }
    ensures err { IfErr result (λ e. Tells e (variable_faults (N.meaning_of scope.now name.now) name.now.offset)) }
{
    match meaning_of(scope, name) {
        Some(Meaning::Local(number, _kind)) => Ok(Target::Local(number)),
        Some(Meaning::Variable(number, _kind)) => Ok(Target::Global(number)),
        Some(Meaning::Array(_number, _kind)) => Err(CheckError::ArrayUse(name.offset)),
        Some(Meaning::Function(_number)) => Err(CheckError::Undeclared(name.offset)),
        None => Err(CheckError::Undeclared(name.offset)),
    }
}

/// A call whose value is dropped.
pub(crate) fn check_call_alone(
    alloc: Global,
    functions: &Functions,
    scope: &Scopes<Meaning>,
    call: &Call,
) -> Result<Action, CheckError>
    ensures ok { OnOk result (call_faults functions.now scope.now false (call_tree call.now) ≡ []) }
    ensures action { IfOk result (λ a. action_tree a ≡ call_action functions.now scope.now call.now) }
    ensures err { IfErr result (λ e. Tells e (call_faults functions.now scope.now false (call_tree call.now))) }
{
    let value = ok!(check_call(alloc, functions, scope, false, call));
    Ok(Action::Give(Target::Nowhere, value))
}

/// A name becomes a value.
#[tactic(auto, using(c_checker_rules::proofs::Firsts::tells_front, c_checker_rules::proofs::Firsts::tells_behind))]
pub(crate) fn check_assignment(
    alloc: Global,
    functions: &Functions,
    scope: &Scopes<Meaning>,
    name: &Identifier,
    value: &c_syntax::Value,
) -> Result<Action, CheckError>
    ensures ok { OnOk result (assignment_faults functions.now scope.now name.now value.now ≡ []) }
    ensures action { IfOk result (λ a. action_tree a ≡ assignment_action functions.now scope.now name.now value.now) }
    ensures err { IfErr result (λ e. Tells e (assignment_faults functions.now scope.now name.now value.now)) }
{
    let target = ok!(check_target(scope, name));
    let value = ok!(check_value(alloc, functions, scope, value));
    Ok(Action::Give(target, value))
}

/// A cell becomes a value.
#[tactic(auto, using(c_checker_rules::proofs::Firsts::tells_front, c_checker_rules::proofs::Firsts::tells_behind))]
pub(crate) fn check_store(
    alloc: Global,
    scope: &Scopes<Meaning>,
    name: &Identifier,
    index: &Expression,
    value: &Expression,
) -> Result<Action, CheckError>
    ensures ok { OnOk result (store_faults scope.now name.now index.now value.now ≡ []) }
    ensures action { IfOk result (λ a. action_tree a ≡ store_action scope.now name.now index.now value.now) }
    ensures err { IfErr result (λ e. Tells e (store_faults scope.now name.now index.now value.now)) }
{
    let (number, _kind) = ok!(array(scope, name));
    let Typed { term: cell, .. } = ok!(check_expression(alloc, scope, index));
    let (cell, value) = ok!(beside(cell, check_expression(alloc, scope, value)));
    Ok(Action::Store(number, cell, value.term))
}

/// The declaration of a local, with its value if it has one.
#[tactic(auto, using(c_checker_rules::proofs::Firsts::tells_front, c_checker_rules::proofs::Firsts::tells_behind))]
pub(crate) fn check_declaration(
    alloc: Global,
    functions: &Functions,
    depth: u32,
    here: &mut Here,
    local: &Local,
) -> Result<Action, CheckError>
    ensures ok { OnOk result (S.declaration_faults functions.now depth here.old (local_tree local.now) ≡ []) }
    ensures action { IfOk result (λ a. action_tree a ≡ local_action functions.now depth here.old local.now) }
    ensures here { OnOk result (here.new ≡ with_local depth here.old local.now.kind local.now.name) }
    ensures err { IfErr result (λ e. Tells e (S.declaration_faults functions.now depth here.old (local_tree local.now))) }
{
    let number = ok!(declare_local(depth, here, local.kind, &local.name));
    match &local.value {
        None => Ok(Action::Declare(number)),
        Some(value) => {
            let value = ok!(check_value(alloc, functions, &here.scope, value));
            Ok(declared_as(alloc, number, value)?)
        }
    }
}

/// A `for` begins with the declaration of a local.
#[tactic(auto, using(c_checker_rules::proofs::Firsts::tells_front, c_checker_rules::proofs::Firsts::tells_behind))]
fn check_local_start(
    alloc: Global,
    depth: u32,
    here: &mut Here,
    kind: IntegerType,
    name: &Identifier,
    value: &Expression,
) -> Result<Action, CheckError>
    ensures ok { OnOk result (S.start_faults depth here.old (local_start kind name.now value.now) ≡ []) }
    ensures action { IfOk result (IsStart depth here.old (local_start kind name.now value.now)) }
    ensures here { OnOk result (here.new ≡ S.with_start depth here.old (local_start kind name.now value.now)) }
    ensures err { IfErr result (λ e. Tells e (S.start_faults depth here.old (local_start kind name.now value.now))) }
{
    let number = ok!(declare_local(depth, here, kind, name));
    let Typed { term, .. } = ok!(check_expression(alloc, &here.scope, value));
    Ok(declared_as(alloc, number, Value::Term(term))?)
}

/// How a `for` begins.
pub(crate) fn check_start(
    alloc: Global,
    depth: u32,
    here: &mut Here,
    start: &ForStart,
) -> Result<Action, CheckError>
    ensures ok { OnOk result (S.start_faults depth here.old (start_tree start.now) ≡ []) }
    ensures action { IfOk result (λ a. action_tree a ≡ A.start_action depth here.old (start_tree start.now)) }
    ensures here { OnOk result (here.new ≡ S.with_start depth here.old (start_tree start.now)) }
    ensures err { IfErr result (λ e. Tells e (S.start_faults depth here.old (start_tree start.now))) }
{
    match start {
        ForStart::Nothing => Ok(Action::Nothing),
        ForStart::Set(set) => check_set(alloc, &here.scope, set),
        ForStart::Local(kind, name, value) => {
            check_local_start(alloc, depth, here, *kind, name, value)
        }
    }
}

/// The condition of a `for`; where there is none it goes on.
pub(crate) fn check_condition(
    alloc: Global,
    scope: &Scopes<Meaning>,
    condition: &Option<Expression>,
) -> Result<Term, CheckError>
    ensures ok { OnOk result (condition_faults scope.now condition.now ≡ []) }
    ensures term { IfOk result (λ t. term_tree t ≡ condition_term scope.now condition.now) }
    ensures err { IfErr result (λ e. Tells e (condition_faults scope.now condition.now)) }
{
    match condition {
        None => Ok(Term::Constant(1)),
        Some(condition) => {
            let Typed { term, .. } = ok!(check_expression(alloc, scope, condition));
            Ok(term)
        }
    }
}

/// What a `for` does behind each turn.
pub(crate) fn check_step(
    alloc: Global,
    scope: &Scopes<Meaning>,
    step: &Option<Set>,
) -> Result<Action, CheckError>
    ensures ok { OnOk result (step_faults scope.now step.now ≡ []) }
    ensures action { IfOk result (λ a. action_tree a ≡ step_tree scope.now step.now) }
    ensures err { IfErr result (λ e. Tells e (step_faults scope.now step.now)) }
{
    match step {
        None => Ok(Action::Nothing),
        Some(set) => check_set(alloc, scope, set),
    }
}

/// `break` or `continue`, which stands at this offset.
pub(crate) fn in_loop<A: Drop>(in_loop: bool, at: usize, action: A) -> Result<A, CheckError>
    ensures ok { OnOk result (unless in_loop (StrayBreak at) ≡ []) }
    ensures action { IfOk result (λ a. a ≡ action) }
    ensures err { IfErr result (λ e. Tells e (unless in_loop (StrayBreak at))) }
{
    if !in_loop {
        return Err(CheckError::StrayBreak(at));
    }
    Ok(action)
}

/// `return`, which stands at this offset.
#[tactic(auto, using(c_checker_rules::proofs::Firsts::tells_front, c_checker_rules::proofs::Firsts::tells_behind))]
pub(crate) fn check_return(
    alloc: Global,
    functions: &Functions,
    scope: &Scopes<Meaning>,
    gives: ReturnType,
    at: usize,
    value: &Option<c_syntax::Value>,
) -> Result<Action, CheckError>
    ensures ok { OnOk result (return_faults functions.now scope.now gives at value.now ≡ []) }
    ensures action { IfOk result (λ a. action_tree a ≡ return_action functions.now scope.now value.now) }
    ensures err { IfErr result (λ e. Tells e (return_faults functions.now scope.now gives at value.now)) }
{
    match (gives, value) {
        (ReturnType::Void, None) => Ok(Action::Leave),
        (ReturnType::Value(_kind), Some(value)) => {
            let value = ok!(check_value(alloc, functions, scope, value));
            Ok(Action::Give(Target::Caller, value))
        }
        (ReturnType::Void, Some(_value)) => Err(CheckError::VoidValue(at)),
        (ReturnType::Value(_kind), None) => Err(CheckError::VoidValue(at)),
    }
}
