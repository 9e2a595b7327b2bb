//! What is set and changed: what a `for` sets, compound assignments, `++` and `--` (C99 6.5.16, 6.5.2.4 and 6.5.3.1).

ghost use Rattle.std.specs.Prelude.{◌≡◌, [], OnOk, IfOk, IfErr};
ghost use Rattle.c_syntax.specs.Views.{change_tree, set_tree};
ghost use Rattle.c_program.specs.Views.{action_tree};
ghost use Rattle.c_checker_rules.specs.Told.{Tells};
ghost use Rattle.c_checker_rules.specs.Statements as S;
ghost use Rattle.c_checker_rules.specs.Actions as A;
ghost use Rattle.c_checker_bodies.specs.Changes.{becomes, name_changed, cell_changed, IsChange, TellsOfChange};

use crate::parts::{check_store, check_target};
use c_checker_rules::{CheckError, Meaning};
use c_checker_scopes::Scopes;
use c_checker_terms::{Typed, array, change_operator, changed, check_expression, variable};
use c_program::{Action, Value};
use c_syntax::{AssignOperator, Change, Expression, Identifier, Lvalue, Set};
use lang_helpers::{beside, ok};
use std::alloc::Global;

/// A name is changed.
#[tactic(auto, using(c_checker_rules::proofs::Firsts::tells_front, c_checker_rules::proofs::Firsts::tells_behind))]
fn check_name_changed(
    alloc: Global,
    scope: &Scopes<Meaning>,
    name: &Identifier,
    operator: AssignOperator,
    value: &Expression,
) -> Result<Action, CheckError>
    ensures ok { OnOk result (S.change_faults scope.now (name_changed name.now operator value.now) ≡ []) }
    ensures action { IfOk result (IsChange scope.now (name_changed name.now operator value.now)) }
    ensures err { IfErr result (TellsOfChange scope.now (name_changed name.now operator value.now)) }
{
    let target = ok!(check_target(scope, name));
    let left = ok!(variable(alloc, scope, name));
    let (left, right) = ok!(beside(left, check_expression(alloc, scope, value)));
    let term = changed(alloc, operator, left, right)?;
    Ok(Action::Give(target, Value::Term(term)))
}

/// A cell is changed. Its index is evaluated once.
#[tactic(auto, using(c_checker_rules::proofs::Firsts::tells_front, c_checker_rules::proofs::Firsts::tells_behind))]
fn check_cell_changed(
    alloc: Global,
    scope: &Scopes<Meaning>,
    name: &Identifier,
    index: &Expression,
    operator: AssignOperator,
    value: &Expression,
) -> Result<Action, CheckError>
    ensures ok { OnOk result (S.change_faults scope.now (cell_changed name.now index.now operator value.now) ≡ []) }
    ensures action { IfOk result (IsChange scope.now (cell_changed name.now index.now operator value.now)) }
    ensures err { IfErr result (TellsOfChange scope.now (cell_changed name.now index.now operator value.now)) }
{
    let (number, kind) = ok!(array(scope, name));
    let Typed { term: cell, .. } = ok!(check_expression(alloc, scope, index));
    let (cell, value) = ok!(beside(cell, check_expression(alloc, scope, value)));
    let chosen = change_operator(operator, kind, value.kind);
    Ok(Action::Update(number, cell, chosen, value.term))
}

/// A name or a cell is changed.
pub(crate) fn check_change(
    alloc: Global,
    scope: &Scopes<Meaning>,
    change: &Change,
) -> Result<Action, CheckError>
    ensures ok { OnOk result (S.change_faults scope.now (change_tree change.now) ≡ []) }
    ensures action { IfOk result (IsChange scope.now (change_tree change.now)) }
    ensures err { IfErr result (TellsOfChange scope.now (change_tree change.now)) }
{
    let operator = change.operator;
    match &change.lvalue {
        Lvalue::Variable(name) => check_name_changed(alloc, scope, name, operator, &change.value),
        Lvalue::Element(name, index) => {
            check_cell_changed(alloc, scope, name, index, operator, &change.value)
        }
    }
}

/// A name or a cell becomes a value.
#[tactic(auto, using(c_checker_rules::proofs::Firsts::tells_front, c_checker_rules::proofs::Firsts::tells_behind))]
fn check_becomes(
    alloc: Global,
    scope: &Scopes<Meaning>,
    lvalue: &Lvalue,
    value: &Expression,
) -> Result<Action, CheckError>
    ensures ok { OnOk result (S.set_faults scope.now (becomes lvalue.now value.now) ≡ []) }
    ensures action { IfOk result (λ a. action_tree a ≡ A.set_action scope.now (becomes lvalue.now value.now)) }
    ensures err { IfErr result (λ e. Tells e (S.set_faults scope.now (becomes lvalue.now value.now))) }
{
    match lvalue {
        Lvalue::Variable(name) => {
            let target = ok!(check_target(scope, name));
            let Typed { term, .. } = ok!(check_expression(alloc, scope, value));
            Ok(Action::Give(target, Value::Term(term)))
        }
        Lvalue::Element(name, index) => check_store(alloc, scope, name, index, value),
    }
}

/// What a `for` sets.
pub(crate) fn check_set(
    alloc: Global,
    scope: &Scopes<Meaning>,
    set: &Set,
) -> Result<Action, CheckError>
    ensures ok { OnOk result (S.set_faults scope.now (set_tree set.now) ≡ []) }
    ensures action { IfOk result (λ a. action_tree a ≡ A.set_action scope.now (set_tree set.now)) }
    ensures err { IfErr result (λ e. Tells e (S.set_faults scope.now (set_tree set.now))) }
{
    match set {
        Set::Becomes(lvalue, value) => check_becomes(alloc, scope, lvalue, value),
        Set::Changes(change) => check_change(alloc, scope, change),
    }
}
