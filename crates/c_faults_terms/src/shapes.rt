//! The parts of an action, which stands for a statement.

ghost use Rattle.std.specs.Prelude.{◌≡◌, map};
ghost use Rattle.c_program.specs.Views.{term_tree, given_tree, action_tree, actions_tree};
ghost use Rattle.c_syntax.specs.Views.{optional_tree};
ghost use Rattle.c_faults_terms.specs.Shapes.{given_of, plain_of, arguments_of, index_of, stored_of, condition_of, all_of, first_of, second_of, then_of, else_of};

use c_program::{Action, Term, Value};
use std::slice;

/// What is given.
pub fn given_of(action: &Action) -> Option<&Value>
    ensures { optional_tree (λ v. given_tree v.now) result ≡ given_of (action_tree action.now) }
{
    match action {
        Action::Give(_, value) => Some(value),
        _ => None,
    }
}

/// The term of what is given, but of a call.
pub fn plain_of(value: &Value) -> Option<&Term>
    ensures { optional_tree (λ e. term_tree e.now) result ≡ plain_of (given_tree value.now) }
{
    match value {
        Value::Term(term) | Value::Put(term) => Some(term),
        Value::Call(_) => None,
    }
}

/// The arguments of a call.
pub fn arguments_of(value: &Value) -> &[Term]
    ensures { map term_tree result.now ≡ arguments_of (given_tree value.now) }
{
    match value {
        Value::Term(_) => &[],
        Value::Put(term) => slice::from_ref(term),
        Value::Call(called) => called.arguments.as_slice(),
    }
}

/// The index of a change of a cell.
pub fn index_of(action: &Action) -> Option<&Term>
    ensures { optional_tree (λ e. term_tree e.now) result ≡ index_of (action_tree action.now) }
{
    match action {
        Action::Store(_, index, _) | Action::Update(_, index, _, _) => Some(index),
        _ => None,
    }
}

/// What is stored, added or given.
pub fn stored_of(action: &Action) -> Option<&Term>
    ensures { optional_tree (λ e. term_tree e.now) result ≡ stored_of (action_tree action.now) }
{
    match action {
        Action::Store(_, _, value) | Action::Update(_, _, _, value) => Some(value),
        Action::Give(_, value) => plain_of(value),
        _ => None,
    }
}

/// The condition of an `if` or of a loop.
pub fn condition_of(action: &Action) -> Option<&Term>
    ensures { optional_tree (λ e. term_tree e.now) result ≡ condition_of (action_tree action.now) }
{
    match action {
        Action::If(condition, _, _) | Action::Loop(condition, _, _) => Some(condition),
        _ => None,
    }
}

/// The actions of a sequence.
#[tactic(auto, using(c_program::proofs::Sequences::view_sequence))]
pub fn all_of(action: &Action) -> &[Action]
    ensures { actions_tree result.now ≡ all_of (action_tree action.now) }
{
    match action {
        Action::Sequence(all) => all.as_slice(),
        _ => &[],
    }
}

fn first_of(actions: &[Action]) -> Option<&Action>
    ensures { optional_tree (λ a. action_tree a.now) result ≡ first_of (actions_tree actions.now) }
{
    match actions {
        [first, ..] => Some(first),
        [] => None,
    }
}

fn second_of(actions: &[Action]) -> Option<&Action>
    ensures { optional_tree (λ a. action_tree a.now) result ≡ second_of (actions_tree actions.now) }
{
    match actions {
        [_, rest @ ..] => first_of(rest),
        [] => None,
    }
}

/// The first of the two actions of an `if`, of a loop or of a sequence of two.
#[tactic(auto, using(c_program::proofs::Sequences::view_sequence))]
pub fn then_of(action: &Action) -> Option<&Action>
    ensures { optional_tree (λ a. action_tree a.now) result ≡ then_of (action_tree action.now) }
{
    match action {
        Action::If(_, then, _) | Action::Loop(_, then, _) => Some(then),
        Action::Sequence(all) => first_of(all.as_slice()),
        _ => None,
    }
}

/// The second of them.
#[tactic(auto, using(c_program::proofs::Sequences::view_sequence))]
pub fn else_of(action: &Action) -> Option<&Action>
    ensures { optional_tree (λ a. action_tree a.now) result ≡ else_of (action_tree action.now) }
{
    match action {
        Action::If(_, _, other) | Action::Loop(_, _, other) => Some(other),
        Action::Sequence(all) => second_of(all.as_slice()),
        _ => None,
    }
}
