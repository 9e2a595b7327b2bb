//! The places of parts: each tree's own first, then those of its parts.

ghost use Rattle.std.specs.Prelude.{◌≡◌, map};
ghost use Rattle.c_program.specs.Views.{term_tree, given_tree, action_tree, actions_tree};
ghost use Rattle.c_faults.specs.Places.{own, others, behind, behind_terms, behind_given, behind_action, behind_actions};

use c_program::{Action, Term, Value};

/// The place that stands first: 0 where there is none.
pub fn own(places: &[usize]) -> usize
    ensures { result ≡ own places.now }
{
    match places {
        [first, ..] => *first,
        [] => 0,
    }
}

/// The places behind the first.
pub fn others(places: &[usize]) -> &[usize]
    ensures { result.now ≡ others places.now }
{
    match places {
        [_, rest @ ..] => rest,
        [] => places,
    }
}

/// The places behind those of a term. What calls itself does so at most as often as the term is high.
pub fn behind<'a>(term: &Term, places: &'a [usize]) -> &'a [usize]
    ensures { result.now ≡ behind (term_tree term.now) places.now }
{
    let parts = others(places);
    match term {
        Term::Constant(_) | Term::Local(_) => parts,
        Term::Cell(_, part) | Term::Unary(_, part) => behind(part, parts),
        Term::Binary(_, first, second) | Term::Both(first, second) | Term::Either(first, second) =>
            behind(second, behind(first, parts)),
        Term::Conditional(condition, then, other) => {
            behind(other, behind(then, behind(condition, parts)))
        }
    }
}

/// The places behind those of some terms.
pub fn behind_terms<'a>(terms: &[Term], places: &'a [usize]) -> &'a [usize]
    ensures { result.now ≡ behind_terms (map term_tree terms.now) places.now }
{
    let mut left = terms;
    let mut rest = places;
    while let [first, more @ ..] = left {
        rest = behind(first, rest);
        left = more;
    }
    rest
}

/// The places behind those of what gives a value.
fn behind_given<'a>(value: &Value, places: &'a [usize]) -> &'a [usize]
    ensures { result.now ≡ behind_given (given_tree value.now) places.now }
{
    match value {
        Value::Term(term) | Value::Put(term) => behind(term, places),
        Value::Call(called) => behind_terms(called.arguments.as_slice(), places),
    }
}

/// The places behind those of an action. What calls itself does so at most as often as the action is high.
#[cycle(walking)]
#[tactic(auto, using(c_program::proofs::Sequences::view_sequence))]
pub fn behind_action<'a>(action: &Action, places: &'a [usize]) -> &'a [usize]
    ensures { result.now ≡ behind_action (action_tree action.now) places.now }
{
    let parts = others(places);
    match action {
        Action::Nothing | Action::Declare(_) | Action::Break | Action::Continue | Action::Leave => {
            parts
        }
        Action::Sequence(all) => behind_actions(all.as_slice(), parts),
        Action::Give(_, value) => behind_given(value, parts),
        Action::Store(_, index, value) => behind(value, behind(index, parts)),
        Action::Update(_, index, _, value) => behind(value, behind(index, others(parts))),
        Action::If(condition, then, other) => {
            behind_action(other, behind_action(then, behind(condition, parts)))
        }
        Action::Loop(condition, body, last) => {
            behind_action(last, behind_action(body, behind(condition, parts)))
        }
    }
}

/// The places behind those of some actions.
#[cycle(walking)]
#[tactic(auto, using(crate::proofs::Lists::behind_one))]
pub fn behind_actions<'a>(actions: &[Action], places: &'a [usize]) -> &'a [usize]
    ensures { result.now ≡ behind_actions (actions_tree actions.now) places.now }
{
    let mut rest = places;
    for action in actions {
        rest = behind_action(action, rest);
    }
    rest
}
