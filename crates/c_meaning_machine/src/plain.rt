//! Actions that need no stack: they are done at once.

ghost use Rattle.std.specs.Prelude.{◌≡◌, IfSome, IfNone, take};
ghost use Rattle.c_meaning_machine.specs.AtOnce.{Ran, Assigned, Stored, Updated, Chooses, ChoosesNone, Comes, ComesCheaper, CostsNoMore, Enters, LeavesNoMore};
ghost use Rattle.c_program.specs.Views.{action_tree};

use crate::evaluation::{evaluate, operand};
use crate::operators::on_two;
use crate::scope::Scope;
use c_program::{Action, Target, Term, Value};
use ints::Op;

/// What some actions have come to, once those in front that only change variables are done.
#[derive(Clone, Copy)]
pub enum Front<'a> {
    /// One of them has gone wrong.
    Wrong,
    /// All are done.
    Done,
    /// This action needs the stack, and these stand behind it.
    Stays(&'a Action, &'a [Action]),
}

/// What a function's body has come to, once the actions in front that only change variables are done.
#[derive(Clone, Copy)]
pub enum Entered<'a> {
    /// One of them has gone wrong.
    Wrong,
    /// The function returns what this expression gives.
    Returns(&'a Term),
    /// These are left: the first of them needs the stack, or there is none.
    Stays(&'a [Action]),
}

/// Does the actions in front that only change variables, and chooses where an `if` stands.
#[inline(always)]
pub fn advance<'a>(scope: &mut Scope, actions: &'a [Action]) -> Front<'a>
    ensures meaning { Comes result actions.now scope.old scope.new }
    ensures cost { ComesCheaper result actions.now }
    ensures base { scope.new.base ≡ scope.old.base }
    ensures below { take scope.old.base scope.new.locals.items ≡ take scope.old.base scope.old.locals.items }
{
    let mut left = actions;
    while let [first, rest @ ..] = left {
        match chosen(scope, first) {
            None => return Front::Wrong,
            Some(action) => match at_once(scope, action) {
                Some(true) => left = rest,
                Some(false) => return Front::Wrong,
                None => return Front::Stays(action, rest),
            },
        }
    }
    Front::Done
}

/// The same at the beginning of a function's body. One that returns a word before it needs the stack never waits there.
#[inline(always)]
#[tactic(auto, using(crate::proofs::Stops::yields_back))]
pub fn enter<'a>(scope: &mut Scope, body: &'a [Action]) -> Entered<'a>
    ensures meaning { Enters result body.now scope.old scope.new }
    ensures cost { LeavesNoMore result body.now }
    ensures base { scope.new.base ≡ scope.old.base }
    ensures below { take scope.old.base scope.new.locals.items ≡ take scope.old.base scope.old.locals.items }
{
    let mut left = body;
    while let [first, rest @ ..] = left {
        match chosen(scope, first) {
            None => return Entered::Wrong,
            Some(Action::Give(Target::Caller, Value::Term(term))) => return Entered::Returns(term),
            Some(action) => match at_once(scope, action) {
                Some(true) => left = rest,
                Some(false) => return Entered::Wrong,
                None => return Entered::Stays(left),
            },
        }
    }
    Entered::Stays(left)
}

/// What an action chooses, while it is an `if`: none where a condition goes wrong.
#[inline(always)]
fn chosen<'a>(scope: &Scope, action: &'a Action) -> Option<&'a Action>
    ensures some { IfSome result (λ chosen. Chooses action.now scope.now chosen.now) }
    ensures none { IfNone result (ChoosesNone action.now scope.now) }
    ensures cost { IfSome result (λ chosen. CostsNoMore action.now chosen.now) }
{
    let mut found = action;
    while let Action::If(condition, then, other) = found {
        let word = evaluate(condition, scope)?;
        if word == 0 {
            found = other;
        } else {
            found = then;
        }
    }
    Some(found)
}

/// Does an action at once, if it only changes variables: then whether it does not go wrong.
#[inline(always)]
fn at_once(scope: &mut Scope, action: &Action) -> Option<bool>
    ensures ran { Ran result (action_tree action.now) scope.old scope.new }
    ensures base { scope.new.base ≡ scope.old.base }
    ensures below { take scope.old.base scope.new.locals.items ≡ take scope.old.base scope.old.locals.items }
{
    match action {
        Action::Nothing => Some(true),
        Action::Declare(number) => {
            scope.set_local(*number, None);
            Some(true)
        }
        Action::Give(Target::Local(number), Value::Term(term)) => Some(assign(
            scope, *number, term,
        )),
        Action::Store(global, index, value) => Some(store(scope, *global, index, value)),
        Action::Update(global, index, op, value) => Some(update(scope, *global, index, *op, value)),
        _ => None,
    }
}

/// A local becomes what an expression gives: whether it gives something.
#[inline(always)]
fn assign(scope: &mut Scope, number: usize, term: &Term) -> bool
    ensures ran { Assigned result number term.now scope.old scope.new }
    ensures base { scope.new.base ≡ scope.old.base }
    ensures below { take scope.old.base scope.new.locals.items ≡ take scope.old.base scope.old.locals.items }
{
    match evaluate(term, scope) {
        Some(word) => {
            scope.set_local(number, Some(word));
            true
        }
        None => false,
    }
}

/// A cell becomes what an expression gives: whether both are there.
#[inline(always)]
fn store(scope: &mut Scope, global: usize, index: &Term, value: &Term) -> bool
    ensures ran { Stored result global index.now value.now scope.old scope.new }
    ensures base { scope.new.base ≡ scope.old.base }
    ensures below { take scope.old.base scope.new.locals.items ≡ take scope.old.base scope.old.locals.items }
{
    let Some(index) = operand(index, scope) else {
        return false;
    };
    let Some(word) = operand(value, scope) else {
        return false;
    };
    scope.set_cell(global, index, word)
}

/// A cell becomes what an operator gives of its word and of what an expression gives: whether all are there
/// (C99 6.5.16.2).
#[inline(never)]
pub fn update(scope: &mut Scope, global: usize, index: &Term, op: Op, value: &Term) -> bool
    ensures ran { Updated result global index.now op value.now scope.old scope.new }
    ensures base { scope.new.base ≡ scope.old.base }
    ensures below { take scope.old.base scope.new.locals.items ≡ take scope.old.base scope.old.locals.items }
{
    let Some(index) = operand(index, scope) else {
        return false;
    };
    let Some(other) = operand(value, scope) else {
        return false;
    };
    let Some(held) = scope.cell(global, index) else {
        return false;
    };
    let Some(word) = on_two(op, held, other) else {
        return false;
    };
    scope.set_cell(global, index, word)
}
