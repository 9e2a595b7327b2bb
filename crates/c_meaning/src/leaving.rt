//! What is done where a statement leaves: the stack is searched for what goes on.

ghost use Rattle.std.specs.Prelude.{◌≡◌, ◌+◌, ◌≤◌, IfOk, IfSome, IfNone};
ghost use Rattle.c_program.specs.Meaning.{Breaks, Continues, Returns, Falls, ends};
ghost use Rattle.c_meaning.specs.Reaching.{ReachesRest, ReachesCaller, ComesBack};
ghost use Rattle.c_meaning_machine.specs.AtOnce.{yields_back};
ghost use Rattle.c_meaning_machine.specs.Costs.{back_cost, rest_cost};
ghost use Rattle.c_meaning_machine.specs.Stacks.{waiting};
ghost use Rattle.c_meaning_machine.specs.Steps.{next_cost};

use crate::arriving::settle;
use crate::looping::{after_body, turn};
use c_meaning_machine::{Left, Machine, Next, Waiting, evaluate, same};
use c_program::{Ending, Target, Term};
use lang_base::{NoMemory, Shown};

/// `break`: the nearest loop is left.
#[tactic(auto, using(c_meaning_machine::proofs::Stops::resume_fails))]
pub fn breaks(machine: &mut Machine) -> Next
    ensures meaning { ReachesRest machine.old machine.new Breaks result }
    ensures cost { next_cost result machine.new ≤ 1 + rest_cost machine.old }
{
    while let Some(left) = machine.left.pop() {
        match left {
            Left::Rest(_, _) => {}
            Left::Body(_) => {
                machine.actions = &[];
                return Next::Goes;
            }
            Left::Behind(_) | Left::Back(_) => return Next::Stops(Shown::Wrong),
        }
    }
    Next::Stops(Shown::Wrong)
}

/// `continue`: the rest of the nearest loop's body is left out. Behind the body, the loop is left.
#[tactic(auto, using(c_meaning_machine::proofs::Stops::resume_fails, c_meaning_machine::proofs::Levels::cost_some))]
pub fn continues(machine: &mut Machine) -> Result<Next, NoMemory>
    ensures meaning { IfOk result (ReachesRest machine.old machine.new Continues) }
    ensures cost { IfOk result (λ next. next_cost next machine.new ≤ rest_cost machine.old) }
{
    while let Some(left) = machine.left.pop() {
        match left {
            Left::Rest(_, _) => {}
            Left::Body(cycle) => return after_body(machine, cycle),
            Left::Behind(_) => {
                machine.actions = &[];
                return Ok(Next::Goes);
            }
            Left::Back(_) => return Ok(Next::Stops(Shown::Wrong)),
        }
    }
    Ok(Next::Stops(Shown::Wrong))
}

/// A callee has returned to a caller that no more stands on the stack. Where the caller returns the same
/// word, that is left to the caller of this.
#[inline(always)]
#[tactic(auto, using(c_meaning_machine::proofs::Stops::resume_fails))]
fn come_back<'a>(machine: &mut Machine<'a>, caller: Waiting<'a>, word: Option<u32>) -> Option<Next>
    ensures meaning { ComesBack machine.old machine.new caller.entry word result }
    ensures cost { IfSome result (λ next. next_cost next machine.new ≤ back_cost machine.old caller.entry) }
    ensures left { IfNone result (waiting machine.new.left ≡ waiting machine.old.left) }
    ensures functions { IfNone result (machine.new.functions ≡ machine.old.functions) }
{
    machine.scope.locals.truncate(machine.scope.base);
    machine.scope.base = caller.base;
    machine.bound = caller.bound;
    machine.actions = same(caller.actions);
    match word {
        Some(word) => settle(machine, caller.target, word),
        None if caller.target == Target::Nowhere => Some(Next::Goes),
        None => Some(Next::Stops(Shown::Wrong)),
    }
}

/// `return`, with a word or without: the nearest caller goes on.
#[inline(always)]
pub fn returns(machine: &mut Machine, word: Option<u32>) -> Next
    ensures meaning { ReachesRest machine.old machine.new (Returns word) result }
    ensures cost { next_cost result machine.new ≤ 1 + rest_cost machine.old }
{
    while let Some(left) = machine.left.pop() {
        if let Left::Back(caller) = left {
            if let Some(next) = come_back(machine, caller, word) {
                return next;
            }
        }
    }
    match word {
        Some(word) => Next::Stops(Shown::Ended(word)),
        None => Next::Stops(Shown::Wrong),
    }
}

/// `return` with what an expression gives: the nearest caller goes on.
#[tactic(auto, using(c_meaning_machine::proofs::Stops::resume_fails))]
pub fn returns_term(machine: &mut Machine, term: &Term) -> Next
    ensures meaning { ReachesRest machine.old machine.new (yields_back term.now) result }
    ensures cost { next_cost result machine.new ≤ 1 + rest_cost machine.old }
{
    match evaluate(term, &machine.scope) {
        Some(word) => returns(machine, Some(word)),
        None => Next::Stops(Shown::Wrong),
    }
}

/// A callee has returned to a caller that does not stand on the stack, and that may return the same word.
#[inline(always)]
fn hand_back<'a>(machine: &mut Machine<'a>, caller: Waiting<'a>, word: Option<u32>) -> Next
    ensures meaning { ReachesCaller machine.old machine.new caller.entry (Returns word) result }
    ensures cost { next_cost result machine.new ≤ back_cost machine.old caller.entry }
{
    match come_back(machine, caller, word) {
        Some(next) => next,
        None => returns(machine, word),
    }
}

/// A callee returns what an expression gives to a caller that does not stand on the stack.
#[inline(always)]
#[tactic(auto, using(c_meaning_machine::proofs::Stops::resume_fails))]
pub fn hand_back_term<'a>(machine: &mut Machine<'a>, caller: Waiting<'a>, term: &Term) -> Next
    ensures meaning { ReachesCaller machine.old machine.new caller.entry (yields_back term.now) result }
    ensures cost { next_cost result machine.new ≤ back_cost machine.old caller.entry }
{
    match evaluate(term, &machine.scope) {
        Some(word) => hand_back(machine, caller, Some(word)),
        None => Next::Stops(Shown::Wrong),
    }
}

/// The end of a function's body is reached.
#[tactic(auto, using(c_meaning_machine::proofs::Stops::resume_fails))]
fn reach_end<'a>(machine: &mut Machine<'a>, caller: Waiting<'a>) -> Next
    ensures meaning { ReachesCaller machine.old machine.new caller.entry (λ s. ends caller.entry.ending (Falls s)) result }
    ensures cost { next_cost result machine.new ≤ back_cost machine.old caller.entry }
{
    let word = match caller.ending {
        Ending::Returns => None,
        Ending::ReturnsZero => Some(0),
        Ending::GoesWrong => return Next::Stops(Shown::Wrong),
    };
    hand_back(machine, caller, word)
}

/// What is done now has fallen through: what waits on top is done.
pub fn falls(machine: &mut Machine) -> Result<Next, NoMemory>
    ensures meaning { IfOk result (ReachesRest machine.old machine.new Falls) }
    ensures cost { IfOk result (λ next. next_cost next machine.new ≤ rest_cost machine.old) }
{
    match machine.left.pop() {
        None => Ok(Next::Stops(Shown::Wrong)),
        Some(Left::Rest(bound, actions)) => {
            machine.bound = bound;
            machine.actions = same(actions);
            Ok(Next::Goes)
        }
        Some(Left::Body(cycle)) => after_body(machine, cycle),
        Some(Left::Behind(cycle)) => turn(machine, cycle),
        Some(Left::Back(caller)) => Ok(reach_end(machine, caller)),
    }
}
