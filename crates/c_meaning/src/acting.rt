//! One step of a run.

ghost use Rattle.std.specs.Prelude.{◌≤◌, ◌<◌, IfOk};
ghost use Rattle.c_program.specs.Trees.{Sequence, Give, Store, Update};
ghost use Rattle.c_program.specs.Views.{term_tree, given_tree, action_tree, actions_tree};
ghost use Rattle.c_program.specs.Meaning.{Falls};
ghost use Rattle.c_meaning.specs.Parts.{choice_tree, loop_work};
ghost use Rattle.c_meaning.specs.Reaching.{Reaches, ReachesWork, Does, CostFalls, CostsAtMost};
ghost use Rattle.c_meaning_machine.specs.Costs.{later_cost};
ghost use Rattle.c_meaning_machine.specs.Steps.{next_cost};

use crate::arriving::{arrive, store};
use crate::calling::call;
use crate::leaving::{breaks, continues, falls, returns, returns_term};
use crate::looping::{listed, turn};
use c_meaning_machine::{Cycle, Front, Left, Machine, Next, advance, evaluate, same, update};
use c_program::{Action, Target, Term, Value};
use ints::Op;
use lang_base::{NoMemory, Shown};

/// What gives a value is done, and the value goes to its target.
#[tactic(auto, using(c_meaning_machine::proofs::Stops::resume_fails))]
fn give<'a>(machine: &mut Machine<'a>, target: Target, value: &'a Value) -> Result<Next, NoMemory>
    ensures meaning { IfOk result (Does machine.old machine.new (Give target (given_tree value.now))) }
    ensures cost { IfOk result (CostFalls machine.old machine.new (Give target (given_tree value.now))) }
{
    match value {
        Value::Term(term) => match evaluate(term, &machine.scope) {
            Some(word) => Ok(arrive(machine, target, word)),
            None => Ok(Next::Stops(Shown::Wrong)),
        },
        Value::Call(called) => call(machine, target, called),
        Value::Put(term) => match evaluate(term, &machine.scope) {
            Some(word) => Ok(Next::Prints((word % 256) as u8, target)),
            None => Ok(Next::Stops(Shown::Wrong)),
        },
    }
}

/// A cell becomes what an expression gives.
#[tactic(auto, using(c_meaning_machine::proofs::Stops::resume_fails))]
fn store_value(machine: &mut Machine, global: usize, index: &Term, value: &Term) -> Next
    ensures meaning { Does machine.old machine.new (Store global (term_tree index.now) (term_tree value.now)) result }
    ensures cost { next_cost result machine.new ≤ later_cost machine.old }
{
    let Some(index) = evaluate(index, &machine.scope) else {
        return Next::Stops(Shown::Wrong);
    };
    let Some(word) = evaluate(value, &machine.scope) else {
        return Next::Stops(Shown::Wrong);
    };
    store(machine, global, index, word)
}

/// A cell becomes what an operator gives of its word and of what an expression gives.
#[tactic(auto, using(c_meaning_machine::proofs::Stops::resume_fails))]
fn update_cell(machine: &mut Machine, global: usize, index: &Term, op: Op, value: &Term) -> Next
    ensures meaning { Does machine.old machine.new (Update global (term_tree index.now) op (term_tree value.now)) result }
    ensures cost { next_cost result machine.new ≤ later_cost machine.old }
{
    if update(&mut machine.scope, global, index, op, value) {
        Next::Goes
    } else {
        Next::Stops(Shown::Wrong)
    }
}

/// One of two actions, by a condition.
#[tactic(auto, using(c_meaning_machine::proofs::Stops::resume_fails))]
fn choose<'a>(
    machine: &mut Machine<'a>,
    condition: &Term,
    then: &'a Action,
    other: &'a Action,
) -> Result<Next, NoMemory>
    ensures meaning { IfOk result (Does machine.old machine.new (choice_tree condition.now then.now other.now)) }
    ensures cost { IfOk result (CostFalls machine.old machine.new (choice_tree condition.now then.now other.now)) }
{
    let Some(word) = evaluate(condition, &machine.scope) else {
        return Ok(Next::Stops(Shown::Wrong));
    };
    machine
        .left
        .push(Left::Rest(machine.bound, same(machine.actions)))?;
    machine.actions = listed(if word == 0 { other } else { then });
    Ok(Next::Goes)
}

/// The next action is done.
#[tactic(auto, using(c_program::proofs::Sequences::view_sequence))]
fn act<'a>(machine: &mut Machine<'a>, action: &'a Action) -> Result<Next, NoMemory>
    ensures meaning { IfOk result (Does machine.old machine.new (action_tree action.now)) }
    ensures cost { IfOk result (CostFalls machine.old machine.new (action_tree action.now)) }
{
    match action {
        Action::Nothing => Ok(Next::Goes),
        Action::Declare(local) => {
            machine.scope.set_local(*local, None);
            Ok(Next::Goes)
        }
        Action::Sequence(all) => begin_sequence(machine, all.as_slice()),
        Action::Give(target, value) => give(machine, *target, value),
        Action::Store(global, index, value) => Ok(store_value(machine, *global, index, value)),
        Action::Update(global, index, op, value) => {
            Ok(update_cell(machine, *global, index, *op, value))
        }
        Action::If(condition, then, other) => choose(machine, condition, then, other),
        Action::Loop(condition, body, behind) => begin_loop(machine, condition, body, behind),
        Action::Break => Ok(breaks(machine)),
        Action::Continue => continues(machine),
        Action::Leave => Ok(returns(machine, None)),
    }
}

/// A sequence begins.
fn begin_sequence<'a>(machine: &mut Machine<'a>, all: &'a [Action]) -> Result<Next, NoMemory>
    ensures meaning { IfOk result (Does machine.old machine.new (Sequence (actions_tree all.entry.now))) }
    ensures cost { IfOk result (CostFalls machine.old machine.new (Sequence (actions_tree all.entry.now))) }
{
    machine
        .left
        .push(Left::Rest(machine.bound, same(machine.actions)))?;
    machine.actions = all;
    Ok(Next::Goes)
}

/// A loop begins.
fn begin_loop<'a>(
    machine: &mut Machine<'a>,
    condition: &'a Term,
    body: &'a Action,
    behind: &'a Action,
) -> Result<Next, NoMemory>
    ensures meaning { IfOk result (ReachesWork machine.old machine.new (loop_work condition.now body.now behind.now)) }
    ensures cost { IfOk result (CostsAtMost machine.old machine.new (loop_work condition.now body.now behind.now)) }
{
    let bound = machine.bound;
    machine.left.push(Left::Rest(bound, same(machine.actions)))?;
    let cycle = Cycle {
        bound,
        condition,
        body,
        behind,
    };
    turn(machine, cycle)
}

/// The next step: what only changes variables is done at once, then the action behind it, or where there is none,
/// what waits.
#[inline(always)]
#[tactic(auto, using(c_meaning_machine::proofs::Stops::resume_fails, c_meaning_machine::proofs::Stops::yields_back))]
pub fn step(machine: &mut Machine) -> Result<Next, NoMemory>
    ensures meaning { IfOk result (Reaches machine.old machine.new Falls) }
    ensures cost { IfOk result (λ next. next_cost next machine.new < later_cost machine.old) }
{
    match advance(&mut machine.scope, machine.actions) {
        Front::Wrong => Ok(Next::Stops(Shown::Wrong)),
        Front::Done => falls(machine),
        Front::Stays(Action::Give(Target::Caller, Value::Term(term)), _) => {
            Ok(returns_term(machine, term))
        }
        Front::Stays(action, rest) => {
            machine.actions = rest;
            act(machine, action)
        }
    }
}
