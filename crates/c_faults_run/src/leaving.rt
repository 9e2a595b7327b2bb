//! What is done where a statement leaves: the pile is searched for what goes on.

ghost use Rattle.std.specs.Prelude.{◌≡◌, ◌<◌, ◌≤◌, IfOk, IfSome, IfNone};
ghost use Rattle.c_program.specs.Meaning.{Breaks, Continues, Returns, Falls};
ghost use Rattle.c_faults_run.specs.Ends.{ComesBack};
ghost use Rattle.c_faults_step.specs.Ahead.{IsAtEnd};
ghost use Rattle.c_faults_step.specs.Piles.{pending};
ghost use Rattle.c_faults_step.specs.Steps.{IsMalformed, ReachesRest, rest_cost, step_cost};

use crate::acting::act_first;
use crate::arriving::settle;
use crate::looping::{after_body, head};
use c_faults::{Cause, Gap};
use c_faults_gaps::own;
use c_faults_step::{Item, Step, Tracer, Waiting};
use c_program::{Ending, Target};
use lang_base::NoMemory;

/// What no text stands for.
fn malformed(place: usize) -> Step
    ensures { IsMalformed place result }
{
    let cause = Cause::Malformed;
    Step::Wrong(Gap { cause, place })
}

/// `break`: the nearest loop is left.
pub fn breaks(tracer: &mut Tracer) -> Result<Step, NoMemory>
    ensures meaning { IfOk result (ReachesRest tracer.old tracer.new Breaks) }
    ensures cost { IfOk result (λ step. step_cost step tracer.new < rest_cost tracer.old) }
{
    while let Some(item) = tracer.items.pop() {
        match item {
            Item::Do(_, _, _) => {}
            Item::Body(_) => return Ok(Step::Goes),
            Item::Last(cycle) => return Ok(malformed(own(cycle.places))),
            Item::Back(_) => {
                tracer.items.push(item)?;
                return Ok(malformed(tracer.running.end));
            }
        }
    }
    Ok(malformed(tracer.running.end))
}

/// `continue`: the rest of the nearest loop's body is left out. Behind the body, the loop is left.
pub fn continues(tracer: &mut Tracer) -> Result<Step, NoMemory>
    ensures meaning { IfOk result (ReachesRest tracer.old tracer.new Continues) }
    ensures cost { IfOk result (λ step. step_cost step tracer.new < rest_cost tracer.old) }
{
    while let Some(item) = tracer.items.pop() {
        match item {
            Item::Do(_, _, _) => {}
            Item::Body(cycle) => return after_body(tracer, cycle),
            Item::Last(_) => return Ok(Step::Goes),
            Item::Back(_) => {
                tracer.items.push(item)?;
                return Ok(malformed(tracer.running.end));
            }
        }
    }
    Ok(malformed(tracer.running.end))
}

/// A callee has returned to a caller that no more stands on the pile. Where the caller returns the same word, that is left to
/// the caller of this.
#[tactic(auto, using(c_faults_step::proofs::Levels::return_none, c_faults_step::proofs::Ending::return_some, c_faults_step::proofs::Ending::hands_some))]
fn come_back(tracer: &mut Tracer, caller: Waiting, word: Option<u32>) -> Option<Step>
    ensures meaning { ComesBack tracer.old tracer.new caller word result }
    ensures cost { IfSome result (λ step. step_cost step tracer.new ≤ rest_cost tracer.old) }
    ensures items { IfNone result (pending tracer.new.items ≡ pending tracer.old.items) }
    ensures functions { IfNone result (tracer.new.functions ≡ tracer.old.functions) }
    ensures places { IfNone result (tracer.new.places ≡ tracer.old.places) }
{
    tracer.scope.locals.truncate(tracer.scope.base);
    tracer.scope.base = caller.base;
    tracer.running = caller.running;
    match word {
        Some(word) => settle(tracer, caller.target, word, caller.place),
        None if caller.target == Target::Nowhere => Some(Step::Goes),
        None => Some(malformed(caller.place)),
    }
}

/// `return`, with a word or without: the nearest caller goes on.
pub fn returns(tracer: &mut Tracer, word: Option<u32>) -> Step
    ensures meaning { ReachesRest tracer.old tracer.new (Returns word) result }
    ensures cost { step_cost result tracer.new < rest_cost tracer.old }
{
    while let Some(item) = tracer.items.pop() {
        if let Item::Back(caller) = item {
            if let Some(step) = come_back(tracer, caller, word) {
                return step;
            }
        }
    }
    match word {
        Some(_) => Step::Over,
        None => malformed(0),
    }
}

/// The end of the running function's body is reached: nothing of it is left to do.
#[tactic(auto, using(c_faults_step::proofs::Ending::end_returns, c_faults_step::proofs::Ending::end_returns_zero, c_faults_step::proofs::Ending::end_wrong))]
fn reach_end(tracer: &mut Tracer) -> Step
    requires { IsAtEnd (pending tracer.old.items) }
    ensures meaning { ReachesRest tracer.old tracer.new Falls result }
    ensures cost { step_cost result tracer.new < rest_cost tracer.old }
{
    match tracer.running.ending {
        Ending::Returns => returns(tracer, None),
        Ending::ReturnsZero => returns(tracer, Some(0)),
        Ending::GoesWrong => {
            let cause = Cause::NoReturn;
            Step::Wrong(Gap {
                cause,
                place: tracer.running.end,
            })
        }
    }
}

/// What is done now has fallen through: what waits on top is done.
pub fn falls<'a>(tracer: &mut Tracer<'a>) -> Result<Step, NoMemory>
    ensures meaning { IfOk result (ReachesRest tracer.old tracer.new Falls) }
    ensures cost { IfOk result (λ step. step_cost step tracer.new < rest_cost tracer.old) }
{
    match tracer.items.pop() {
        None => Ok(reach_end(tracer)),
        Some(Item::Do(bound, actions, places)) => act_first(tracer, bound, actions, places),
        Some(Item::Body(cycle)) => after_body(tracer, cycle),
        Some(Item::Last(cycle)) => head(tracer, cycle),
        Some(Item::Back(caller)) => {
            tracer.items.push(Item::Back(caller))?;
            Ok(reach_end(tracer))
        }
    }
}
