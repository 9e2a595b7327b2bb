//! One step of a run.

ghost use Rattle.std.specs.Prelude.{◌+◌, ◌<◌, ◌≤◌, IfOk};
ghost use Rattle.c_program.specs.Views.{action_tree};
ghost use Rattle.c_faults_run.specs.Acts.{Gives, giving_cost, StoresWord, UpdatesWord, Chooses, choice_cost};
ghost use Rattle.c_faults_step.specs.Steps.{Does, rest_cost, step_cost};
ghost use Rattle.c_faults_run.specs.Turning.{DoesAll, all_cost, one_cost};

use crate::arriving::{arrive, store};
use crate::calling::call;
use crate::choice::Choice;
use crate::leaving::{breaks, continues, returns};
use crate::looping::head;
use c_faults::{Cause, Gap};
use c_faults_gaps::{behind, behind_action, others, own, update_gap, worth};
use c_faults_step::{Cycle, Item, Step, Tracer};
use c_meaning_machine::update;
use c_program::{Action, Target, Term, Value};
use ints::Op;
use lang_base::NoMemory;
use std::slice;

/// The first of some actions is done, with those behind it waiting.
#[tactic(auto, using(c_faults_step::proofs::Ahead::or_assoc))]
pub fn act_first<'a>(
    tracer: &mut Tracer<'a>,
    bound: u64,
    actions: &'a [Action],
    places: &'a [usize],
) -> Result<Step, NoMemory>
    ensures meaning { IfOk result (DoesAll tracer.old tracer.new bound places.entry.now actions.entry.now) }
    ensures cost { IfOk result (λ step. step_cost step tracer.new < 1 + all_cost tracer.old bound actions.entry.now) }
{
    match actions {
        [] => Ok(Step::Goes),
        [first, rest @ ..] => {
            let left = Item::Do(bound, rest, behind_action(first, places));
            tracer.items.push(left)?;
            act(tracer, bound, first, places)
        }
    }
}

/// An action is done.
#[tactic(auto, using(c_program::proofs::Sequences::view_sequence, c_faults_step::proofs::Ahead::ahead_fails))]
fn act<'a>(
    tracer: &mut Tracer<'a>,
    bound: u64,
    action: &'a Action,
    places: &'a [usize],
) -> Result<Step, NoMemory>
    ensures meaning { IfOk result (Does tracer.old tracer.new bound places.entry.now (action_tree action.entry.now)) }
    ensures cost { IfOk result (λ step. step_cost step tracer.new < one_cost tracer.old bound action.entry.now) }
{
    match action {
        Action::Nothing => Ok(Step::Goes),
        Action::Declare(number) => {
            tracer.scope.set_local(*number, None);
            Ok(Step::Goes)
        }
        Action::Sequence(all) => {
            let left = Item::Do(bound, all.as_slice(), others(places));
            tracer.items.push(left)?;
            Ok(Step::Goes)
        }
        Action::Give(target, value) => give(tracer, bound, *target, value, places),
        Action::Store(global, index, value) => {
            Ok(store_word(tracer, *global, index, value, places))
        }
        Action::Update(global, index, op, value) => {
            Ok(update_word(tracer, *global, index, *op, value, places))
        }
        Action::If(condition, then, other) => choose(
            tracer,
            bound,
            Choice {
                condition,
                then,
                other,
                places: others(places),
            },
        ),
        Action::Loop(condition, body, last) => head(
            tracer,
            Cycle {
                bound,
                condition,
                body,
                last,
                places: others(places),
            },
        ),
        Action::Break => breaks(tracer),
        Action::Continue => continues(tracer),
        Action::Leave => Ok(returns(tracer, None)),
    }
}

/// What gives a value is done, and the value goes to its target.
#[tactic(auto, using(c_faults_step::proofs::Ending::arrival_printed))]
fn give<'a>(
    tracer: &mut Tracer<'a>,
    bound: u64,
    target: Target,
    value: &'a Value,
    places: &'a [usize],
) -> Result<Step, NoMemory>
    ensures meaning { IfOk result (Gives tracer.old tracer.new bound places.entry.now target value.entry.now) }
    ensures cost { IfOk result (λ step. step_cost step tracer.new < giving_cost tracer.old bound value.entry.now) }
{
    match value {
        Value::Term(term) => match worth(term, others(places), &tracer.scope) {
            Err(found) => Ok(Step::Wrong(found)),
            Ok(word) => Ok(arrive(tracer, target, word, own(places))),
        },
        Value::Put(term) => match worth(term, others(places), &tracer.scope) {
            Err(found) => Ok(Step::Wrong(found)),
            Ok(word) => Ok(Step::Prints((word % 256) as u8, target, own(places))),
        },
        Value::Call(called) => call(tracer, bound, target, called, places),
    }
}

/// A cell becomes a word: its index, the cell, and what is stored.
fn store_word(
    tracer: &mut Tracer,
    global: usize,
    index: &Term,
    value: &Term,
    places: &[usize],
) -> Step
    ensures meaning { StoresWord tracer.old tracer.new places.now global index.now value.now result }
    ensures cost { step_cost result tracer.new ≤ rest_cost tracer.old }
{
    let parts = others(places);
    let at = own(places);
    match worth(index, parts, &tracer.scope) {
        Err(found) => Step::Wrong(found),
        Ok(index_word) => {
            if tracer.scope.cell(global, index_word).is_none() {
                let cause = Cause::Past(global, index_word);
                return Step::Wrong(Gap { cause, place: at });
            }
            match worth(value, behind(index, parts), &tracer.scope) {
                Err(found) => Step::Wrong(found),
                Ok(word) => store(tracer, global, index_word, word, at),
            }
        }
    }
}

/// A cell becomes what an operator gives of its word and another.
fn update_word(
    tracer: &mut Tracer,
    global: usize,
    index: &Term,
    op: Op,
    value: &Term,
    places: &[usize],
) -> Step
    ensures meaning { UpdatesWord tracer.old tracer.new places.now global index.now op value.now result }
    ensures cost { step_cost result tracer.new ≤ rest_cost tracer.old }
{
    if let Some(found) = update_gap(places, global, index, op, value, &tracer.scope) {
        return Step::Wrong(found);
    }
    if update(&mut tracer.scope, global, index, op, value) {
        Step::Goes
    } else {
        Step::Over
    }
}

/// One of two actions is done, by a condition.
fn choose<'a>(tracer: &mut Tracer<'a>, bound: u64, choice: Choice<'a>) -> Result<Step, NoMemory>
    ensures meaning { IfOk result (Chooses tracer.old tracer.new bound choice.entry) }
    ensures cost { IfOk result (λ step. step_cost step tracer.new < choice_cost tracer.old bound choice.entry) }
{
    let then_places = behind(choice.condition, choice.places);
    match worth(choice.condition, choice.places, &tracer.scope) {
        Err(found) => Ok(Step::Wrong(found)),
        Ok(0) => {
            let left = behind_action(choice.then, then_places);
            tracer
                .items
                .push(Item::Do(bound, slice::from_ref(choice.other), left))?;
            Ok(Step::Goes)
        }
        Ok(_) => {
            let then = slice::from_ref(choice.then);
            tracer.items.push(Item::Do(bound, then, then_places))?;
            Ok(Step::Goes)
        }
    }
}
